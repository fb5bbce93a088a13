//! The base directories of several stores.
ghost use Rattle.std.specs.Prelude.{◌≡◌, IfOk};
ghost use Rattle.sc_store.specs.Basedirs as dirs;
ghost use Rattle.sc_store.specs.Basedirs.{IsSetOf, basedirs_of, collect};
ghost use Rattle.sc_store.specs.Telling.{titles_of};

use crate::level::Level;
use crate::levels::Layered;
use crate::remote::Remote;
use crate::vouch::Vouch;
use sc_disk::Disk;
use sc_entry::{ByteText, Items, NoMemory};
use std::alloc::Global;
use std::collections::BTreeSet;

/// Adds directories in their order, each once, to those so far. The set of these stands beside them, so that none is looked for
/// in the list.
fn add<'a>(
    seen: &mut Vec<ByteText>,
    named: &mut BTreeSet<&'a [u8]>,
    basedirs: &'a [ByteText],
) -> Result<(), NoMemory>
    requires { IsSetOf named.old seen.old.items }
    ensures collected { IfOk result (λ _. seen.new.items ≡ collect seen.old.items basedirs.now) }
    ensures named { IfOk result (λ _. IsSetOf named.new seen.new.items) }
{
    let mut left = basedirs;
    while let [first, rest @ ..] = left {
        if named.insert(first.as_slice())? {
            seen.push(first.try_clone()?)?;
        }
        left = rest;
    }
    Ok(())
}

/// The base directories of all levels, in the order in which they first appear.
pub(crate) fn collect_basedirs<R: Remote, D: Disk, V: Vouch>(
    alloc: Global,
    levels: &Layered<R, D, V>,
) -> Result<Vec<ByteText>, NoMemory>
    ensures { IfOk result (λ basedirs. basedirs.items ≡ basedirs_of levels.now.titles) }
{
    let mut seen = Vec::new(alloc);
    let mut named = BTreeSet::new(alloc);
    let count = levels.len();
    let mut level = 0;
    while level < count {
        add(&mut seen, &mut named, levels.get(level).basedirs())?;
        level += 1;
    }
    Ok(seen)
}

/// These directories once more.
fn copied(alloc: Global, basedirs: &[ByteText]) -> Result<Items<ByteText>, NoMemory>
    ensures { IfOk result (λ copies. copies ≡ basedirs.now) }
{
    let mut copies = Items::new(alloc);
    for basedir in basedirs {
        copies.push(basedir.try_clone()?)?;
    }
    Ok(copies)
}

/// The base directories of the first level.
pub(crate) fn first_basedirs<R: Remote, D: Disk, V: Vouch>(
    alloc: Global,
    levels: &[Level<R, D, V>],
) -> Result<Items<ByteText>, NoMemory>
    ensures { IfOk result (λ basedirs. basedirs ≡ dirs.first_basedirs (titles_of levels.now)) }
{
    match levels {
        [first, ..] => {
            let basedirs = copied(alloc, first.basedirs())?;
            Ok(basedirs)
        }
        [] => Ok(Items::new(alloc)),
    }
}
