//! The folders in which programs are looked for.
ghost use Rattle.std.specs.Prelude.{◌≡◌, IfOk};
ghost use Rattle.sc_main_outside.specs.Around as arounds;

use sc_entry::{ByteText, Items, NoMemory};
use sc_words::cut;
use std::alloc::Global;

/// A part of `PATH` as a folder. One that doesn't begin with `/` is in the working folder, and an empty one is that itself.
fn folder_of(alloc: Global, cwd: &[u8], part: &[u8]) -> Result<ByteText, NoMemory>
    ensures { IfOk result (λ folder. folder ≡ arounds.folder_of cwd.now part.now) }
{
    match part {
        [] => ByteText::from_slice(alloc, cwd),
        [b'/', ..] => ByteText::from_slice(alloc, part),
        [_, ..] => {
            let mut folder = ByteText::from_slice(alloc, cwd)?;
            folder.push(b'/')?;
            folder.append(part)?;
            Ok(folder)
        }
    }
}

/// The folders of a `PATH`, in order: its parts stand between colons.
pub(crate) fn folders_of(
    alloc: Global,
    cwd: &[u8],
    path: &[u8],
) -> Result<Items<ByteText>, NoMemory>
    ensures { IfOk result (λ folders. folders ≡ arounds.folders_of cwd.now path.now) }
{
    let mut folders = Items::new(alloc);
    let mut left = path;
    while let Some((part, rest)) = cut(left, b':') {
        folders.push(folder_of(alloc, cwd, part)?)?;
        left = rest;
    }
    folders.push(folder_of(alloc, cwd, left)?)?;
    Ok(folders)
}
