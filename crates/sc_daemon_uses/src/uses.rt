//! The uses of a level that a drive made.
ghost use Rattle.std.specs.Prelude.{◌≡◌, ◌++◌, map, option_map, option_to_list, IfOk, OnOk};
ghost use Rattle.sc_daemon_uses.specs.Uses.{asked, lent, put, use_in, uses_in, wrote};

use sc_daemon::Driven;
use sc_disk::is_store_key;
use sc_entry::{ByteText, NoMemory, Text};
use sc_lru::Use;
use sc_model::{Event, Mode, What, Written};
use std::alloc::Global;

/// A lookup, as a use.
fn asked(key: &Text, mode: Mode) -> Option<Use<&str>>
    ensures { option_map lent result ≡ asked key.now mode }
{
    match mode {
        Mode::Whole | Mode::Raw => {
            if is_store_key(key) {
                return Some(Use::Get(key.as_str()));
            }
            None
        }
        _ => None,
    }
}

/// A write of an entry, as a use.
fn put<'a>(key: &'a Text, bytes: &ByteText, written: Written) -> Option<Use<&'a str>>
    ensures { option_map lent result ≡ put key.now bytes.now written }
{
    match written {
        Written::Done => Some(Use::Put(key.as_str(), bytes.len() as u64)),
        Written::Refused(_) => None,
    }
}

/// A remote level's write, as a use.
fn wrote<'a>(key: &'a Text, bytes: &ByteText, mode: Mode, written: Written) -> Option<Use<&'a str>>
    ensures { option_map lent result ≡ wrote key.now bytes.now mode written }
{
    match mode {
        Mode::Whole => put(key, bytes, written),
        _ => None,
    }
}

/// What an event is to a level, as a use.
fn use_in(what: &What, level: u64) -> Option<Use<&str>>
    ensures { option_map lent result ≡ use_in level what.now }
{
    match what {
        What::Asked(at, key, mode, _, _) if *at == level => asked(key, *mode),
        What::Committed(at, key, bytes, written) if *at == level => put(key, bytes, *written),
        What::Wrote(at, key, bytes, mode, _, written) if *at == level => {
            wrote(key, bytes, *mode, *written)
        }
        _ => None,
    }
}

/// Adds what an event is to a level, where it is a use.
fn add_use<'a>(uses: &mut Vec<Use<&'a str>>, event: &'a Event, level: u64) -> Result<(), NoMemory>
    ensures { OnOk result (map lent uses.new.items ≡ map lent uses.old.items ++ option_to_list (use_in level event.now.what)) }
{
    let Some(one) = use_in(&event.what, level) else {
        return Ok(());
    };
    uses.push(one)?;
    Ok(())
}

fn uses_in<'a>(
    alloc: Global,
    events: &'a [Event],
    level: u64,
) -> Result<Vec<Use<&'a str>>, NoMemory>
    ensures { IfOk result (λ uses. map lent uses.items ≡ uses_in level events.now) }
{
    let mut uses = Vec::new(alloc);
    let mut left = events;
    while let [event, rest @ ..] = left {
        add_use(&mut uses, event, level)?;
        left = rest;
    }
    Ok(uses)
}

/// The uses of a level, counted from 0, that a drive made, the oldest first: a get for each lookup of an entry by a store key,
/// whatever it answered, and a put with its number of bytes for each entry that was stored. Writes that were handed on and what
/// was copied from another level count as any other. What was refused to be stored, lookups of paths and sizes, and what belongs
/// to the preprocessor are no uses. A level that the daemon doesn't have has none.
///
/// The keys are those of the events, and are lent.
///
/// # Errors
///
/// `NoMemory` where there is none for the list.
pub fn uses_of<'a>(
    alloc: Global,
    driven: &'a Driven,
    level: u64,
) -> Result<Vec<Use<&'a str>>, NoMemory>
    ensures { IfOk result (λ uses. map lent uses.items ≡ uses_in level driven.now.trace) }
{
    uses_in(alloc, driven.trace.as_slice(), level)
}
