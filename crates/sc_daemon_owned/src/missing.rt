//! Which required output an entry lacks.
ghost use Rattle.std.specs.Prelude.{◌≡◌, ◌&&◌, not, IfOk, option_map};
ghost use Rattle.sc_entry.specs.Entries.{has_name, objects};
ghost use Rattle.sc_model.specs.World.{first_missing, holds_name};

use crate::nowhere::Nowhere;
use sc_entry::{ByteText, CacheRead, FileObjectSource, GetError, NoMemory, ReadEntryError, Text};
use std::alloc::Global;

/// The entry that bytes spell, where they spell one.
fn entry_of(alloc: Global, bytes: &ByteText) -> Result<Option<CacheRead>, NoMemory>
    ensures { IfOk result (λ entry. entry ≡ objects bytes.now) }
{
    match CacheRead::from(alloc, bytes.try_clone()?) {
        Ok(entry) => Ok(Some(entry)),
        Err(ReadEntryError::BadEntry) => Ok(None),
        Err(ReadEntryError::NoMemory) => Err(NoMemory),
    }
}

/// Whether an entry has an object of this name.
fn has_object(entry: &CacheRead, name: &str) -> bool
    ensures { result ≡ has_name name.now entry.now }
{
    match entry.get_object(name, &mut Nowhere) {
        Ok(_) => true,
        Err(GetError::DecompressionFailure) => false,
        Err(GetError::NoMemory) => true,
        Err(GetError::WriteFault) => true,
    }
}

/// Whether there is an entry, and it has an object of this name.
fn holds_object(entry: &Option<CacheRead>, name: &str) -> bool
    ensures { result ≡ holds_name entry.now name.now }
{
    match entry {
        None => false,
        Some(entry) => has_object(entry, name),
    }
}

fn is_missing(entry: &Option<CacheRead>, output: &FileObjectSource) -> bool
    ensures { result ≡ (not output.now.optional && not (holds_name entry.now output.now.key)) }
{
    !output.optional && !holds_object(entry, output.key.as_str())
}

fn first_missing_in<'a>(
    entry: &Option<CacheRead>,
    outputs: &'a [FileObjectSource],
) -> Option<&'a Text>
    ensures { option_map (λ name. name.now) result ≡ first_missing entry.now outputs.now }
{
    let mut left = outputs;
    while let [output, rest @ ..] = left {
        if is_missing(entry, output) {
            return Some(&output.key);
        }
        left = rest;
    }
    None
}

/// The first required output that an entry lacks. Bytes that spell no entry lack each.
pub fn first_missing<'a>(
    alloc: Global,
    bytes: &ByteText,
    outputs: &'a [FileObjectSource],
) -> Result<Option<&'a Text>, NoMemory>
    ensures { IfOk result (λ name. option_map (λ n. n.now) name ≡ first_missing (objects bytes.now) outputs.now) }
{
    let entry = entry_of(alloc, bytes)?;
    Ok(first_missing_in(&entry, outputs))
}
