//! Placing what an entry holds.
ghost use Rattle.std.specs.Prelude.{◌≡◌, ◌≤◌, IfOk};
ghost use Rattle.sc_entry.specs.Entries.{objects};
ghost use Rattle.sc_command_workshop.specs.Placing.{PlacedCause, PlacesEntry, told_placed};

use sc_entry::{
    ByteText, CacheRead, ExtractError, FileObjectSource, Files, NoMemory, ReadEntryError,
};
use std::alloc::Global;

/// How a placing ended that had memory.
#[derive(Drop)]
pub(crate) enum Placed {
    Done,
    /// The bytes spell no entry.
    BadEntry,
    /// The entry lacks a required object.
    Lacking,
    /// The files refused.
    FileFault,
}

/// Places an entry's objects at the outputs' paths.
pub(crate) fn place<F: Files>(
    alloc: Global,
    files: &mut F,
    outputs: &[FileObjectSource],
    entry: &ByteText,
) -> Result<Placed, NoMemory>
    ensures placed { IfOk result (λ p. PlacesEntry (objects entry.now) outputs.now (told_placed p) (F.held files.old) (F.held files.new)) }
    ensures later { F.fault_count files.old ≤ F.fault_count files.new }
    ensures cause { IfOk result (PlacedCause (F.fault_count files.old) (F.fault_count files.new)) }
{
    let entry = match CacheRead::from(alloc, entry.try_clone()?) {
        Ok(entry) => entry,
        Err(ReadEntryError::NoMemory) => return Err(NoMemory),
        Err(ReadEntryError::BadEntry) => return Ok(Placed::BadEntry),
    };
    match entry.extract_objects(files, outputs) {
        Ok(()) => Ok(Placed::Done),
        Err(ExtractError::NoMemory) => Err(NoMemory),
        Err(ExtractError::DecompressionFailure) => Ok(Placed::Lacking),
        Err(ExtractError::FileFault) => Ok(Placed::FileFault),
    }
}
