//! What bytes as they are tell of an entry.
ghost use Rattle.std.specs.Prelude.{◌≡◌, IfOk};
ghost use Rattle.sc_store_disk.specs.Wholes as wholes;
ghost use Rattle.sc_entry.specs.Entries.{objects};

use sc_entry::{ByteText, CacheRead, NoMemory, ReadEntryError};
use sc_model::{Answer, Cause, Mode};
use std::alloc::Global;

/// The bytes again, where they spell an entry.
fn if_spells(alloc: Global, bytes: ByteText) -> Result<Option<ByteText>, NoMemory>
    ensures { IfOk result (λ whole. whole ≡ wholes.if_spells (objects bytes) bytes) }
{
    match CacheRead::from(alloc, bytes) {
        Ok(entry) => Ok(Some(entry.into_bytes())),
        Err(ReadEntryError::BadEntry) => Ok(None),
        Err(ReadEntryError::NoMemory) => Err(NoMemory),
    }
}

/// A hit, or the refusal of bytes that spell no entry.
fn hit_of(whole: Option<ByteText>, mark: bool) -> Answer
    ensures { result ≡ wholes.hit_of whole mark }
{
    match whole {
        Some(bytes) => Answer::Hit(bytes, mark),
        None => Answer::Refused(Cause::BadEntry),
    }
}

/// What an answer of bytes as they are tells of an entry.
fn whole_answer(alloc: Global, answer: Answer) -> Result<Answer, NoMemory>
    ensures { IfOk result (λ whole. whole ≡ wholes.whole_answer answer) }
{
    match answer {
        Answer::Hit(bytes, mark) => {
            let whole = if_spells(alloc, bytes)?;
            Ok(hit_of(whole, mark))
        }
        other => Ok(other),
    }
}

/// What bytes as they are tell of a lookup: a whole one asks whether they spell an entry.
pub fn mode_answer(alloc: Global, mode: Mode, raw: Answer) -> Result<Answer, NoMemory>
    ensures { IfOk result (λ answer. answer ≡ wholes.mode_answer mode raw) }
{
    match mode {
        Mode::Whole => whole_answer(alloc, raw),
        _ => Ok(raw),
    }
}
