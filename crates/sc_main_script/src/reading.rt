//! Reads a script line by line.
ghost use Rattle.std.specs.Prelude.{◌≡◌};
ghost use Rattle.sc_words.specs.Words.{Leaves};
ghost use Rattle.sc_main_script.specs.Parts.{parts_of};
ghost use Rattle.sc_main_script.specs.Scripts.{with_text, lines_from, nothing, reading_of, script_of, first_bad, Answers, Tells};

use crate::draft::Draft;
use crate::lines::line_at;
use crate::script::{Script, ScriptError};
use sc_words::{LineWords, WordsError, cut};
use std::alloc::Global;

/// The most bytes that a script may have.
const MOST: usize = 67_108_864;

#[tactic(auto, unfolding(crate::specs::Scripts::with_text))]
fn add_text(alloc: Global, draft: &mut Draft, text: &[u8]) -> Result<(), WordsError>
    ensures { Leaves (with_text draft.old text.now) result draft.new }
{
    let mut words = LineWords::new(text);
    let line = line_at(alloc, &mut words)?;
    draft.add(alloc, line)
}

/// Reads the lines of a text, which may have been cut off.
fn lines(alloc: Global, text: &[u8], whole: bool) -> Result<Script, ScriptError>
    ensures { Answers (lines_from whole 1 nothing (parts_of text.now)) result }
{
    let mut draft = Draft::new(alloc);
    let mut number: u64 = 1;
    let mut rest = text;
    while let Some((line, after)) = cut(rest, b'\n') {
        match add_text(alloc, &mut draft, line) {
            Ok(()) => {}
            Err(WordsError::NoMemory) => return Err(ScriptError::Memory),
            Err(WordsError::Malformed) => return Err(ScriptError::Bad(number)),
        }
        number += 1;
        rest = after;
    }
    if whole && rest.is_empty() {
        return draft.finish(alloc, number);
    }
    Err(ScriptError::Bad(number))
}

#[tactic(auto, unfolding(crate::specs::Scripts::reading_of))]
fn reading(alloc: Global, bytes: &[u8]) -> Result<Script, ScriptError>
    ensures { Answers (reading_of bytes.now) result }
{
    if bytes.len() <= MOST {
        return lines(alloc, bytes, true);
    }
    lines(alloc, &bytes[..MOST], false)
}

/// Reads a script in one pass over its bytes.
///
/// # Errors
///
/// `Bad` where the bytes are no script, with the number of the first bad line.
#[tactic(auto, unfolding(crate::specs::Scripts::script_of, crate::specs::Scripts::first_bad))]
pub fn read_script(alloc: Global, bytes: &[u8]) -> Result<Script, ScriptError>
    ensures { Tells (script_of bytes.now) (first_bad bytes.now) result }
{
    match reading(alloc, bytes) {
        Ok(script) => Ok(script),
        Err(ScriptError::Memory) => Err(ScriptError::Memory),
        Err(ScriptError::Bad(number)) => Err(ScriptError::Bad(number)),
    }
}
