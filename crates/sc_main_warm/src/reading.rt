//! Reads a script of warm line by line.
ghost use Rattle.sc_main_script.specs.Parts.{parts_of};
ghost use Rattle.sc_main_warm.specs.Drafts.{Answers, no_lines};
ghost use Rattle.sc_main_warm.specs.Texts.{lines_from, warm_said, with_text};
ghost use Rattle.sc_words.specs.Words.{Leaves};

use crate::warm_draft::WarmDraft;
use crate::warm_script::WarmScript;
use sc_main_script::{ScriptError, line_at};
use sc_words::{LineWords, WordsError, cut};
use std::alloc::Global;

/// The most bytes that a script may have.
const MOST: usize = 67_108_864;

/// Adds what a line says.
#[tactic(auto, unfolding(crate::specs::Texts::with_text))]
fn add_text(alloc: Global, draft: &mut WarmDraft, text: &[u8]) -> Result<(), WordsError>
    ensures { Leaves (with_text draft.old text.now) result draft.new }
{
    let mut words = LineWords::new(text);
    let first = words.word()?;
    if first == b"key".as_slice() {
        return draft.add_key(alloc, &mut words);
    }
    let mut words = LineWords::new(text);
    let line = line_at(alloc, &mut words)?;
    draft.add_line(alloc, line)
}

/// Reads the lines of a text, which may have been cut off.
fn lines(alloc: Global, text: &[u8], whole: bool) -> Result<WarmScript, ScriptError>
    ensures { Answers (lines_from whole 1 no_lines (parts_of text.now)) result }
{
    let mut draft = WarmDraft::new(alloc);
    let mut number: u64 = 1;
    let mut rest = text;
    while let Some((line, after)) = cut(rest, b'\n') {
        match add_text(alloc, &mut draft, line) {
            Ok(()) => {}
            Err(WordsError::NoMemory) => return Err(ScriptError::Memory),
            Err(WordsError::Malformed) => return Err(ScriptError::Bad(number)),
        }
        number += 1;
        rest = after;
    }
    if whole && rest.is_empty() {
        return draft.finish(number);
    }
    Err(ScriptError::Bad(number))
}

/// Reads a script of warm in one pass over its bytes: `script 1`, two `level` lines without policies, `hold` and `fail` lines, and
/// then `key TOKEN` lines, where the bytes of TOKEN are UTF-8 and need be no store key. There need be no key.
///
/// # Errors
///
/// `Bad` where the bytes are no such script, with the number of the first bad line. Without both levels it is the line behind the
/// last. The line that passes the greatest length of a script is bad, and so is a last one that doesn't end.
#[tactic(auto, unfolding(crate::specs::Texts::warm_said))]
pub fn read_warm(alloc: Global, bytes: &[u8]) -> Result<WarmScript, ScriptError>
    ensures { Answers (warm_said bytes.now) result }
{
    if bytes.len() <= MOST {
        return lines(alloc, bytes, true);
    }
    lines(alloc, &bytes[..MOST], false)
}
