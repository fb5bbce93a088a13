//! Reads uses line by line.
ghost use Rattle.std.specs.Prelude.{[]};
ghost use Rattle.sc_main_dry.specs.Texts.{Answers, lines_from, uses_said, with_line};
ghost use Rattle.sc_main_script.specs.Parts.{parts_of};
ghost use Rattle.sc_words.specs.Words.{Leaves};

use crate::lines::use_at;
use sc_entry::{Items, Text};
use sc_lru::Use;
use sc_main_script::ScriptError;
use sc_words::{LineWords, WordsError, cut};
use std::alloc::Global;

/// Uses in their order, as a text said them.
pub type Uses = Items<Use<Text>>;

/// The most bytes that a text of uses may have, as many as a script.
const MOST: usize = 67_108_864;

/// Adds the use of a line.
#[tactic(auto, unfolding(crate::specs::Texts::with_line))]
fn add_line(alloc: Global, uses: &mut Uses, line: &[u8]) -> Result<(), WordsError>
    ensures { Leaves (with_line uses.old line.now) result uses.new }
{
    let mut words = LineWords::new(line);
    let one = use_at(alloc, &mut words)?;
    uses.push(one)?;
    Ok(())
}

/// Reads the lines of a text, which may have been cut off.
fn lines(alloc: Global, text: &[u8], whole: bool) -> Result<Uses, ScriptError>
    ensures { Answers (lines_from whole 1 [] (parts_of text.now)) result }
{
    let mut uses = Items::new(alloc);
    let mut number: u64 = 1;
    let mut rest = text;
    while let Some((line, after)) = cut(rest, b'\n') {
        match add_line(alloc, &mut uses, line) {
            Ok(()) => {}
            Err(WordsError::NoMemory) => return Err(ScriptError::Memory),
            Err(WordsError::Malformed) => return Err(ScriptError::Bad(number)),
        }
        number += 1;
        rest = after;
    }
    if whole && rest.is_empty() {
        return Ok(uses);
    }
    Err(ScriptError::Bad(number))
}

/// Reads uses in one pass over their text: each line is `get KEY` or `put KEY SIZE`, where KEY is a token whose bytes are UTF-8 and
/// SIZE a number of bytes. No bytes are no uses.
///
/// # Errors
///
/// `Bad` where the bytes are no such lines, with the number of the first bad one. The line that passes the greatest length of a
/// script is bad, and so is a last one that doesn't end.
#[tactic(auto, unfolding(crate::specs::Texts::uses_said))]
pub fn read_uses(alloc: Global, bytes: &[u8]) -> Result<Uses, ScriptError>
    ensures { Answers (uses_said bytes.now) result }
{
    if bytes.len() <= MOST {
        return lines(alloc, bytes, true);
    }
    lines(alloc, &bytes[..MOST], false)
}
