//! Lines of uses, kind by kind.
ghost use Rattle.sc_main_dry.specs.Lines.{get_words, put_words, use_of_words, use_words};
ghost use Rattle.sc_words.specs.Words.{Means, Reads};

use sc_entry::Text;
use sc_lru::Use;
use sc_main_script_words::{number, text_token};
use sc_words::{LineWords, WordsError};
use std::alloc::Global;

#[tactic(auto, unfolding(crate::specs::Lines::get_words))]
fn get_words(alloc: Global, words: &mut LineWords<'_>) -> Result<Use<Text>, WordsError>
    ensures { Reads (get_words words.old) result words.new }
{
    let key = text_token(alloc, words.word()?)?;
    Ok(Use::Get(key))
}

#[tactic(auto, unfolding(crate::specs::Lines::put_words))]
fn put_words(alloc: Global, words: &mut LineWords<'_>) -> Result<Use<Text>, WordsError>
    ensures { Reads (put_words words.old) result words.new }
{
    let key = text_token(alloc, words.word()?)?;
    let bytes = number(words.word()?)?;
    Ok(Use::Put(key, bytes))
}

/// What stands behind a line's first word.
#[tactic(auto, unfolding(crate::specs::Lines::use_words))]
fn use_words(
    alloc: Global,
    first: &[u8],
    words: &mut LineWords<'_>,
) -> Result<Use<Text>, WordsError>
    ensures { Reads (use_words first.now words.old) result words.new }
{
    if first == b"get".as_slice() {
        return get_words(alloc, words);
    }
    if first == b"put".as_slice() {
        return put_words(alloc, words);
    }
    Err(WordsError::Malformed)
}

/// The use that all the words of a line are.
///
/// # Errors
///
/// `Malformed` where they are none.
#[tactic(auto, unfolding(crate::specs::Lines::use_of_words))]
pub fn use_at(alloc: Global, words: &mut LineWords<'_>) -> Result<Use<Text>, WordsError>
    ensures { Means (use_of_words words.old) result }
{
    let first = words.word()?;
    let one = use_words(alloc, first, words)?;
    match words.next() {
        None => Ok(one),
        Some(_) => Err(WordsError::Malformed),
    }
}
