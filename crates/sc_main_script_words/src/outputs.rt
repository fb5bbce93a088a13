//! What a process left, and why something failed.
ghost use Rattle.std.specs.Prelude.{◌≡◌, ◌∷◌, []};
ghost use Rattle.sc_main_script_words.specs.Outputs.{output_words, texts_onto, chain_words, objects_onto, no_names, is_new_object};
ghost use Rattle.sc_words.specs.Words.{Reads};

use crate::fields::{object, status, text_token, token};
use sc_entry::{Counts, Items, Object, Text};
use sc_model::Output;
use sc_words::{LineWords, WordsError};
use std::alloc::Global;

fn is_new_object(sofar: &[Object], names: &Counts, object: &Object) -> bool
    ensures { result ≡ is_new_object sofar.now names.now object.now }
{
    sofar.len() < 65532 && names.get(&object.name) == 0
}

/// The objects that all words left are, at most 65,532, whose names are distinct.
///
/// # Errors
///
/// `Malformed` where a word is no object, or one too many, or names one twice.
pub fn objects(alloc: Global, words: &mut LineWords<'_>) -> Result<Items<Object>, WordsError>
    ensures { Reads (objects_onto [] no_names words.old) result words.new }
{
    let mut items = Items::new(alloc);
    let mut names = Counts::new(alloc);
    while let Some(word) = words.next() {
        let object = object(alloc, word)?;
        if !is_new_object(items.as_slice(), &names, &object) {
            return Err(WordsError::Malformed);
        }
        names.add(&object.name, 1)?;
        items.push(object)?;
    }
    Ok(items)
}

/// What a process wrote, and how it ended: a status and two tokens.
///
/// # Errors
///
/// `Malformed` where the next three words are not such.
#[tactic(auto, unfolding(crate::specs::Outputs::output_words))]
pub fn output_words(alloc: Global, words: &mut LineWords<'_>) -> Result<Output, WordsError>
    ensures { Reads (output_words words.old) result words.new }
{
    let status = status(words.word()?)?;
    let stdout = token(alloc, words.word()?)?;
    let stderr = token(alloc, words.word()?)?;
    Ok(Output {
        status,
        stdout,
        stderr,
    })
}

/// The texts of all words that are left, behind a first one.
fn texts(alloc: Global, first: Text, words: &mut LineWords<'_>) -> Result<Items<Text>, WordsError>
    ensures { Reads (texts_onto (first ∷ []) words.old) result words.new }
{
    let mut texts = Items::new(alloc);
    texts.push(first)?;
    while let Some(word) = words.next() {
        texts.push(text_token(alloc, word)?)?;
    }
    Ok(texts)
}

/// A chain of texts, of all words that are left.
///
/// # Errors
///
/// `Malformed` where no word is left, or one is no text.
#[tactic(auto, unfolding(crate::specs::Outputs::chain_words))]
pub fn chain_words(alloc: Global, words: &mut LineWords<'_>) -> Result<Items<Text>, WordsError>
    ensures { Reads (chain_words words.old) result words.new }
{
    let first = text_token(alloc, words.word()?)?;
    texts(alloc, first, words)
}
