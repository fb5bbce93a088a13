//! The arguments of a plain compiler.

ghost use Rattle.std.specs.Prelude.{◌≡◌, ◌++◌, ◌∷◌, [], IfOk, length, string_bytes, List, ℕ, false};
ghost use Rattle.std.specs.Option.{option_map};
ghost use Rattle.std.specs.Str.{is_utf8};
ghost use Rattle.sc_compile.specs.Plain.{arguments_of, is_optional, is_new_name, output_of, outputs_onto};
ghost use Rattle.sc_compile.specs.Names.{HasNames};
ghost use Rattle.sc_model.specs.GoodNames.{is_output_name};
ghost use Rattle.sc_words.specs.Words.{Means, MeansBy, Reads, only_if};

use sc_entry::{ByteText, FileObjectSource, Items, Text};
use sc_model::is_stream;
use sc_words::{Words, WordsError, cut};
use std::alloc::Global;
use std::collections::BTreeSet;
use std::marker::Model;

/// What the words of a compile say.
#[derive(Drop)]
pub struct Arguments<'a> {
    pub key: Text,
    /// Whether the source is preprocessed here.
    pub locally_preprocessed: bool,
    /// Whether a run may be stored.
    pub cacheable: bool,
    /// The outputs, each with its path as it was given.
    pub outputs: Items<FileObjectSource>,
    /// The words for the compiler.
    pub words: &'a [ByteText],
}

impl<'a> Model for Arguments<'a> {
    ghost use Rattle.sc_compile.specs.Plain.{PlainArguments};

    ghost Value = { PlainArguments };

    ghost view = { λ a. record { key = a.key; locally_preprocessed = a.locally_preprocessed; cacheable = a.cacheable; outputs = a.outputs; words = a.words.now } };
}

/// The bytes as text, where they are UTF-8.
pub fn text_of(bytes: &[u8]) -> Option<&str>
    ensures { option_map (λ t. t.now) result ≡ only_if (is_utf8 bytes.now) bytes.now }
{
    match std::str::from_utf8(bytes) {
        Ok(text) => Some(text),
        Err(_) => None,
    }
}

/// The bytes as the name of an output.
fn output_name(bytes: &[u8]) -> Option<&str>
    ensures { option_map (λ t. t.now) result ≡ only_if (is_output_name bytes.now) bytes.now }
{
    if bytes.is_empty() || bytes.len() > 65535 || is_stream(bytes) {
        return None;
    }
    match text_of(bytes) {
        Some(name) => Some(name),
        None => None,
    }
}

/// The bytes as the name of one more output, behind some outputs with these names.
fn new_name<'a>(
    outputs: &Items<FileObjectSource>,
    names: &BTreeSet<String>,
    bytes: &'a [u8],
) -> Result<&'a str, WordsError>
    requires { HasNames outputs.now names.now }
    ensures { MeansBy (λ t. t.now) (only_if (is_new_name outputs.now bytes.now) bytes.now) result }
{
    let Some(name) = output_name(bytes) else {
        return Err(WordsError::Malformed);
    };
    if names.contains(name) || outputs.len() >= 65532 {
        return Err(WordsError::Malformed);
    }
    Ok(name)
}

/// One more output, and its name among those before.
fn output(
    alloc: Global,
    optional: bool,
    outputs: &Items<FileObjectSource>,
    names: &mut BTreeSet<String>,
    word: &[u8],
) -> Result<FileObjectSource, WordsError>
    requires { HasNames outputs.now names.old }
    ensures value { Means (output_of optional outputs.now word.now) result }
    ensures named { IfOk result (λ o. HasNames (outputs.now ++ o ∷ []) names.new) }
{
    let Some((name, path)) = cut(word, b'=') else {
        return Err(WordsError::Malformed);
    };
    let name = new_name(outputs, names, name)?;
    let key = Text::from_str(alloc, name)?;
    let path = ByteText::from_slice(alloc, path)?;
    names.insert(String::from_str(alloc, name)?)?;
    Ok(FileObjectSource {
        key,
        path,
        optional,
    })
}

/// Whether the output behind a word is an optional one; none where no output follows. Behind an optional one stands no
/// required one.
fn is_optional(before: bool, word: &[u8]) -> Option<bool>
    ensures { result ≡ is_optional before word.now }
{
    if word == b"--opt".as_slice() {
        return Some(true);
    }
    if !before && word == b"--out".as_slice() {
        return Some(false);
    }
    None
}

/// The outputs, up to the word `--`, which is taken too.
fn outputs(alloc: Global, words: &mut Words<'_>) -> Result<Items<FileObjectSource>, WordsError>
    ensures { Reads (outputs_onto false [] words.old) result words.new }
{
    let mut outputs = Items::new(alloc);
    let mut names = BTreeSet::new(alloc);
    let mut optional = false;
    while let Some(word) = words.next() {
        if word.as_slice() == b"--".as_slice() {
            return Ok(outputs);
        }
        let Some(next) = is_optional(optional, word.as_slice()) else {
            return Err(WordsError::Malformed);
        };
        optional = next;
        let pair = words.word()?;
        outputs.push(output(alloc, optional, &outputs, &mut names, pair.as_slice())?)?;
    }
    Err(WordsError::Malformed)
}

/// What stands behind the first word.
#[tactic(auto, unfolding(crate::specs::Plain::arguments_of))]
pub fn read_arguments<'a>(alloc: Global, words: &'a [ByteText]) -> Result<Arguments<'a>, WordsError>
    ensures { Means (arguments_of words.now) result }
{
    let mut words = Words::new(words);
    let word = words.word()?;
    let Some(key) = text_of(word.as_slice()) else {
        return Err(WordsError::Malformed);
    };
    let key = Text::from_str(alloc, key)?;
    let dep = words.take(b"--dep");
    let unstored = words.take(b"--no-store");
    let outputs = outputs(alloc, &mut words)?;
    Ok(Arguments {
        key,
        locally_preprocessed: !dep,
        cacheable: !unstored,
        outputs,
        words: words.rest(),
    })
}
