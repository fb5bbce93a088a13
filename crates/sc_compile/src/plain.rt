//! The plain compiler: its words name its key and its outputs.

ghost use Rattle.std.specs.Prelude.{◌≡◌, ◌==◌, ◌-◌, ◌∷◌, [], IfOk, length, map, slice_index_or, ℕ, List};
ghost use Rattle.sc_compile.specs.Commands.{plain_command};
ghost use Rattle.sc_compile.specs.Plain.{arguments, arguments_of, as_folder, bad_arguments, cannot_of, first_of, first_path, joined, language_in, placed_in, plain_key, plain_parsed, plain_pretty, words_for};
ghost use Rattle.sc_model.specs.Notes.{is_note};

use crate::arguments::{Arguments, read_arguments, text_of};
use crate::first_word::FirstWord;
use sc_entry::{ByteText, FileObjectSource, Items, NoMemory, Text};
use sc_model::{
    Compile, CompilerKind, KeyFound, Language, Parsed, SingleCompileCommand, Task, is_notification,
};
use sc_words::WordsError;
use std::alloc::Global;

/// A compiler whose words name its key and its outputs: `--key KEY [--dep] [--no-store] [--out NAME=PATH]..
/// [--opt NAME=PATH].. -- WORDS`, in this order. `--dep` says that the source isn't preprocessed here, `--no-store` that
/// no run is to be stored; each `--out` is a required output, each `--opt` an optional one. The words `--cannot WHY
/// [EXTRA]` say that it can't be cached, and why.
#[derive(Clone, Copy)]
pub struct PlainCompiler;

fn first_word(word: &[u8]) -> FirstWord
    ensures { result ≡ first_of word.now }
{
    if word == b"--key".as_slice() {
        return FirstWord::Key;
    }
    if word == b"--cannot".as_slice() {
        return FirstWord::Cannot;
    }
    FirstWord::Other
}

fn bad_arguments(alloc: Global) -> Result<Parsed, NoMemory>
    ensures { IfOk result (λ p. p ≡ bad_arguments) }
{
    let why = Text::from_str(alloc, "bad arguments")?;
    Ok(Parsed::CannotCache(why, None))
}

/// A compile that can't be cached for a reason, which is malformed where it is no text.
fn cannot_for(alloc: Global, why: &ByteText) -> Result<Parsed, NoMemory>
    ensures { IfOk result (λ p. p ≡ cannot_of (why.now ∷ [])) }
{
    let Some(why) = text_of(why.as_slice()) else {
        return bad_arguments(alloc);
    };
    let why = Text::from_str(alloc, why)?;
    Ok(Parsed::CannotCache(why, None))
}

/// The same with what stands beside the reason.
fn cannot_with(alloc: Global, why: &ByteText, extra: &ByteText) -> Result<Parsed, NoMemory>
    ensures { IfOk result (λ p. p ≡ cannot_of (why.now ∷ extra.now ∷ [])) }
{
    let Some(why) = text_of(why.as_slice()) else {
        return bad_arguments(alloc);
    };
    let Some(extra) = text_of(extra.as_slice()) else {
        return bad_arguments(alloc);
    };
    let why = Text::from_str(alloc, why)?;
    let extra = Text::from_str(alloc, extra)?;
    Ok(Parsed::CannotCache(why, Some(extra)))
}

/// Why a compile can't be cached, by the words behind the first.
fn cannot_cache(alloc: Global, words: &[ByteText]) -> Result<Parsed, NoMemory>
    ensures { IfOk result (λ p. p ≡ cannot_of words.now) }
{
    match words {
        [why] => cannot_for(alloc, why),
        [why, extra] => cannot_with(alloc, why, extra),
        _ => bad_arguments(alloc),
    }
}

/// The language of the first word that has a known one, else C.
fn language_in(words: &[ByteText]) -> Language
    ensures { result ≡ language_in words.now }
{
    let mut left = words;
    while let [word, rest @ ..] = left {
        if let Some(language) = Language::from_file_name(word.as_slice()) {
            return language;
        }
        left = rest;
    }
    Language::C
}

/// What stands behind the first word, where it is well formed.
fn good_arguments<'a>(
    alloc: Global,
    words: &'a [ByteText],
) -> Result<Option<Arguments<'a>>, NoMemory>
    ensures { IfOk result (λ a. a ≡ arguments_of words.now) }
{
    match read_arguments(alloc, words) {
        Ok(read) => Ok(Some(read)),
        Err(WordsError::Malformed) => Ok(None),
        Err(WordsError::NoMemory) => Err(NoMemory),
    }
}

/// The arguments of a compile, where its words have some.
fn arguments_in<'a>(alloc: Global, words: &'a [ByteText]) -> Result<Option<Arguments<'a>>, NoMemory>
    ensures { IfOk result (λ a. a ≡ arguments words.now) }
{
    let [first, rest @ ..] = words else {
        return Ok(None);
    };
    match first_word(first.as_slice()) {
        FirstWord::Key => good_arguments(alloc, rest),
        FirstWord::Cannot => Ok(None),
        FirstWord::Other => Ok(None),
    }
}

fn begins_with_slash(path: &[u8]) -> bool
    ensures { result ≡ (slice_index_or path.now 0 0 == 47) }
{
    !path.is_empty() && path[0] == b'/'
}

/// Whether a name can follow a folder's path at once.
fn is_folder(cwd: &[u8]) -> bool
    ensures { result ≡ (slice_index_or cwd.now (length cwd.now - 1) 47 == 47) }
{
    cwd.is_empty() || cwd[cwd.len() - 1] == b'/'
}

/// The path, in the folder where it does not begin with a slash.
fn join(alloc: Global, cwd: &[u8], path: ByteText) -> Result<ByteText, NoMemory>
    ensures { IfOk result (λ p. p ≡ joined cwd.now path) }
{
    if begins_with_slash(path.as_slice()) {
        return Ok(path);
    }
    let mut joined = ByteText::from_slice(alloc, cwd)?;
    if !is_folder(cwd) {
        joined.push(b'/')?;
    }
    joined.append(path.as_slice())?;
    Ok(joined)
}

fn place(alloc: Global, cwd: &[u8], output: FileObjectSource) -> Result<FileObjectSource, NoMemory>
    ensures { IfOk result (λ o. o ≡ placed_in cwd.now output) }
{
    let FileObjectSource {
        key,
        path,
        optional,
    } = output;
    let path = join(alloc, cwd, path)?;
    Ok(FileObjectSource {
        key,
        path,
        optional,
    })
}

/// The outputs, their paths joined to the folder.
fn place_all(
    alloc: Global,
    cwd: &[u8],
    outputs: Items<FileObjectSource>,
) -> Result<Items<FileObjectSource>, NoMemory>
    ensures { IfOk result (λ os. os ≡ map (placed_in cwd.now) outputs) }
{
    let mut placed = Items::new(alloc);
    for output in outputs.into_vec() {
        placed.push(place(alloc, cwd, output)?)?;
    }
    Ok(placed)
}

fn copied_words(
    alloc: Global,
    arguments: Option<Arguments<'_>>,
) -> Result<Items<ByteText>, NoMemory>
    ensures { IfOk result (λ ws. ws ≡ words_for arguments.entry) }
{
    let Some(arguments) = arguments else {
        return Ok(Items::new(alloc));
    };
    let words = arguments.words.to_vec(alloc)?;
    Ok(Items::from_vec(words))
}

fn copied_path(alloc: Global, outputs: &[FileObjectSource]) -> Result<ByteText, NoMemory>
    ensures { IfOk result (λ p. p ≡ first_path outputs.now) }
{
    match outputs {
        [] => Ok(ByteText::new(alloc)),
        [first, ..] => first.path.try_clone(),
    }
}

impl PlainCompiler {
    /// What a compile's words say, read by a compiler of this kind. Its language is that of the first word behind `--` that
    /// names a file of a known one, else C.
    pub fn parse(alloc: Global, kind: CompilerKind, request: &Compile) -> Result<Parsed, NoMemory>
        ensures { IfOk result (λ p. p ≡ plain_parsed kind request.now) }
    {
        let [first, rest @ ..] = request.args.as_slice() else {
            return Ok(Parsed::NotCompile);
        };
        match first_word(first.as_slice()) {
            FirstWord::Key => match good_arguments(alloc, rest)? {
                None => bad_arguments(alloc),
                Some(arguments) => Ok(Parsed::Started(Task {
                    kind,
                    language: language_in(arguments.words),
                })),
            },
            FirstWord::Cannot => cannot_cache(alloc, rest),
            FirstWord::Other => Ok(Parsed::NotCompile),
        }
    }

    /// The key that a compile's words name, and its outputs, their paths joined to its folder. Where the words are no
    /// good arguments, the key is empty and there is no output.
    pub fn key(alloc: Global, request: &Compile) -> Result<KeyFound, NoMemory>
        ensures { IfOk result (λ k. k ≡ plain_key request.now) }
    {
        let Some(arguments) = arguments_in(alloc, request.args.as_slice())? else {
            return Ok(KeyFound {
                key: Text::new(alloc),
                outputs: Items::new(alloc),
                locally_preprocessed: true,
                cacheable: true,
            });
        };
        let outputs = place_all(alloc, request.cwd.as_slice(), arguments.outputs)?;
        Ok(KeyFound {
            key: arguments.key,
            outputs,
            locally_preprocessed: arguments.locally_preprocessed,
            cacheable: arguments.cacheable,
        })
    }

    /// What the compiler is run with: the asked path, the words behind `--`, the request's variables and folder.
    pub fn command(alloc: Global, request: &Compile) -> Result<SingleCompileCommand, NoMemory>
        ensures { IfOk result (λ c. c ≡ plain_command request.now) }
    {
        let arguments = arguments_in(alloc, request.args.as_slice())?;
        let arguments = copied_words(alloc, arguments)?;
        Ok(SingleCompileCommand {
            executable: request.exe.try_clone()?,
            arguments,
            env_vars: request.env_vars.clone()?,
            cwd: request.cwd.try_clone()?,
            share_jobserver: false,
        })
    }

    /// The first output's path as it was given, or nothing.
    pub fn pretty(alloc: Global, request: &Compile) -> Result<ByteText, NoMemory>
        ensures { IfOk result (λ p. p ≡ plain_pretty request.now) }
    {
        let Some(arguments) = arguments_in(alloc, request.args.as_slice())? else {
            return Ok(ByteText::new(alloc));
        };
        copied_path(alloc, arguments.outputs.as_slice())
    }

    /// Whether a line of standard error, without its line feed, is a notification: it begins with `note:`.
    pub fn is_notification(line: &[u8]) -> bool
        ensures { result ≡ is_note line.now }
    {
        is_notification(line)
    }
}
