//! The requests that a line may ask.
ghost use Rattle.std.specs.Prelude.{◌≡◌, []};
ghost use Rattle.sc_words.specs.Words.{Means, Reads};
ghost use Rattle.sc_main_script_words.specs.Requests.{tokens_onto, variables_onto, compile_request, get_path_request, get_pre_request, get_raw_request, put_pre_request, put_raw_request, request_kind, request_body, request_words};

use crate::fields::{text_token, token, variable};
use crate::records::record_request;
use sc_entry::{ByteText, Items};
use sc_model::{Compile, Request, Variable};
use sc_words::{LineWords, WordsError};
use std::alloc::Global;

/// The kinds of requests.
#[derive(Clone, Copy)]
pub enum RequestKind {
    Compile,
    GetPath,
    GetRaw,
    PutRaw,
    GetPre,
    PutPre,
    ZeroStats,
    GetStats,
    Handshake,
    DistStatus,
    Record,
    Shutdown,
}

fn tokens(alloc: Global, words: &mut LineWords<'_>) -> Result<Items<ByteText>, WordsError>
    ensures { Reads (tokens_onto [] words.old) result words.new }
{
    let mut items = Items::new(alloc);
    while let Some(word) = words.next() {
        items.push(token(alloc, word)?)?;
    }
    Ok(items)
}

fn variables(alloc: Global, words: &mut LineWords<'_>) -> Result<Items<Variable>, WordsError>
    ensures { Reads (variables_onto [] words.old) result words.new }
{
    let mut items = Items::new(alloc);
    while let Some(word) = words.next() {
        if word == b"--".as_slice() {
            return Ok(items);
        }
        items.push(variable(alloc, word)?)?;
    }
    Err(WordsError::Malformed)
}

#[tactic(auto, unfolding(crate::specs::Requests::compile_request))]
fn compile_request(alloc: Global, words: &mut LineWords<'_>) -> Result<Request, WordsError>
    ensures { Reads (compile_request words.old) result words.new }
{
    let exe = token(alloc, words.word()?)?;
    let cwd = token(alloc, words.word()?)?;
    let env_vars = variables(alloc, words)?;
    let args = tokens(alloc, words)?;
    Ok(Request::Compile(Compile {
        exe,
        cwd,
        args,
        env_vars,
    }))
}

#[tactic(auto, unfolding(crate::specs::Requests::get_path_request))]
fn get_path_request(alloc: Global, words: &mut LineWords<'_>) -> Result<Request, WordsError>
    ensures { Reads (get_path_request words.old) result words.new }
{
    let key = text_token(alloc, words.word()?)?;
    Ok(Request::StorageGetPath(key))
}

#[tactic(auto, unfolding(crate::specs::Requests::get_raw_request))]
fn get_raw_request(alloc: Global, words: &mut LineWords<'_>) -> Result<Request, WordsError>
    ensures { Reads (get_raw_request words.old) result words.new }
{
    let key = text_token(alloc, words.word()?)?;
    Ok(Request::StorageGetRaw(key))
}

#[tactic(auto, unfolding(crate::specs::Requests::put_raw_request))]
fn put_raw_request(alloc: Global, words: &mut LineWords<'_>) -> Result<Request, WordsError>
    ensures { Reads (put_raw_request words.old) result words.new }
{
    let key = text_token(alloc, words.word()?)?;
    let bytes = token(alloc, words.word()?)?;
    Ok(Request::StoragePutRaw(key, bytes))
}

#[tactic(auto, unfolding(crate::specs::Requests::get_pre_request))]
fn get_pre_request(alloc: Global, words: &mut LineWords<'_>) -> Result<Request, WordsError>
    ensures { Reads (get_pre_request words.old) result words.new }
{
    let key = text_token(alloc, words.word()?)?;
    Ok(Request::StorageGetPreprocessorEntry(key))
}

#[tactic(auto, unfolding(crate::specs::Requests::put_pre_request))]
fn put_pre_request(alloc: Global, words: &mut LineWords<'_>) -> Result<Request, WordsError>
    ensures { Reads (put_pre_request words.old) result words.new }
{
    let key = text_token(alloc, words.word()?)?;
    let bytes = token(alloc, words.word()?)?;
    Ok(Request::StoragePutPreprocessorEntry(key, bytes))
}

#[tactic(auto, unfolding(crate::specs::Requests::request_kind))]
fn request_kind(word: &[u8]) -> Result<RequestKind, WordsError>
    ensures { Means (request_kind word.now) result }
{
    if word == b"compile".as_slice() {
        return Ok(RequestKind::Compile);
    }
    if word == b"get-path".as_slice() {
        return Ok(RequestKind::GetPath);
    }
    if word == b"get-raw".as_slice() {
        return Ok(RequestKind::GetRaw);
    }
    if word == b"put-raw".as_slice() {
        return Ok(RequestKind::PutRaw);
    }
    if word == b"get-pre".as_slice() {
        return Ok(RequestKind::GetPre);
    }
    if word == b"put-pre".as_slice() {
        return Ok(RequestKind::PutPre);
    }
    if word == b"zero-stats".as_slice() {
        return Ok(RequestKind::ZeroStats);
    }
    if word == b"get-stats".as_slice() {
        return Ok(RequestKind::GetStats);
    }
    if word == b"handshake".as_slice() {
        return Ok(RequestKind::Handshake);
    }
    if word == b"dist-status".as_slice() {
        return Ok(RequestKind::DistStatus);
    }
    if word == b"record".as_slice() {
        return Ok(RequestKind::Record);
    }
    if word == b"shutdown".as_slice() {
        return Ok(RequestKind::Shutdown);
    }
    Err(WordsError::Malformed)
}

#[tactic(auto, unfolding(crate::specs::Requests::request_body))]
fn request_body(
    alloc: Global,
    kind: RequestKind,
    words: &mut LineWords<'_>,
) -> Result<Request, WordsError>
    ensures { Reads (request_body kind words.old) result words.new }
{
    match kind {
        RequestKind::Compile => compile_request(alloc, words),
        RequestKind::GetPath => get_path_request(alloc, words),
        RequestKind::GetRaw => get_raw_request(alloc, words),
        RequestKind::PutRaw => put_raw_request(alloc, words),
        RequestKind::GetPre => get_pre_request(alloc, words),
        RequestKind::PutPre => put_pre_request(alloc, words),
        RequestKind::ZeroStats => Ok(Request::ZeroStats),
        RequestKind::GetStats => Ok(Request::GetStats),
        RequestKind::Handshake => Ok(Request::StorageHandshake),
        RequestKind::DistStatus => Ok(Request::DistStatus),
        RequestKind::Record => record_request(alloc, words),
        RequestKind::Shutdown => Ok(Request::Shutdown),
    }
}

/// The request that the words left of a line are. Words may be left behind those of a kind that needs no more.
///
/// # Errors
///
/// `Malformed` where they begin no request.
#[tactic(auto, unfolding(crate::specs::Requests::request_words))]
pub fn request_words(alloc: Global, words: &mut LineWords<'_>) -> Result<Request, WordsError>
    ensures { Reads (request_words words.old) result words.new }
{
    let kind = request_kind(words.word()?)?;
    let request = request_body(alloc, kind, words)?;
    Ok(request)
}
