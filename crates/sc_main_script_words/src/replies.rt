//! Replies as they are printed, a line each.
ghost use Rattle.std.specs.Prelude.{◌≡◌, ◌++◌, OnOk};
ghost use Rattle.sc_main_script_words.specs.Replies.{bytes_line, data_line, text_line, color_line, ending_words, output_words, finished_line, compile_line, path_line, raw_line, put_line, pre_line, pre_put_line, reply_line};

use crate::tokens::{put_optional, put_printed, put_token};
use sc_entry::{ByteText, GetPathResult, NoMemory, Text};
use sc_model::{ColorMode, CompileFinished, CompileResponse, Response};
use sc_words::put;
use std::alloc::Global;

fn put_bytes(out: &mut Vec<u8>, spaces: bool, name: &[u8], bytes: &[u8]) -> Result<(), NoMemory>
    ensures { OnOk result (out.new.items ≡ out.old.items ++ bytes_line spaces name.now bytes.now) }
{
    put(out, name)?;
    put(out, b" ")?;
    put_printed(out, spaces, bytes)?;
    put(out, b"\n")
}

fn put_data(out: &mut Vec<u8>, name: &[u8], bytes: &ByteText) -> Result<(), NoMemory>
    ensures { OnOk result (out.new.items ≡ out.old.items ++ data_line name.now bytes.now) }
{
    put_bytes(out, false, name, bytes.as_slice())
}

fn put_text(out: &mut Vec<u8>, name: &[u8], text: &Text) -> Result<(), NoMemory>
    ensures { OnOk result (out.new.items ≡ out.old.items ++ text_line name.now text.now) }
{
    put_bytes(out, true, name, text.as_bytes())
}

#[tactic(auto, unfolding(crate::specs::Replies::color_line))]
fn put_color(out: &mut Vec<u8>, mode: ColorMode) -> Result<(), NoMemory>
    ensures { OnOk result (out.new.items ≡ out.old.items ++ color_line mode) }
{
    match mode {
        ColorMode::Off => put(out, b"off\n"),
        ColorMode::On => put(out, b"on\n"),
        ColorMode::Auto => put(out, b"auto\n"),
    }
}

fn put_ending(alloc: Global, out: &mut Vec<u8>, finished: &CompileFinished) -> Result<(), NoMemory>
    ensures { OnOk result (out.new.items ≡ out.old.items ++ ending_words finished.now) }
{
    put_optional(alloc, out, finished.retcode)?;
    put(out, b" ")?;
    put_optional(alloc, out, finished.signal)?;
    put(out, b" ")
}

fn put_output(out: &mut Vec<u8>, finished: &CompileFinished) -> Result<(), NoMemory>
    ensures { OnOk result (out.new.items ≡ out.old.items ++ output_words finished.now) }
{
    put_token(out, finished.stdout.as_slice())?;
    put(out, b" ")?;
    put_token(out, finished.stderr.as_slice())?;
    put(out, b" ")
}

#[tactic(auto, unfolding(crate::specs::Replies::finished_line))]
fn put_finished(
    alloc: Global,
    out: &mut Vec<u8>,
    finished: &CompileFinished,
) -> Result<(), NoMemory>
    ensures { OnOk result (out.new.items ≡ out.old.items ++ finished_line finished.now) }
{
    put(out, b"finished ")?;
    put_ending(alloc, out, finished)?;
    put_output(out, finished)?;
    put_color(out, finished.color_mode)
}

#[tactic(auto, unfolding(crate::specs::Replies::compile_line))]
fn put_compile(out: &mut Vec<u8>, response: &CompileResponse) -> Result<(), NoMemory>
    ensures { OnOk result (out.new.items ≡ out.old.items ++ compile_line response.now) }
{
    match response {
        CompileResponse::CompileStarted => put(out, b"started\n"),
        CompileResponse::UnhandledCompile => put(out, b"unhandled\n"),
        CompileResponse::UnsupportedCompiler(message) => {
            put_bytes(out, true, b"unsupported", message.as_slice())
        }
    }
}

#[tactic(auto, unfolding(crate::specs::Replies::path_line))]
fn put_path(out: &mut Vec<u8>, found: &GetPathResult) -> Result<(), NoMemory>
    ensures { OnOk result (out.new.items ≡ out.old.items ++ path_line found.now) }
{
    match found {
        GetPathResult::Found(path) => put_data(out, b"path found", path),
        GetPathResult::Miss => put(out, b"path miss\n"),
        GetPathResult::Unsupported => put(out, b"path unsupported\n"),
    }
}

#[tactic(auto, unfolding(crate::specs::Replies::raw_line))]
fn put_raw(out: &mut Vec<u8>, found: &Option<ByteText>) -> Result<(), NoMemory>
    ensures { OnOk result (out.new.items ≡ out.old.items ++ raw_line found.now) }
{
    match found {
        None => put(out, b"raw none\n"),
        Some(bytes) => put_data(out, b"raw", bytes),
    }
}

#[tactic(auto, unfolding(crate::specs::Replies::put_line))]
fn put_stored(out: &mut Vec<u8>, answer: &Result<(), Text>) -> Result<(), NoMemory>
    ensures { OnOk result (out.new.items ≡ out.old.items ++ put_line answer.now) }
{
    match answer {
        Ok(()) => put(out, b"put ok\n"),
        Err(text) => put_text(out, b"put err", text),
    }
}

#[tactic(auto, unfolding(crate::specs::Replies::pre_line))]
fn put_pre(out: &mut Vec<u8>, found: &Result<Option<ByteText>, Text>) -> Result<(), NoMemory>
    ensures { OnOk result (out.new.items ≡ out.old.items ++ pre_line found.now) }
{
    match found {
        Ok(None) => put(out, b"pre none\n"),
        Ok(Some(bytes)) => put_data(out, b"pre", bytes),
        Err(text) => put_text(out, b"pre err", text),
    }
}

#[tactic(auto, unfolding(crate::specs::Replies::pre_put_line))]
fn put_pre_stored(out: &mut Vec<u8>, answer: &Result<(), Text>) -> Result<(), NoMemory>
    ensures { OnOk result (out.new.items ≡ out.old.items ++ pre_put_line answer.now) }
{
    match answer {
        Ok(()) => put(out, b"pre-put ok\n"),
        Err(text) => put_text(out, b"pre-put err", text),
    }
}

/// Appends a reply's line, with its line feed.
#[tactic(auto, unfolding(crate::specs::Replies::reply_line))]
pub fn put_reply(alloc: Global, out: &mut Vec<u8>, reply: &Response) -> Result<(), NoMemory>
    ensures { OnOk result (out.new.items ≡ out.old.items ++ reply_line reply.now) }
{
    match reply {
        Response::Compile(response) => put_compile(out, response),
        Response::ZeroStats => put(out, b"zero-stats\n"),
        Response::Stats(_) => put(out, b"stats\n"),
        Response::DistStatus(_) => put(out, b"dist-status\n"),
        Response::ShuttingDown(_) => put(out, b"shutting-down\n"),
        Response::CompileFinished(finished) => put_finished(alloc, out, finished),
        Response::StorageHandshake(_) => put(out, b"handshake\n"),
        Response::StorageGetPath(found) => put_path(out, found),
        Response::StorageGetRaw(found) => put_raw(out, found),
        Response::StoragePutRaw(answer) => put_stored(out, answer),
        Response::StorageGetPreprocessorEntry(found) => put_pre(out, found),
        Response::StoragePutPreprocessorEntry(answer) => put_pre_stored(out, answer),
        Response::RecordStats => put(out, b"recorded\n"),
        Response::ArtifactNotification(bytes) => put_data(out, b"note", bytes),
    }
}
