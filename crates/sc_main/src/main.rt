//! The program. `run` does what its words say, over any streams; `main` gives it the process's own words, streams and exit code.
#![tactic(auto)]

mod accepting;
mod after_accept;
mod answering;
mod input_reports;
mod link_end;
mod printing;
mod running;
mod scripted;
mod serve_command;
mod serve_error;
mod serving;
#[cfg(test)]
mod tests;
mod warm_lines;
mod warming;
mod words;

ghost use Rattle.std.specs.Prelude.{◌≡◌, drop};

use crate::running::{run, told};
use crate::words::read_words;
use sc_entry::ByteText;
use sc_host::{ReaderSource, WriterSink};
use sc_host_outside::HostOutside;
use sc_main_report::{Ended, exit_code};
use std::io::IsTerminal;
use std::process::ExitCode;

/// The words behind the program's name.
fn behind_name(words: &[ByteText]) -> &[ByteText]
    ensures { result.now ≡ drop 1 words.now }
{
    if words.is_empty() { words } else { &words[1..] }
}

fn main(rt: HostRuntime) -> ExitCode {
    let alloc = rt.alloc();
    let mut input = ReaderSource::new(rt.stdin());
    let mut out = WriterSink::new(rt.stdout());
    let mut err = WriterSink::new(rt.stderr());
    let (is_out_terminal, is_err_terminal) = (rt.stdout().is_terminal(), rt.stderr().is_terminal());
    let mut outside = HostOutside::new(rt, is_out_terminal, is_err_terminal);
    let ended = match read_words(alloc, &rt) {
        Ok(words) => run(
            behind_name(&words),
            &mut input,
            &mut out,
            &mut err,
            &mut outside,
        ),
        Err(_) => told(alloc, &mut err, Ended::NoMemory),
    };
    ExitCode::from(exit_code(&ended))
}
