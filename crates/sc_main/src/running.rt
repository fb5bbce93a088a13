//! What the program does, by its words.
ghost use Rattle.std.specs.Prelude.{◌≡◌, ◌≤◌, Ok, Result};
ghost use Rattle.sc_client.specs.Conversations.{beginning};
ghost use Rattle.sc_client.specs.Local.{KeepsPlan, Ran, RunsOne};
ghost use Rattle.sc_entry.specs.Causes.{Rose, Told};
ghost use Rattle.sc_entry.specs.Streams.{ReadsToEnd, WritesAll};
ghost use Rattle.sc_main.specs.Platform.{stage};
ghost use Rattle.sc_main.specs.Runs.{Does, DriveEnds, DroveDrawn, LeavesOut, Runs, TellsEnd, unread_end};
ghost use Rattle.sc_main.specs.Serving.{wire};
ghost use Rattle.sc_main_client.specs.Ending.{TextEnds};
ghost use Rattle.sc_main_report.specs.Words.{version_line};
ghost use Rattle.sc_main_report.specs.declared.ended.Ended.TheVariants as ended;
ghost use Rattle.sc_main_words.specs.Commands.{IsWithinLimits, command_of};
ghost use Rattle.sc_main_words.specs.Parses.{Parses};
ghost use Rattle.sc_main_words.specs.Texts.{help_lines};
ghost use Rattle.sc_main_words.specs.declared.command.Command.{Command as Read};
ghost use Rattle.sc_main_words.specs.declared.refusal.WordsRefusal.{WordsRefusal as Unread};

use crate::input_reports::{MOST, run_dry, run_warm, write_text};
use crate::scripted::{drive_number, drive_script};
use crate::serve_command::run_serve;
use sc_command::CommandCreator;
use sc_entry::{ByteText, ReadError, Sink, Source, WriteError, read_to_end, write_all};
use sc_main_client::{run_compile, run_dist_status, run_stats, run_stop, run_zero};
use sc_main_outside::Outside;
use sc_main_report::{Ended, put_error, put_version};
use sc_main_script::ScriptError;
use sc_main_words::{Command, WordsRefusal, parse_words, put_help};
use std::alloc::Global;

/// Reads a script, drives a daemon by it, and writes the report.
fn run_drive<S: Source, O: Sink>(alloc: Global, input: &mut S, out: &mut O) -> Ended
    ensures untouched { LeavesOut result out.old out.new }
    ensures ends { DriveEnds (λ bytes. Told (ReadsToEnd 67108864 bytes) (S.left input.old) (S.left input.new)) (λ text. Told (WritesAll text) (O.written out.old) (O.written out.new)) (Rose (S.fault_count input.old) (S.fault_count input.new)) (Rose (O.fault_count out.old) (O.fault_count out.new)) result }
{
    match read_to_end(alloc, input, MOST) {
        Ok(bytes) => match drive_script(alloc, bytes.as_slice()) {
            Ok(text) => write_text(out, &text),
            Err(ScriptError::Memory) => Ended::NoMemory,
            Err(ScriptError::Bad(line)) => Ended::BadScript(line),
        },
        Err(ReadError::NoMemory) => Ended::NoMemory,
        Err(ReadError::ReadFault) => Ended::ReadFault,
    }
}

/// Drives a daemon by the script of a number up to 2,000, and writes the report from its first level on.
fn run_generate<O: Sink>(alloc: Global, number: u64, out: &mut O) -> Ended
    requires { number ≤ 2000 }
    ensures { TextEnds (DroveDrawn number (λ text. Told (WritesAll text) (O.written out.old) (O.written out.new))) (Rose (O.fault_count out.old) (O.fault_count out.new)) result }
{
    match drive_number(alloc, number) {
        Ok(text) => write_text(out, &text),
        Err(_) => Ended::NoMemory,
    }
}

fn run_help<O: Sink>(alloc: Global, out: &mut O) -> Ended
    ensures { TextEnds (Told (WritesAll help_lines) (O.written out.old) (O.written out.new)) (Rose (O.fault_count out.old) (O.fault_count out.new)) result }
{
    let mut text = Vec::new(alloc);
    match put_help(&mut text) {
        Ok(()) => write_text(out, &text),
        Err(_) => Ended::NoMemory,
    }
}

fn run_version<O: Sink>(alloc: Global, out: &mut O) -> Ended
    ensures { TextEnds (Told (WritesAll version_line) (O.written out.old) (O.written out.new)) (Rose (O.fault_count out.old) (O.fault_count out.new)) result }
{
    let mut text = Vec::new(alloc);
    match put_version(&mut text) {
        Ok(()) => write_text(out, &text),
        Err(_) => Ended::NoMemory,
    }
}

/// Says that memory ran out, which takes none.
fn out_of_memory<E: Sink>(err: &mut E) -> Ended
    ensures { result ≡ ended.NoMemory }
{
    let _written = write_all(err, b"out of memory\n");
    Ended::NoMemory
}

/// Writes the line that an end has on standard error; where that is refused, the end is `WriteFault`, and where there is no memory
/// for it, `NoMemory`.
pub fn told<E: Sink>(alloc: Global, err: &mut E, ended: Ended) -> Ended
    ensures { TellsEnd ended result (Rose (E.fault_count err.old) (E.fault_count err.new)) (E.written err.old) (E.written err.new) }
{
    let mut line = Vec::new(alloc);
    match put_error(alloc, &mut line, &ended) {
        Ok(()) => match write_all(err, &line) {
            Ok(()) => ended,
            Err(WriteError::NoMemory) => Ended::NoMemory,
            Err(WriteError::WriteFault) => Ended::WriteFault,
        },
        Err(_) => out_of_memory(err),
    }
}

/// Does a command, and tells nothing of its end.
fn done<S: Source, O: Sink, E: Sink, X: Outside>(
    command: Command,
    input: &mut S,
    out: &mut O,
    err: &mut E,
    outside: &mut X,
) -> Ended
where
    <X::Creator as CommandCreator>::Cmd: Drop,
    requires { IsWithinLimits command }
    ensures { Does (record {
      left = S.left;
      input_faults = S.fault_count;
      written = O.written;
      output_faults = O.fault_count;
      error_written = E.written;
      error_faults = E.fault_count;
      around = X.around;
      faults = X.fault_count;
      asked = X.Connector.asked;
      links = X.Connector.links;
      connector_faults = X.Connector.fault_count;
      begun = λ (link : X.Connector.Link). beginning (X.Connector.Link.ahead link) (X.Connector.Link.written link) (X.Connector.Link.fault_count link);
      table = X.Probe.table;
      runs = λ ws found cwd collected (t : X.Creator) (t2 : X.Creator) gave. RunsOne (KeepsPlan X.Creator.Cmd.plan) (Ran X.Creator.Cmd.gives X.Creator.Cmd.plan X.Creator.Cmd.arguments X.Creator.Cmd.setting X.Creator.Cmd.C.content found ws cwd collected) (X.Creator.queue t) gave (X.Creator.queue t2);
      creator_faults = X.Creator.fault_count;
      maker_faults = X.AcceptorMaker.fault_count;
      doors = record { address = X.AcceptorMaker.Acceptor.address; ready = X.AcceptorMaker.Acceptor.ready; given = X.AcceptorMaker.Acceptor.given; faults = X.AcceptorMaker.Acceptor.fault_count; wires = λ (link : X.AcceptorMaker.Acceptor.Link). wire (X.AcceptorMaker.Acceptor.Link.ahead link) (X.AcceptorMaker.Acceptor.Link.written link) (X.AcceptorMaker.Acceptor.Link.fault_count link); number = X.AcceptorMaker.Acceptor.Link.number_of };
      moments = X.Clock.moments;
      pauses = X.Clock.pauses;
    })
        command (stage input.old out.old err.old outside.old) (stage input.new out.new err.new outside.new) result }
{
    let alloc = outside.alloc();
    match command {
        Command::Drive => run_drive(alloc, input, out),
        Command::Generate(number) => run_generate(alloc, number, out),
        Command::Warm => run_warm(alloc, input, out),
        Command::Dry(capacities) => run_dry(alloc, input, capacities.as_slice(), out),
        Command::Help => run_help(alloc, out),
        Command::Version => run_version(alloc, out),
        Command::Serve {
            addr,
            dir,
            bytes,
            tokens,
        } => run_serve(outside, &addr, &dir, bytes, tokens, out),
        Command::Compile { addr, exe, words } => {
            run_compile(outside, &addr, &exe, words.as_slice(), out, err)
        }
        Command::Stats {
            addr,
            advanced,
            json,
        } => run_stats(outside, &addr, advanced, json, out),
        Command::Zero { addr } => run_zero(outside, &addr, err),
        Command::Stop { addr } => run_stop(outside, &addr, out),
        Command::DistStatus { addr } => run_dist_status(outside, &addr, out),
    }
}

/// Does a command, and tells on standard error what end it came to, unless that is `Status`: one line. `drive` reads a script of at
/// most 67,108,864 bytes, drives a daemon by it and writes the report; `generate` drives one by the script of a number, and writes the
/// report from its first level on; `warm` and `dry` report on what the input says; `serve` serves clients; the other commands ask a
/// server.
pub fn run_command<S: Source, O: Sink, E: Sink, X: Outside>(
    command: Command,
    input: &mut S,
    out: &mut O,
    err: &mut E,
    outside: &mut X,
) -> Ended
where
    <X::Creator as CommandCreator>::Cmd: Drop,
    requires { IsWithinLimits command }
    ensures { Runs (record {
      left = S.left;
      input_faults = S.fault_count;
      written = O.written;
      output_faults = O.fault_count;
      error_written = E.written;
      error_faults = E.fault_count;
      around = X.around;
      faults = X.fault_count;
      asked = X.Connector.asked;
      links = X.Connector.links;
      connector_faults = X.Connector.fault_count;
      begun = λ (link : X.Connector.Link). beginning (X.Connector.Link.ahead link) (X.Connector.Link.written link) (X.Connector.Link.fault_count link);
      table = X.Probe.table;
      runs = λ ws found cwd collected (t : X.Creator) (t2 : X.Creator) gave. RunsOne (KeepsPlan X.Creator.Cmd.plan) (Ran X.Creator.Cmd.gives X.Creator.Cmd.plan X.Creator.Cmd.arguments X.Creator.Cmd.setting X.Creator.Cmd.C.content found ws cwd collected) (X.Creator.queue t) gave (X.Creator.queue t2);
      creator_faults = X.Creator.fault_count;
      maker_faults = X.AcceptorMaker.fault_count;
      doors = record { address = X.AcceptorMaker.Acceptor.address; ready = X.AcceptorMaker.Acceptor.ready; given = X.AcceptorMaker.Acceptor.given; faults = X.AcceptorMaker.Acceptor.fault_count; wires = λ (link : X.AcceptorMaker.Acceptor.Link). wire (X.AcceptorMaker.Acceptor.Link.ahead link) (X.AcceptorMaker.Acceptor.Link.written link) (X.AcceptorMaker.Acceptor.Link.fault_count link); number = X.AcceptorMaker.Acceptor.Link.number_of };
      moments = X.Clock.moments;
      pauses = X.Clock.pauses;
    })
        (Ok command) (stage input.old out.old err.old outside.old) (stage input.new out.new err.new outside.new) result }
{
    let ended = done(command, input, out, err, outside);
    told(outside.alloc(), err, ended)
}

/// The end of words that are no command.
fn unread_end(refusal: WordsRefusal) -> Ended
    ensures { result ≡ unread_end refusal }
{
    match refusal {
        WordsRefusal::Usage => Ended::Usage,
        WordsRefusal::NoMemory => Ended::NoMemory,
    }
}

/// Does what the words say. Where they are no command the end is `Usage`, and nothing is done. Each end has its cause, and an end other
/// than `Status` writes one line to `err`, behind what the command wrote there.
pub fn run<S: Source, O: Sink, E: Sink, X: Outside>(
    words: &[ByteText],
    input: &mut S,
    out: &mut O,
    err: &mut E,
    outside: &mut X,
) -> Ended
where
    <X::Creator as CommandCreator>::Cmd: Drop,
    ensures { (command : Result Read Unread) × Parses (command_of words.now) command × Runs (record {
      left = S.left;
      input_faults = S.fault_count;
      written = O.written;
      output_faults = O.fault_count;
      error_written = E.written;
      error_faults = E.fault_count;
      around = X.around;
      faults = X.fault_count;
      asked = X.Connector.asked;
      links = X.Connector.links;
      connector_faults = X.Connector.fault_count;
      begun = λ (link : X.Connector.Link). beginning (X.Connector.Link.ahead link) (X.Connector.Link.written link) (X.Connector.Link.fault_count link);
      table = X.Probe.table;
      runs = λ ws found cwd collected (t : X.Creator) (t2 : X.Creator) gave. RunsOne (KeepsPlan X.Creator.Cmd.plan) (Ran X.Creator.Cmd.gives X.Creator.Cmd.plan X.Creator.Cmd.arguments X.Creator.Cmd.setting X.Creator.Cmd.C.content found ws cwd collected) (X.Creator.queue t) gave (X.Creator.queue t2);
      creator_faults = X.Creator.fault_count;
      maker_faults = X.AcceptorMaker.fault_count;
      doors = record { address = X.AcceptorMaker.Acceptor.address; ready = X.AcceptorMaker.Acceptor.ready; given = X.AcceptorMaker.Acceptor.given; faults = X.AcceptorMaker.Acceptor.fault_count; wires = λ (link : X.AcceptorMaker.Acceptor.Link). wire (X.AcceptorMaker.Acceptor.Link.ahead link) (X.AcceptorMaker.Acceptor.Link.written link) (X.AcceptorMaker.Acceptor.Link.fault_count link); number = X.AcceptorMaker.Acceptor.Link.number_of };
      moments = X.Clock.moments;
      pauses = X.Clock.pauses;
    })
        command (stage input.old out.old err.old outside.old) (stage input.new out.new err.new outside.new) result }
{
    let alloc = outside.alloc();
    match parse_words(alloc, words) {
        Ok(command) => run_command(command, input, out, err, outside),
        Err(refusal) => told(alloc, err, unread_end(refusal)),
    }
}
