//! A compile by a server, or here.
ghost use Rattle.std.specs.Prelude.{◌≡◌, ◌≤◌, ◌++◌, IfOk, OnOk, Result};
ghost use Rattle.std.specs.Process.{exit_code, exit_signal};
ghost use Rattle.sc_command.specs.declared.output.Output.{Output};
ghost use Rattle.sc_entry.specs.Causes.{Told};
ghost use Rattle.sc_entry.specs.Streams.{WritesAll};
ghost use Rattle.sc_client.specs.Compiling.{AfterWhich, Carries, CarryCause, CompileCause, Compiles, HereCause, IfWhole, IsQuiet, OutputCause, RunsOnly, ShowCause, ShowsHere, compile_of, without_noted};
ghost use Rattle.sc_client.specs.Finished.{end_status, shown_err, shown_out};
ghost use Rattle.sc_client.specs.Local.{KeepsPlan, Ran, RunsOne, collects, local_line, local_status, local_words};
ghost use Rattle.sc_client.specs.Notes.{without_notes};
ghost use Rattle.sc_client.specs.Which.{Finds, paths_of};
ghost use Rattle.sc_client.specs.declared.client_error.ClientError.{ClientError};

use crate::client_error::ClientError;
use crate::connection::ServerConnection;
use crate::deciding::{Next, next_of};
use crate::finding::which_in;
use crate::finished::{Printed, handle_compile_finished, print};
use crate::local::{local_words, run_local};
use crate::notes::without_notes;
use crate::outlet::Outlets;
use crate::talking::talk_of;
use sc_command::{CommandCreator, Output};
use sc_compile::Probe;
use sc_entry::{ByteText, Items, NoMemory, Sink, Text};
use sc_link::Link;
use sc_model::{Compile, CompileFinished, Request, Variable};
use std::alloc::Global;
use std::os::unix::process::ExitStatusExt;
use std::process::ExitStatus;

/// The status of a command that has no code.
const NO_CODE: i32 = 2;

/// A compile's request.
fn compile_of(
    alloc: Global,
    found: &ByteText,
    cwd: &ByteText,
    words: &[ByteText],
    variables: &[Variable],
) -> Result<Request, NoMemory>
    ensures { IfOk result (λ request. request ≡ compile_of found.now cwd.now words.now variables.now) }
{
    let args = Items::from_vec(words.to_vec(alloc)?);
    let env_vars = Items::from_vec(variables.to_vec(alloc)?);
    Ok(Request::Compile(Compile {
        exe: found.try_clone()?,
        cwd: cwd.try_clone()?,
        args,
        env_vars,
    }))
}

/// Shows what a server's compile printed, without the notifications that were written before.
fn finish<O: Sink, E: Sink>(
    alloc: Global,
    notes: Items<ByteText>,
    finished: CompileFinished,
    outlets: &Outlets,
    out: &mut O,
    err: &mut E,
) -> Result<i32, ClientError>
    ensures status { IfOk result (λ status. status ≡ end_status finished.retcode finished.signal) }
    ensures out { OnOk result (Told (WritesAll (shown_out outlets.now.out finished)) (O.written out.old) (O.written out.new)) }
    ensures err { OnOk result (Told (WritesAll (shown_err outlets.now.err (without_noted notes finished))) (E.written err.old) (E.written err.new)) }
    ensures later { (O.fault_count out.old ≤ O.fault_count out.new) × (E.fault_count err.old ≤ E.fault_count err.new) }
    ensures cause { OutputCause (O.fault_count out.old) (O.fault_count out.new) (E.fault_count err.old) (E.fault_count err.new) result }
{
    let CompileFinished {
        retcode,
        signal,
        stdout,
        stderr,
        color_mode,
    } = finished;
    let stderr = without_notes(alloc, notes, stderr)?;
    let left = CompileFinished {
        retcode,
        signal,
        stdout,
        stderr,
        color_mode,
    };
    let status = handle_compile_finished(alloc, &left, outlets, out, err)?;
    Ok(status)
}

fn local_status(status: ExitStatus) -> i32
    ensures { result ≡ local_status (exit_code status) }
{
    match status.code() {
        Some(code) => code,
        None => NO_CODE,
    }
}

/// The line on a command that a signal ended.
fn local_line(alloc: Global, status: ExitStatus) -> Result<Text, NoMemory>
    ensures { IfOk result (λ line. line ≡ local_line (exit_code status) (exit_signal status)) }
{
    match (status.code(), status.signal()) {
        (None, Some(signal)) => {
            let line = format!(in alloc; "sccache: Compile terminated by signal {signal}\n")?;
            Ok(Text::from_string(line))
        }
        (None, None) => Ok(Text::new(alloc)),
        (Some(_), _) => Ok(Text::new(alloc)),
    }
}

/// Shows what a command wrote that was collected, without the notifications that were written before.
fn show_output<O: Sink, E: Sink>(
    alloc: Global,
    notes: Items<ByteText>,
    output: Output,
    out: &mut O,
    err: &mut E,
) -> Result<i32, ClientError>
    ensures status { IfOk result (λ status. status ≡ local_status (exit_code output.status)) }
    ensures out { OnOk result (Told (WritesAll (output.stdout ++ local_line (exit_code output.status) (exit_signal output.status))) (O.written out.old) (O.written out.new)) }
    ensures err { OnOk result (Told (WritesAll (without_notes notes output.stderr)) (E.written err.old) (E.written err.new)) }
    ensures later { (O.fault_count out.old ≤ O.fault_count out.new) × (E.fault_count err.old ≤ E.fault_count err.new) }
    ensures cause { OutputCause (O.fault_count out.old) (O.fault_count out.new) (E.fault_count err.old) (E.fault_count err.new) result }
{
    let Output {
        status,
        stdout,
        stderr,
    } = output;
    let stderr = without_notes(alloc, notes, stderr)?;
    let line = local_line(alloc, status)?;
    let printed = Printed {
        stdout,
        stderr,
        line,
    };
    print(&printed, out, err)?;
    Ok(local_status(status))
}

/// Whether the streams of a command are to be collected.
fn collects(notes: &Items<ByteText>) -> bool
    ensures { result ≡ collects notes.now }
{
    match notes.as_slice() {
        [] => false,
        [_, ..] => true,
    }
}

/// Shows what came of a command that was run here.
fn show_here<O: Sink, E: Sink>(
    alloc: Global,
    notes: Items<ByteText>,
    came: Result<Output, ClientError>,
    out: &mut O,
    err: &mut E,
) -> Result<i32, ClientError>
    ensures shows { IfWhole result (ShowsHere notes (record { out = O.written out.old; now_out = O.written out.new; err = E.written err.old; now_err = E.written err.new }) came result) }
    ensures later { (O.fault_count out.old ≤ O.fault_count out.new) × (E.fault_count err.old ≤ E.fault_count err.new) }
    ensures cause { ShowCause (O.fault_count out.old) (O.fault_count out.new) (E.fault_count err.old) (E.fault_count err.new) came result }
{
    match came {
        Ok(output) => show_output(alloc, notes, output, out, err),
        Err(error) => Err(error),
    }
}

/// Runs a program here with these words, and shows what came of it.
fn run_here<T: CommandCreator, O: Sink, E: Sink>(
    alloc: Global,
    creator: &mut T,
    found: &ByteText,
    words: &[ByteText],
    cwd: &ByteText,
    notes: Items<ByteText>,
    out: &mut O,
    err: &mut E,
) -> Result<i32, ClientError>
where
    T::Cmd: Drop,
    ensures here { IfWhole result ((came : Result Output ClientError)
        × RunsOne (KeepsPlan T.Cmd.plan) (Ran T.Cmd.gives T.Cmd.plan T.Cmd.arguments T.Cmd.setting T.Cmd.C.content found.now words.now cwd.now (collects notes)) (T.queue creator.old) came (T.queue creator.new)
        × ShowsHere notes (record { out = O.written out.old; now_out = O.written out.new; err = E.written err.old; now_err = E.written err.new }) came result) }
    ensures later { (O.fault_count out.old ≤ O.fault_count out.new) × (E.fault_count err.old ≤ E.fault_count err.new) × (T.fault_count creator.old ≤ T.fault_count creator.new) }
    ensures cause { HereCause (O.fault_count out.old) (O.fault_count out.new) (E.fault_count err.old) (E.fault_count err.new) (T.fault_count creator.old) (T.fault_count creator.new) result }
{
    let collected = collects(&notes);
    let came = run_local(alloc, creator, found, words, cwd, collected);
    show_here(alloc, notes, came, out, err)
}

/// Compiles here: the program that was found, in the folder and in this process's environment. Its streams are this process's where
/// no notification was written; else they are collected, and written without these.
fn compile_here<T: CommandCreator, O: Sink, E: Sink>(
    alloc: Global,
    creator: &mut T,
    found: &ByteText,
    words: &[ByteText],
    cwd: &ByteText,
    notes: Items<ByteText>,
    out: &mut O,
    err: &mut E,
) -> Result<i32, ClientError>
where
    T::Cmd: Drop,
    ensures here { IfWhole result ((came : Result Output ClientError)
        × RunsOne (KeepsPlan T.Cmd.plan) (Ran T.Cmd.gives T.Cmd.plan T.Cmd.arguments T.Cmd.setting T.Cmd.C.content found.now (local_words words.now) cwd.now (collects notes)) (T.queue creator.old) came (T.queue creator.new)
        × ShowsHere notes (record { out = O.written out.old; now_out = O.written out.new; err = E.written err.old; now_err = E.written err.new }) came result) }
    ensures later { (O.fault_count out.old ≤ O.fault_count out.new) × (E.fault_count err.old ≤ E.fault_count err.new) × (T.fault_count creator.old ≤ T.fault_count creator.new) }
    ensures cause { HereCause (O.fault_count out.old) (O.fault_count out.new) (E.fault_count err.old) (E.fault_count err.new) (T.fault_count creator.old) (T.fault_count creator.new) result }
{
    let words = local_words(alloc, words)?;
    let status = run_here(
        alloc,
        creator,
        found,
        words.as_slice(),
        cwd,
        notes,
        out,
        err,
    )?;
    Ok(status)
}

/// Carries out what was decided.
fn carry_out<T: CommandCreator, O: Sink, E: Sink>(
    alloc: Global,
    creator: &mut T,
    found: &ByteText,
    words: &[ByteText],
    cwd: &ByteText,
    next: Next,
    outlets: &Outlets,
    out: &mut O,
    err: &mut E,
) -> Result<i32, ClientError>
where
    T::Cmd: Drop,
    ensures carries { IfWhole result (Carries outlets.now (creator.new ≡ creator.old)
        (λ collected came. RunsOne (KeepsPlan T.Cmd.plan) (Ran T.Cmd.gives T.Cmd.plan T.Cmd.arguments T.Cmd.setting T.Cmd.C.content found.now (local_words words.now) cwd.now collected) (T.queue creator.old) came (T.queue creator.new))
        (record { out = O.written out.old; now_out = O.written out.new; err = E.written err.old; now_err = E.written err.new }) next result) }
    ensures quiet { IsQuiet (creator.new ≡ creator.old) next }
    ensures later { (O.fault_count out.old ≤ O.fault_count out.new) × (E.fault_count err.old ≤ E.fault_count err.new) × (T.fault_count creator.old ≤ T.fault_count creator.new) }
    ensures cause { CarryCause (O.fault_count out.old) (O.fault_count out.new) (E.fault_count err.old) (E.fault_count err.new) (T.fault_count creator.old) (T.fault_count creator.new) next result }
{
    match next {
        Next::Finish(notes, finished) => finish(alloc, notes, finished, outlets, out, err),
        Next::Compile(notes) => compile_here(alloc, creator, found, words, cwd, notes, out, err),
        Next::Fail(error) => Err(error),
    }
}

/// Compiles by a server that is connected, and answers the status to end with.
///
/// It looks where the program is, asks the server, and shows what the server's compile printed. Notifications go to `err` as they
/// come, and their lines don't come again. Where the server doesn't handle the compile, where the stream ends once it was started,
/// and where `ignore` is set also at any refused reading from then on, the program is run here instead, once. Its status is its code;
/// where it has none, 2, behind a line on `out` that tells its signal. A reply of another kind is `Unexpected`.
pub fn do_compile<T: CommandCreator, P: Probe, K: Link + Drop, O: Sink, E: Sink>(
    alloc: Global,
    creator: &mut T,
    probe: &P,
    connection: &mut ServerConnection<K>,
    exe: &ByteText,
    words: &[ByteText],
    cwd: &ByteText,
    folders: &[ByteText],
    variables: &[Variable],
    ignore: bool,
    outlets: &Outlets,
    out: &mut O,
    err: &mut E,
) -> Result<i32, ClientError>
where
    T::Cmd: Drop,
    ensures compiles { IfWhole result (Compiles (Finds (P.table probe.now) exe.now (paths_of exe.now folders.now cwd.now))
        (AfterWhich (λ found. compile_of found cwd.now words.now variables.now) ignore outlets.now (creator.new ≡ creator.old)
        (λ found collected came. RunsOne (KeepsPlan T.Cmd.plan) (Ran T.Cmd.gives T.Cmd.plan T.Cmd.arguments T.Cmd.setting T.Cmd.C.content found (local_words words.now) cwd.now collected) (T.queue creator.old) came (T.queue creator.new))
        (record { out = O.written out.old; now_out = O.written out.new; err = E.written err.old; now_err = E.written err.new })
        connection.old connection.new) result) }
    ensures runs { RunsOnly (λ found. compile_of found cwd.now words.now variables.now) ignore (creator.new ≡ creator.old) connection.old connection.new }
    ensures later { (O.fault_count out.old ≤ O.fault_count out.new) × (E.fault_count err.old ≤ E.fault_count err.new) × (T.fault_count creator.old ≤ T.fault_count creator.new) × (connection.old.faults ≤ connection.new.faults) }
    ensures cause { CompileCause (O.fault_count out.old) (O.fault_count out.new) (E.fault_count err.old) (E.fault_count err.new) (T.fault_count creator.old) (T.fault_count creator.new) connection.new.faults_before connection.new.faults result }
{
    let found = which_in(alloc, probe, exe, folders, cwd)?;
    let request = compile_of(alloc, &found, cwd, words, variables)?;
    let talk = talk_of(alloc, connection, &request, err)?;
    let next = next_of(alloc, talk, ignore);
    carry_out(alloc, creator, &found, words, cwd, next, outlets, out, err)
}
