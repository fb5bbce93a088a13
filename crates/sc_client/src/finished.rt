//! What a client does with a compile that finished.
ghost use Rattle.std.specs.Prelude.{◌≡◌, ◌≤◌, ◌++◌, IfOk, OnErr, OnOk};
ghost use Rattle.sc_entry.specs.Causes.{Told};
ghost use Rattle.sc_entry.specs.Streams.{WritesAll};
ghost use Rattle.sc_client.specs.Finished.{EitherCause, WritesSome, end_line, end_status, shown_err, shown_out};

use crate::outlet::Outlets;
use sc_entry::{ByteText, NoMemory, Sink, Text, WriteError, write_all};
use sc_model::CompileFinished;
use std::alloc::Global;

/// The status of a compile that was killed by a signal.
const KILLED: i32 = -2;

/// The status of a compile of which no status is known.
const UNKNOWN: i32 = -3;

/// The status that a client ends with.
fn end_status(finished: &CompileFinished) -> i32
    ensures { result ≡ end_status finished.now.retcode finished.now.signal }
{
    match (finished.retcode, finished.signal) {
        (Some(code), _) => code,
        (None, Some(_)) => KILLED,
        (None, None) => UNKNOWN,
    }
}

/// The line on a compile that ended without a status of its own.
fn end_line(alloc: Global, finished: &CompileFinished) -> Result<Text, NoMemory>
    ensures { IfOk result (λ line. line ≡ end_line finished.now.retcode finished.now.signal) }
{
    match (finished.retcode, finished.signal) {
        (Some(_), _) => Ok(Text::new(alloc)),
        (None, Some(signal)) => {
            let line = format!(in alloc; "sccache: Compiler killed by signal {signal}\n")?;
            Ok(Text::from_string(line))
        }
        (None, None) => Text::from_str(alloc, "sccache: Missing compiler exit status!\n"),
    }
}

/// What goes to the streams of a client of a compile that finished.
#[derive(Drop)]
pub(crate) struct Printed {
    pub(crate) stdout: ByteText,
    pub(crate) stderr: ByteText,
    /// What stands behind `stdout`.
    pub(crate) line: Text,
}

fn texts_of(
    alloc: Global,
    finished: &CompileFinished,
    outlets: &Outlets,
) -> Result<Printed, NoMemory>
    ensures out { IfOk result (λ p. p.stdout ++ p.line ≡ shown_out outlets.now.out finished.now) }
    ensures err { IfOk result (λ p. p.stderr ≡ shown_err outlets.now.err finished.now) }
{
    let mode = finished.color_mode;
    let stdout = outlets.out.shown(alloc, mode, &finished.stdout)?;
    let stderr = outlets.err.shown(alloc, mode, &finished.stderr)?;
    let line = end_line(alloc, finished)?;
    Ok(Printed {
        stdout,
        stderr,
        line,
    })
}

/// Writes it to two sinks.
pub(crate) fn print<O: Sink, E: Sink>(
    printed: &Printed,
    out: &mut O,
    err: &mut E,
) -> Result<(), WriteError>
    ensures out { OnOk result (Told (WritesAll (printed.now.stdout ++ printed.now.line)) (O.written out.old) (O.written out.new)) }
    ensures err { OnOk result (Told (WritesAll printed.now.stderr) (E.written err.old) (E.written err.new)) }
    ensures some_out { OnErr result (Told (WritesSome (printed.now.stdout ++ printed.now.line)) (O.written out.old) (O.written out.new)) }
    ensures some_err { OnErr result (Told (WritesSome printed.now.stderr) (E.written err.old) (E.written err.new)) }
    ensures later { (O.fault_count out.old ≤ O.fault_count out.new) × (E.fault_count err.old ≤ E.fault_count err.new) }
    ensures cause { EitherCause (O.fault_count out.old) (O.fault_count out.new) (E.fault_count err.old) (E.fault_count err.new) result }
{
    write_all(out, printed.stdout.as_slice())?;
    write_all(err, printed.stderr.as_slice())?;
    write_all(out, printed.line.as_bytes())?;
    Ok(())
}

/// Writes what a compile printed to the streams that it printed it to, and answers the status to end with: its own, -2 where a
/// signal ended it, -3 where neither is known. The last two are told by a line on `out`. Escape sequences go where a stream
/// doesn't show them. Where a write is refused, those before it stand.
pub fn handle_compile_finished<O: Sink, E: Sink>(
    alloc: Global,
    finished: &CompileFinished,
    outlets: &Outlets,
    out: &mut O,
    err: &mut E,
) -> Result<i32, WriteError>
    ensures status { IfOk result (λ status. status ≡ end_status finished.now.retcode finished.now.signal) }
    ensures out { OnOk result (Told (WritesAll (shown_out outlets.now.out finished.now)) (O.written out.old) (O.written out.new)) }
    ensures err { OnOk result (Told (WritesAll (shown_err outlets.now.err finished.now)) (E.written err.old) (E.written err.new)) }
    ensures some_out { OnErr result (Told (WritesSome (shown_out outlets.now.out finished.now)) (O.written out.old) (O.written out.new)) }
    ensures some_err { OnErr result (Told (WritesSome (shown_err outlets.now.err finished.now)) (E.written err.old) (E.written err.new)) }
    ensures later { (O.fault_count out.old ≤ O.fault_count out.new) × (E.fault_count err.old ≤ E.fault_count err.new) }
    ensures cause { EitherCause (O.fault_count out.old) (O.fault_count out.new) (E.fault_count err.old) (E.fault_count err.new) result }
{
    let printed = texts_of(alloc, finished, outlets)?;
    print(&printed, out, err)?;
    Ok(end_status(finished))
}
