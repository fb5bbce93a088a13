//! A compile that has no compiler.
ghost use Rattle.std.specs.Prelude.{◌≡◌, pos, IfOk};
ghost use Rattle.sc_entry.specs.Causes.{Rose, Told};
ghost use Rattle.sc_entry.specs.Streams.{WritesAll};
ghost use Rattle.sc_main_client.specs.Ending.{FailEnds, TextEndsAt, failure_line};
ghost use Rattle.sc_main_report.specs.declared.ended.Ended.TheVariants as endings;

use crate::ending::ended_of;
use sc_client::ClientError;
use sc_entry::{ByteText, NoMemory, Sink, WriteError, write_all};
use sc_main_report::Ended;
use std::alloc::Global;

/// The line on a compile that has no compiler.
fn failure_line(alloc: Global, error: &ClientError) -> Result<ByteText, NoMemory>
    ensures { IfOk result (λ line. line ≡ failure_line error.now) }
{
    let mut line = ByteText::from_slice(alloc, b"sccache: error: ")?;
    line.append(error.text(alloc)?.as_slice())?;
    line.push(b'\n')?;
    Ok(line)
}

/// Writes the line on a compile that has no compiler.
fn tell<E: Sink>(alloc: Global, err: &mut E, error: &ClientError) -> Ended
    ensures { TextEndsAt (endings.Status (pos 1)) (Told (WritesAll (failure_line error.now)) (E.written err.old) (E.written err.new)) (Rose (E.fault_count err.old) (E.fault_count err.new)) result }
{
    let Ok(line) = failure_line(alloc, error) else {
        return Ended::NoMemory;
    };
    match write_all(err, line.as_slice()) {
        Ok(()) => Ended::Status(1),
        Err(WriteError::NoMemory) => Ended::NoMemory,
        Err(WriteError::WriteFault) => Ended::WriteFault,
    }
}

/// The end of a compile without a status. That it has no compiler is told on standard error.
pub(crate) fn fail<E: Sink>(alloc: Global, err: &mut E, error: &ClientError) -> Ended
    ensures { FailEnds error.now (λ text. Told (WritesAll text) (E.written err.old) (E.written err.new)) (Rose (E.fault_count err.old) (E.fault_count err.new)) (err.new ≡ err.old) result }
{
    match error {
        ClientError::NotFound(_) | ClientError::NotSupported(_) => tell(alloc, err, error),
        _ => ended_of(error),
    }
}
