//! Commands that read an input to its end, and report on what it says.
ghost use Rattle.std.specs.Prelude.{◌≡◌};
ghost use Rattle.sc_entry.specs.Causes.{Rose, Told};
ghost use Rattle.sc_entry.specs.Streams.{ReadsToEnd, WritesAll};
ghost use Rattle.sc_main.specs.Inputs.{AreNoUses, InputEnds, IsDryReport, IsWarmReport, ReportEnds, SaysNoWarming, unread_input};
ghost use Rattle.sc_main.specs.Runs.{LeavesOut};
ghost use Rattle.sc_main_client.specs.Ending.{TextEnds};

use crate::warming::warm_report;
use sc_entry::{ReadError, Sink, Source, WriteError, read_to_end, write_all};
use sc_main_dry::dry_report;
use sc_main_report::Ended;
use sc_main_script::ScriptError;
use std::alloc::Global;

/// The most bytes that an input may have.
pub const MOST: usize = 67_108_864;

/// Writes a text, which is all that is left to do.
pub fn write_text<O: Sink>(out: &mut O, text: &[u8]) -> Ended
    ensures { TextEnds (Told (WritesAll text.now) (O.written out.old) (O.written out.new)) (Rose (O.fault_count out.old) (O.fault_count out.new)) result }
{
    match write_all(out, text) {
        Ok(()) => Ended::Status(0),
        Err(WriteError::NoMemory) => Ended::NoMemory,
        Err(WriteError::WriteFault) => Ended::WriteFault,
    }
}

/// Writes a report, or tells why there is none.
fn write_report<O: Sink>(out: &mut O, report: Result<Vec<u8>, ScriptError>) -> Ended
    ensures ends { ReportEnds (λ text. Told (WritesAll text) (O.written out.old) (O.written out.new)) (Rose (O.fault_count out.old) (O.fault_count out.new)) report result }
    ensures untouched { LeavesOut result out.old out.new }
{
    match report {
        Ok(text) => write_text(out, &text),
        Err(ScriptError::Memory) => Ended::NoMemory,
        Err(ScriptError::Bad(line)) => Ended::BadScript(line),
    }
}

/// The end of an input that could not be read.
fn unread_input(error: ReadError) -> Ended
    ensures { result ≡ unread_input error }
{
    match error {
        ReadError::NoMemory => Ended::NoMemory,
        ReadError::ReadFault => Ended::ReadFault,
    }
}

/// Reads two stores and a list of keys, copies the keys' entries from one store into the other, and writes what became of each.
pub fn run_warm<S: Source, O: Sink>(alloc: Global, input: &mut S, out: &mut O) -> Ended
    ensures untouched { LeavesOut result out.old out.new }
    ensures ends { InputEnds IsWarmReport SaysNoWarming (λ bytes. Told (ReadsToEnd 67108864 bytes) (S.left input.old) (S.left input.new)) (λ text. Told (WritesAll text) (O.written out.old) (O.written out.new)) (Rose (S.fault_count input.old) (S.fault_count input.new)) (Rose (O.fault_count out.old) (O.fault_count out.new)) result }
{
    match read_to_end(alloc, input, MOST) {
        Ok(bytes) => write_report(out, warm_report(alloc, bytes.as_slice())),
        Err(error) => unread_input(error),
    }
}

/// Reads uses of a cache, and writes what they find at each capacity.
pub fn run_dry<S: Source, O: Sink>(
    alloc: Global,
    input: &mut S,
    capacities: &[u64],
    out: &mut O,
) -> Ended
    ensures untouched { LeavesOut result out.old out.new }
    ensures ends { InputEnds (IsDryReport capacities.now) AreNoUses (λ bytes. Told (ReadsToEnd 67108864 bytes) (S.left input.old) (S.left input.new)) (λ text. Told (WritesAll text) (O.written out.old) (O.written out.new)) (Rose (S.fault_count input.old) (S.fault_count input.new)) (Rose (O.fault_count out.old) (O.fault_count out.new)) result }
{
    match read_to_end(alloc, input, MOST) {
        Ok(bytes) => write_report(out, dry_report(alloc, bytes.as_slice(), capacities)),
        Err(error) => unread_input(error),
    }
}
