//! What is shown of an answer, or the end where there is none.
ghost use Rattle.std.specs.Prelude.{◌≡◌};
ghost use Rattle.sc_entry.specs.Causes.{Rose, Told};
ghost use Rattle.sc_entry.specs.Streams.{WritesAll};
ghost use Rattle.sc_main_client.specs.Asking.{Shows};
ghost use Rattle.sc_main_client.specs.Ending.{TextEnds};
ghost use Rattle.sc_main_client.specs.Printed.{dist_text, last_text, stats_text, zeroed_line};

use crate::ending::{ended_of, write_text};
use crate::printed::{dist_text, last_text, stats_text};
use sc_client::{ClientError, Statistics};
use sc_entry::Sink;
use sc_main_report::Ended;
use sc_stats::{DistInfo, ServerInfo};
use std::alloc::Global;

fn print_stats<O: Sink>(
    alloc: Global,
    statistics: &Statistics,
    advanced: bool,
    json: bool,
    out: &mut O,
) -> Ended
    ensures { TextEnds (Told (WritesAll (stats_text advanced json statistics.now)) (O.written out.old) (O.written out.new)) (Rose (O.fault_count out.old) (O.fault_count out.new)) result }
{
    let Ok(text) = stats_text(alloc, statistics, advanced, json) else {
        return Ended::NoMemory;
    };
    write_text(out, text.as_slice())
}

fn print_last<O: Sink>(alloc: Global, info: &ServerInfo, out: &mut O) -> Ended
    ensures { TextEnds (Told (WritesAll (last_text info.now)) (O.written out.old) (O.written out.new)) (Rose (O.fault_count out.old) (O.fault_count out.new)) result }
{
    let Ok(text) = last_text(alloc, info) else {
        return Ended::NoMemory;
    };
    write_text(out, text.as_slice())
}

fn print_dist<O: Sink>(alloc: Global, info: &DistInfo, out: &mut O) -> Ended
    ensures { TextEnds (Told (WritesAll (dist_text info.now)) (O.written out.old) (O.written out.new)) (Rose (O.fault_count out.old) (O.fault_count out.new)) result }
{
    let Ok(text) = dist_text(alloc, info) else {
        return Ended::NoMemory;
    };
    write_text(out, text.as_slice())
}

pub(crate) fn show_stats_answer<O: Sink>(
    alloc: Global,
    came: &Result<Statistics, ClientError>,
    advanced: bool,
    json: bool,
    out: &mut O,
) -> Ended
    ensures { Shows (stats_text advanced json) (λ text. Told (WritesAll text) (O.written out.old) (O.written out.new)) (Rose (O.fault_count out.old) (O.fault_count out.new)) (out.new ≡ out.old) came.now result }
{
    match came {
        Ok(statistics) => print_stats(alloc, statistics, advanced, json, out),
        Err(error) => ended_of(error),
    }
}

pub(crate) fn show_zeroed_answer<E: Sink>(came: &Result<(), ClientError>, err: &mut E) -> Ended
    ensures { Shows (λ _. zeroed_line) (λ text. Told (WritesAll text) (E.written err.old) (E.written err.new)) (Rose (E.fault_count err.old) (E.fault_count err.new)) (err.new ≡ err.old) came.now result }
{
    match came {
        Ok(()) => write_text(err, b"Statistics zeroed.\n"),
        Err(error) => ended_of(error),
    }
}

pub(crate) fn show_last_answer<O: Sink>(
    alloc: Global,
    came: &Result<ServerInfo, ClientError>,
    out: &mut O,
) -> Ended
    ensures { Shows last_text (λ text. Told (WritesAll text) (O.written out.old) (O.written out.new)) (Rose (O.fault_count out.old) (O.fault_count out.new)) (out.new ≡ out.old) came.now result }
{
    match came {
        Ok(info) => print_last(alloc, info, out),
        Err(error) => ended_of(error),
    }
}

pub(crate) fn show_dist_answer<O: Sink>(
    alloc: Global,
    came: &Result<DistInfo, ClientError>,
    out: &mut O,
) -> Ended
    ensures { Shows dist_text (λ text. Told (WritesAll text) (O.written out.old) (O.written out.new)) (Rose (O.fault_count out.old) (O.fault_count out.new)) (out.new ≡ out.old) came.now result }
{
    match came {
        Ok(info) => print_dist(alloc, info, out),
        Err(error) => ended_of(error),
    }
}
