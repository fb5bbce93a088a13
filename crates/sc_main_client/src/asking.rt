//! What is asked over a connection, and shown.
ghost use Rattle.std.specs.Prelude.{◌≡◌};
ghost use Rattle.sc_client.specs.Asking.{Asked, AsksStatistics, dist_status_of, read_as, shutting_down_of, zeroed_of};
ghost use Rattle.sc_entry.specs.Causes.{Rose, Told};
ghost use Rattle.sc_entry.specs.Streams.{WritesAll};
ghost use Rattle.sc_main_client.specs.Asking.{AsksAndShows};
ghost use Rattle.sc_main_client.specs.Printed.{dist_text, last_text, stats_text, zeroed_line};
ghost use Rattle.sc_model.specs.declared.message.Request.TheVariants as requests;

use crate::showing::{show_dist_answer, show_last_answer, show_stats_answer, show_zeroed_answer};
use sc_client::{
    ServerConnection, request_dist_status, request_shutdown, request_stats, request_zero_stats,
};
use sc_entry::Sink;
use sc_link::Link;
use sc_main_report::Ended;
use std::alloc::Global;

/// Asks for the statistics, and prints them.
pub(crate) fn show_stats<K: Link + Drop, O: Sink>(
    alloc: Global,
    connection: &mut ServerConnection<K>,
    advanced: bool,
    json: bool,
    out: &mut O,
) -> Ended
    ensures { AsksAndShows AsksStatistics (stats_text advanced json) (λ text. Told (WritesAll text) (O.written out.old) (O.written out.new)) (Rose (O.fault_count out.old) (O.fault_count out.new)) (out.new ≡ out.old) connection.old result }
{
    let came = request_stats(connection);
    let ended = show_stats_answer(alloc, &came, advanced, json, out);
    drop(came);
    ended
}

/// Asks to empty the counters, and says so.
pub(crate) fn show_zeroed<K: Link + Drop, E: Sink>(
    connection: &mut ServerConnection<K>,
    err: &mut E,
) -> Ended
    ensures { AsksAndShows (Asked requests.ZeroStats (read_as zeroed_of)) (λ _. zeroed_line) (λ text. Told (WritesAll text) (E.written err.old) (E.written err.new)) (Rose (E.fault_count err.old) (E.fault_count err.new)) (err.new ≡ err.old) connection.old result }
{
    let came = request_zero_stats(connection);
    let ended = show_zeroed_answer(&came, err);
    drop(came);
    ended
}

/// Asks to stop, and prints what was counted.
pub(crate) fn show_last<K: Link + Drop, O: Sink>(
    alloc: Global,
    connection: &mut ServerConnection<K>,
    out: &mut O,
) -> Ended
    ensures { AsksAndShows (Asked requests.Shutdown (read_as shutting_down_of)) last_text (λ text. Told (WritesAll text) (O.written out.old) (O.written out.new)) (Rose (O.fault_count out.old) (O.fault_count out.new)) (out.new ≡ out.old) connection.old result }
{
    let came = request_shutdown(connection);
    let ended = show_last_answer(alloc, &came, out);
    drop(came);
    ended
}

/// Asks how distributed compilation stands, and prints that.
pub(crate) fn show_dist_status<K: Link + Drop, O: Sink>(
    alloc: Global,
    connection: &mut ServerConnection<K>,
    out: &mut O,
) -> Ended
    ensures { AsksAndShows (Asked requests.DistStatus (read_as dist_status_of)) dist_text (λ text. Told (WritesAll text) (O.written out.old) (O.written out.new)) (Rose (O.fault_count out.old) (O.fault_count out.new)) (out.new ≡ out.old) connection.old result }
{
    let came = request_dist_status(connection);
    let ended = show_dist_answer(alloc, &came, out);
    drop(came);
    ended
}
