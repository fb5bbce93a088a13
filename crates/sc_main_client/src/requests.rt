//! The commands that ask a server one thing and print what it answers.
ghost use Rattle.std.specs.Prelude.{◌≡◌, ◌≤◌};
ghost use Rattle.sc_client.specs.Asking.{Asked, AsksStatistics, dist_status_of, read_as, shutting_down_of, zeroed_of};
ghost use Rattle.sc_client.specs.Conversations.{beginning};
ghost use Rattle.sc_entry.specs.Causes.{Rose, Told};
ghost use Rattle.sc_entry.specs.Streams.{WritesAll};
ghost use Rattle.sc_main_client.specs.Asking.{AfterFirst, AsksAndShows, Over};
ghost use Rattle.sc_main_client.specs.Connecting.{Connects};
ghost use Rattle.sc_main_client.specs.Ending.{TextEnds};
ghost use Rattle.sc_main_client.specs.Printed.{dist_text, last_text, stats_text, stopping_line, zeroed_line};
ghost use Rattle.sc_main_report.specs.declared.ended.Ended.{Ended as End};
ghost use Rattle.sc_model.specs.declared.message.Request.TheVariants as requests;

use crate::asking::{show_dist_status, show_last, show_stats, show_zeroed};
use crate::connecting::connection;
use crate::ending::{ended_of, write_text};
use sc_entry::Sink;
use sc_main_outside::Outside;
use sc_main_report::Ended;
use sc_wire_address::SocketAddr;

/// Prints the statistics of the server at an address, with `advanced` by compiler too, with `json` as JSON. It asks for them, and
/// then for the handshake, over one connection. `LinkFault` where the server can't be asked or doesn't answer, and `Unexpected` where
/// it answers something else.
pub fn run_stats<X: Outside, O: Sink>(
    outside: &mut X,
    addr: &SocketAddr,
    advanced: bool,
    json: bool,
    out: &mut O,
) -> Ended
    ensures ends { Over (Connects addr.now X.Connector.asked X.Connector.links X.Connector.fault_count (λ link. beginning (X.Connector.Link.ahead link) (X.Connector.Link.written link) (X.Connector.Link.fault_count link)) (X.fault_count outside.old) (X.fault_count outside.new))
        (AsksAndShows AsksStatistics (stats_text advanced json) (λ text. Told (WritesAll text) (O.written out.old) (O.written out.new)) (Rose (O.fault_count out.old) (O.fault_count out.new)) (out.new ≡ out.old)) (out.new ≡ out.old) result }
    ensures same { X.around outside.new ≡ X.around outside.old }
    ensures later { X.fault_count outside.old ≤ X.fault_count outside.new }
{
    let alloc = outside.alloc();
    match connection(outside, addr) {
        Ok(mut asked) => show_stats(alloc, &mut asked, advanced, json, out),
        Err(error) => ended_of(&error),
    }
}

/// Sets the statistics of the server at an address to zero, and says so on standard error. It ends as `run_stats` does.
pub fn run_zero<X: Outside, E: Sink>(outside: &mut X, addr: &SocketAddr, err: &mut E) -> Ended
    ensures ends { Over (Connects addr.now X.Connector.asked X.Connector.links X.Connector.fault_count (λ link. beginning (X.Connector.Link.ahead link) (X.Connector.Link.written link) (X.Connector.Link.fault_count link)) (X.fault_count outside.old) (X.fault_count outside.new))
        (AsksAndShows (Asked requests.ZeroStats (read_as zeroed_of)) (λ _. zeroed_line) (λ text. Told (WritesAll text) (E.written err.old) (E.written err.new)) (Rose (E.fault_count err.old) (E.fault_count err.new)) (err.new ≡ err.old)) (err.new ≡ err.old) result }
    ensures same { X.around outside.new ≡ X.around outside.old }
    ensures later { X.fault_count outside.old ≤ X.fault_count outside.new }
{
    match connection(outside, addr) {
        Ok(mut asked) => show_zeroed(&mut asked, err),
        Err(error) => ended_of(&error),
    }
}

/// Prints how the distributed compilation of the server at an address stands, as a line of JSON. It ends as `run_stats` does.
pub fn run_dist_status<X: Outside, O: Sink>(
    outside: &mut X,
    addr: &SocketAddr,
    out: &mut O,
) -> Ended
    ensures ends { Over (Connects addr.now X.Connector.asked X.Connector.links X.Connector.fault_count (λ link. beginning (X.Connector.Link.ahead link) (X.Connector.Link.written link) (X.Connector.Link.fault_count link)) (X.fault_count outside.old) (X.fault_count outside.new))
        (AsksAndShows (Asked requests.DistStatus (read_as dist_status_of)) dist_text (λ text. Told (WritesAll text) (O.written out.old) (O.written out.new)) (Rose (O.fault_count out.old) (O.fault_count out.new)) (out.new ≡ out.old)) (out.new ≡ out.old) result }
    ensures same { X.around outside.new ≡ X.around outside.old }
    ensures later { X.fault_count outside.old ≤ X.fault_count outside.new }
{
    let alloc = outside.alloc();
    match connection(outside, addr) {
        Ok(mut asked) => show_dist_status(alloc, &mut asked, out),
        Err(error) => ended_of(&error),
    }
}

/// Asks the server at an address to stop, and prints what it counted.
fn ask_to_stop<X: Outside, O: Sink>(outside: &mut X, addr: &SocketAddr, out: &mut O) -> Ended
    ensures ends { Over (Connects addr.now X.Connector.asked X.Connector.links X.Connector.fault_count (λ link. beginning (X.Connector.Link.ahead link) (X.Connector.Link.written link) (X.Connector.Link.fault_count link)) (X.fault_count outside.old) (X.fault_count outside.new))
        (AsksAndShows (Asked requests.Shutdown (read_as shutting_down_of)) last_text (λ text. Told (WritesAll text) (O.written out.old) (O.written out.new)) (Rose (O.fault_count out.old) (O.fault_count out.new)) (out.new ≡ out.old)) (out.new ≡ out.old) result }
    ensures same { X.around outside.new ≡ X.around outside.old }
    ensures later { X.fault_count outside.old ≤ X.fault_count outside.new }
{
    let alloc = outside.alloc();
    match connection(outside, addr) {
        Ok(mut asked) => show_last(alloc, &mut asked, out),
        Err(error) => ended_of(&error),
    }
}

/// Stops the server at an address: says so, asks it, and prints what it counted. Nothing is asked where the first line wasn't
/// written. It ends as `run_stats` does.
pub fn run_stop<X: Outside, O: Sink>(outside: &mut X, addr: &SocketAddr, out: &mut O) -> Ended
    ensures ends { (first : End) × ((said : O) × TextEnds (Told (WritesAll stopping_line) (O.written out.old) (O.written said)) (Rose (O.fault_count out.old) (O.fault_count said)) first
        × AfterFirst first (Over (Connects addr.now X.Connector.asked X.Connector.links X.Connector.fault_count (λ link. beginning (X.Connector.Link.ahead link) (X.Connector.Link.written link) (X.Connector.Link.fault_count link)) (X.fault_count outside.old) (X.fault_count outside.new))
        (AsksAndShows (Asked requests.Shutdown (read_as shutting_down_of)) last_text (λ text. Told (WritesAll text) (O.written said) (O.written out.new)) (Rose (O.fault_count said) (O.fault_count out.new)) (out.new ≡ said)) (out.new ≡ said)) ((out.new ≡ said) × (outside.new ≡ outside.old)) result) }
    ensures same { X.around outside.new ≡ X.around outside.old }
    ensures later { X.fault_count outside.old ≤ X.fault_count outside.new }
{
    match write_text(out, b"Stopping sccache server...\n") {
        Ended::Status(_) => ask_to_stop(outside, addr, out),
        first => first,
    }
}
