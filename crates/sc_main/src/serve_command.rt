//! The command that serves.
ghost use Rattle.std.specs.Prelude.{◌≡◌, ◌≤◌, IfOk};
ghost use Rattle.sc_daemon.specs.Daemons.{IsIdleDaemon};
ghost use Rattle.sc_daemon.specs.Lines.{new_line};
ghost use Rattle.sc_entry.specs.Causes.{Rose, Told};
ghost use Rattle.sc_entry.specs.Streams.{WritesAll};
ghost use Rattle.sc_main.specs.ServeCommand.{IsServerDaemon, Listens, ServesAt, ServesBy, ServesDaemon, ServesDir, listening_line, served_end, unheard_end, unmade_end};
ghost use Rattle.sc_main.specs.Serving.{wire};
ghost use Rattle.sc_main_client.specs.Ending.{TextEnds};
ghost use Rattle.sc_main_outside.specs.Makings.{MakeCause};

use crate::accepting::serve_links;
use crate::serve_error::ServeError;
use sc_clock::Clock;
use sc_command::{Client, CommandCreator};
use sc_daemon::{Daemon, Session};
use sc_daemon_owned::Parts;
use sc_entry::{ByteText, Sink, WriteError, write_all};
use sc_link::{Acceptor, AcceptorMaker, ListenError};
use sc_main_outside::{MakeError, Outside};
use sc_main_report::Ended;
use sc_server_activity::StopCause;
use sc_server_parts::{CommandParts, daemon_over, disk_levels};
use sc_wire_address::SocketAddr;
use std::alloc::Global;

/// How long a server waits for a request before it stops, in nanoseconds: ten minutes.
const IDLE_TIME: u64 = 600_000_000_000;

/// The end where a part wasn't made.
fn unmade_end(error: MakeError) -> Ended
    ensures { result ≡ unmade_end error }
{
    match error {
        MakeError::NoMemory => Ended::NoMemory,
        MakeError::MakeFault => Ended::LinkFault,
    }
}

/// The end where no acceptor was made.
fn unheard_end(error: ListenError) -> Ended
    ensures { result ≡ unheard_end error }
{
    match error {
        ListenError::NoMemory => Ended::NoMemory,
        ListenError::AddrInUse | ListenError::AcceptFault => Ended::LinkFault,
    }
}

/// The end of a server: it was to stop, or why it wasn't.
fn served_end(served: Result<StopCause, ServeError>) -> Ended
    ensures { result ≡ served_end served }
{
    match served {
        Ok(_) => Ended::Status(0),
        Err(ServeError::NoMemory) => Ended::NoMemory,
        Err(ServeError::AcceptFault) => Ended::LinkFault,
    }
}

/// Prints at which address clients can connect.
fn print_listening<O: Sink>(alloc: Global, out: &mut O, addr: &SocketAddr) -> Ended
    ensures { TextEnds (Told (WritesAll (listening_line addr.now)) (O.written out.old) (O.written out.new)) (Rose (O.fault_count out.old) (O.fault_count out.new)) result }
{
    let Ok(line) = format!(in alloc; "sccache: Listening on address {addr}\n") else {
        return Ended::NoMemory;
    };
    match write_all(out, line.as_bytes()) {
        Ok(()) => Ended::Status(0),
        Err(WriteError::NoMemory) => Ended::NoMemory,
        Err(WriteError::WriteFault) => Ended::WriteFault,
    }
}

/// Prints the address, and serves the links that come there.
fn serve_at<P: Parts, A: Acceptor, C: Clock, O: Sink>(
    alloc: Global,
    session: &mut Session<P>,
    clock: &mut C,
    acceptor: &mut A,
    out: &mut O,
) -> Ended
    requires { session.old.line ≡ new_line session.old.daemon.state.config.limit }
    ensures { ServesAt (record { address = A.address; ready = A.ready; given = A.given; faults = A.fault_count; wires = λ (link : A.Link). wire (A.Link.ahead link) (A.Link.written link) (A.Link.fault_count link); number = A.Link.number_of }) (λ text. Told (WritesAll text) (O.written out.old) (O.written out.new)) (Rose (O.fault_count out.old) (O.fault_count out.new)) (record { session = session.old; last = session.new; moments = C.moments clock.old; moments_left = C.moments clock.new; pauses = C.pauses clock.old; pauses_made = C.pauses clock.new }) acceptor.old result }
{
    match print_listening(alloc, out, acceptor.local_addr()) {
        Ended::Status(_) => served_end(serve_links(alloc, session, clock, acceptor, IDLE_TIME)),
        refused => refused,
    }
}

/// Makes an acceptor for the address, and serves the links that it gives.
fn listen<P: Parts, M: AcceptorMaker, C: Clock, O: Sink>(
    alloc: Global,
    session: &mut Session<P>,
    clock: &mut C,
    maker: &mut M,
    addr: &SocketAddr,
    out: &mut O,
) -> Ended
    requires { session.old.line ≡ new_line session.old.daemon.state.config.limit }
    ensures { Listens (record { address = M.Acceptor.address; ready = M.Acceptor.ready; given = M.Acceptor.given; faults = M.Acceptor.fault_count; wires = λ (link : M.Acceptor.Link). wire (M.Acceptor.Link.ahead link) (M.Acceptor.Link.written link) (M.Acceptor.Link.fault_count link); number = M.Acceptor.Link.number_of }) M.fault_count addr.now (λ text. Told (WritesAll text) (O.written out.old) (O.written out.new)) (Rose (O.fault_count out.old) (O.fault_count out.new)) (out.new ≡ out.old) (record { session = session.old; last = session.new; moments = C.moments clock.old; moments_left = C.moments clock.new; pauses = C.pauses clock.old; pauses_made = C.pauses clock.new }) maker.old result }
{
    match maker.make(addr) {
        Ok(mut acceptor) => serve_at(alloc, session, clock, &mut acceptor, out),
        Err(error) => unheard_end(error),
    }
}

/// A daemon over the store in a folder, from what is outside. Its commands take their tokens of a client of their own, of as many,
/// since a run holds a token of the daemon while its command waits for one of the client.
fn daemon<X: Outside>(
    outside: &mut X,
    dir: &ByteText,
    bytes: u64,
    tokens: u64,
) -> Result<Daemon<CommandParts<X::Creator, X::Files, X::Disk, X::Probe>>, MakeError>
where
    <X::Creator as CommandCreator>::Cmd: Drop,
    requires { (1 ≤ tokens) × (tokens ≤ 65535) }
    ensures made { IfOk result (IsServerDaemon dir.now bytes tokens) }
    ensures idle { IfOk result IsIdleDaemon }
    ensures same { X.around outside.new ≡ X.around outside.old }
    ensures cause { MakeCause (X.fault_count outside.old) (X.fault_count outside.new) result }
{
    let alloc = outside.alloc();
    let client = Client::new(alloc, tokens)?;
    let creator = outside.creator(&client)?;
    let files = outside.files()?;
    let finder = outside.probe()?;
    let (main, pre) = outside.disks(dir)?;
    let levels = disk_levels(alloc, main, pre, bytes)?;
    let owned = daemon_over(levels, creator, files, finder, tokens);
    let daemon = Daemon::new(alloc, owned)?;
    Ok(daemon)
}

/// A clock, and what makes acceptors, from what is outside.
fn clock_and_maker<X: Outside>(outside: &mut X) -> Result<(X::Clock, X::AcceptorMaker), MakeError>
    ensures same { X.around outside.new ≡ X.around outside.old }
    ensures later { X.fault_count outside.old ≤ X.fault_count outside.new }
    ensures cause { MakeCause (X.fault_count outside.old) (X.fault_count outside.new) result }
{
    let clock = outside.clock()?;
    let maker = outside.acceptor_maker()?;
    Ok((clock, maker))
}

/// Serves by a session, at the address.
fn serve_session<X: Outside, P: Parts, O: Sink>(
    outside: &mut X,
    session: &mut Session<P>,
    addr: &SocketAddr,
    out: &mut O,
) -> Ended
    requires { session.old.line ≡ new_line session.old.daemon.state.config.limit }
    ensures ends { ServesBy (record { address = X.AcceptorMaker.Acceptor.address; ready = X.AcceptorMaker.Acceptor.ready; given = X.AcceptorMaker.Acceptor.given; faults = X.AcceptorMaker.Acceptor.fault_count; wires = λ (link : X.AcceptorMaker.Acceptor.Link). wire (X.AcceptorMaker.Acceptor.Link.ahead link) (X.AcceptorMaker.Acceptor.Link.written link) (X.AcceptorMaker.Acceptor.Link.fault_count link); number = X.AcceptorMaker.Acceptor.Link.number_of }) X.AcceptorMaker.fault_count X.Clock.moments X.Clock.pauses addr.now (λ text. Told (WritesAll text) (O.written out.old) (O.written out.new)) (Rose (O.fault_count out.old) (O.fault_count out.new)) (out.new ≡ out.old) (X.fault_count outside.old) (X.fault_count outside.new) session.old session.new result }
    ensures later { X.fault_count outside.old ≤ X.fault_count outside.new }
    ensures same { X.around outside.new ≡ X.around outside.old }
{
    let alloc = outside.alloc();
    match clock_and_maker(outside) {
        Ok((mut clock, mut maker)) => listen(alloc, session, &mut clock, &mut maker, addr, out),
        Err(error) => unmade_end(error),
    }
}

/// Drops a session in a call of its own: dropped where it is used it takes the check minutes.
fn discard_session<P: Parts>(session: Session<P>) {
    drop(session);
}

/// Serves by a daemon that was just made, at the address.
fn serve_by<X: Outside, P: Parts, O: Sink>(
    outside: &mut X,
    daemon: Daemon<P>,
    addr: &SocketAddr,
    out: &mut O,
) -> Ended
    requires { IsIdleDaemon daemon }
    ensures ends { ServesDaemon (record { address = X.AcceptorMaker.Acceptor.address; ready = X.AcceptorMaker.Acceptor.ready; given = X.AcceptorMaker.Acceptor.given; faults = X.AcceptorMaker.Acceptor.fault_count; wires = λ (link : X.AcceptorMaker.Acceptor.Link). wire (X.AcceptorMaker.Acceptor.Link.ahead link) (X.AcceptorMaker.Acceptor.Link.written link) (X.AcceptorMaker.Acceptor.Link.fault_count link); number = X.AcceptorMaker.Acceptor.Link.number_of }) X.AcceptorMaker.fault_count X.Clock.moments X.Clock.pauses addr.now (λ text. Told (WritesAll text) (O.written out.old) (O.written out.new)) (Rose (O.fault_count out.old) (O.fault_count out.new)) (out.new ≡ out.old) (X.fault_count outside.old) (X.fault_count outside.new) daemon result }
    ensures later { X.fault_count outside.old ≤ X.fault_count outside.new }
    ensures same { X.around outside.new ≡ X.around outside.old }
{
    let mut session = Session::new(outside.alloc(), daemon);
    let ended = serve_session(outside, &mut session, addr, out);
    discard_session(session);
    ended
}

/// Serves the clients that connect at an address, one link after the other, by one store in a folder, whose files take at most
/// `bytes` bytes, with at most `tokens` compilers at once (1 to 65,535). The folder is made where it isn't there, then the acceptor;
/// then the address is printed, and only then links are taken. It ends with `Status(0)` once it was asked to stop, or no request came
/// for ten minutes. `LinkFault` where a part can't be made, somebody listens at the address, or the acceptor refuses.
pub fn run_serve<X: Outside, O: Sink>(
    outside: &mut X,
    addr: &SocketAddr,
    dir: &ByteText,
    bytes: u64,
    tokens: u64,
    out: &mut O,
) -> Ended
where
    <X::Creator as CommandCreator>::Cmd: Drop,
    requires { (1 ≤ tokens) × (tokens ≤ 65535) }
    ensures ends { ServesDir dir.now bytes tokens (record { address = X.AcceptorMaker.Acceptor.address; ready = X.AcceptorMaker.Acceptor.ready; given = X.AcceptorMaker.Acceptor.given; faults = X.AcceptorMaker.Acceptor.fault_count; wires = λ (link : X.AcceptorMaker.Acceptor.Link). wire (X.AcceptorMaker.Acceptor.Link.ahead link) (X.AcceptorMaker.Acceptor.Link.written link) (X.AcceptorMaker.Acceptor.Link.fault_count link); number = X.AcceptorMaker.Acceptor.Link.number_of }) X.AcceptorMaker.fault_count X.Clock.moments X.Clock.pauses addr.now (λ text. Told (WritesAll text) (O.written out.old) (O.written out.new)) (Rose (O.fault_count out.old) (O.fault_count out.new)) (out.new ≡ out.old) (X.fault_count outside.old) (X.fault_count outside.new) result }
    ensures same { X.around outside.new ≡ X.around outside.old }
{
    match daemon(outside, dir, bytes, tokens) {
        Ok(daemon) => serve_by(outside, daemon, addr, out),
        Err(error) => unmade_end(error),
    }
}
