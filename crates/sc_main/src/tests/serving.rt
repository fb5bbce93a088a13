//! Links that are served: they get the frames of a drive over the same bytes, and what no clause says.
ghost use Rattle.std.specs.Prelude.{◌≡◌, ◌<◌, ℕ, true, None, IfOk, length};
ghost use Rattle.sc_daemon.specs.Daemons.{IsIdleDaemon};
ghost use Rattle.sc_daemon.specs.Lines.{new_line};
ghost use Rattle.sc_daemon_owned.specs.State.{reserved_in};

use crate::accepting::serve_links;
use crate::link_end::LinkEnd;
use crate::serve_error::ServeError;
use crate::serving::serve_one;
use sc_clock::{Clock, MemClock};
use sc_daemon::{Daemon, Driven, Session, drive};
use sc_daemon_owned::Parts;
use sc_entry::{ByteText, Calls, Items, Queue};
use sc_link::{AcceptFault, Accepted, Acceptor, Link, MemAcceptor, MemLink};
use sc_main_memory::{Made, Memory, make};
use sc_main_script::{read_script, read_scripts_are_good};
use sc_model::Step;
use sc_server_activity::{Messages, ShutdownOrInactive, StopCause};
use sc_wire_address::SocketAddr;
use sc_wire_conn::End;
use std::alloc::Global;
use std::test::Fail;

/// A compile that misses, one that hits, one that fails, and the statistics.
const COMPILES: &[u8] = b"script 1
conns 1
level disk 1000 rw
tool /cc 1 gcc
run key1 0 hi - obj=AB
run key2 1 - bad
ask 0 compile /cc / -- --key key1 --out obj=/o -- a.c
ask 0 compile /cc / -- --key key1 --out obj=/o -- a.c
ask 0 compile /cc / -- --key key2 --out obj=/o -- a.c
ask 0 get-stats
read 0 100000
serve 0 1000
read 0 1
";

/// A request behind a request to shut down.
const SHUTDOWN: &[u8] = b"script 1
conns 1
level disk 1000 rw
ask 0 get-stats
ask 0 shutdown
ask 0 zero-stats
read 0 100000
serve 0 1000
";

/// The same without that request.
const STOP: &[u8] = b"script 1
conns 1
level disk 1000 rw
ask 0 get-stats
ask 0 shutdown
read 0 100000
serve 0 1000
";

/// The frame of a request to shut down.
const SHUTDOWN_FRAME: &[u8] = &[0, 0, 0, 4, 3, 0, 0, 0];

/// A frame that is no request, and a request behind it.
const BAD: &[u8] = &[0, 0, 0, 1, 9, 0, 0, 0, 4, 1, 0, 0, 0];

/// An idle time of ten minutes.
const IDLE: u64 = 600_000_000_000;

// What is wide is dropped in calls of their own: dropped where it is used it takes the check minutes.

fn discard_daemon<P: Parts>(daemon: Daemon<P>) {
    drop(daemon);
}

fn discard_session<P: Parts>(session: Session<P>) {
    drop(session);
}

fn discard_driven(driven: Driven) {
    drop(driven);
}

/// What comes over a link, and the frames that it gets.
#[derive(Drop)]
struct Talk {
    input: ByteText,
    frames: ByteText,
}

/// What a script makes.
fn make_by(alloc: Global, script: &[u8]) -> Result<Made, Fail>
    ensures told { IfOk result (λ made. made.owned.told ≡ true) }
    ensures unreserved { IfOk result (λ made. (level : ℕ) → reserved_in made.owned level ≡ 0) }
{
    read_scripts_are_good();
    let script = read_script(alloc, script)?;
    Ok(make(alloc, script)?)
}

/// The talk of a drive's first connection.
fn first_talk(driven: &Driven, inputs: &[ByteText]) -> Result<Talk, Fail> {
    let input = inputs.first().ok_or("no input")?;
    let conn = driven.conns.get(0).ok_or("no connection")?;
    let input = input.try_clone()?;
    let frames = conn.sent.try_clone()?;
    Ok(Talk { input, frames })
}

/// The same of a drive of a daemon.
fn driven_talk<P: Parts>(
    alloc: Global,
    daemon: &mut Daemon<P>,
    inputs: &[ByteText],
    steps: &[Step],
) -> Result<Talk, Fail>
    requires idle { IsIdleDaemon daemon.old }
    requires told { daemon.old.state.told ≡ true }
{
    let driven = drive(alloc, daemon, inputs, steps)?;
    let first = first_talk(&driven, inputs);
    discard_driven(driven);
    first
}

/// The same of a drive by a script.
fn talk_of(alloc: Global, script: &[u8]) -> Result<Talk, Fail> {
    let made = make_by(alloc, script)?;
    let Made {
        owned,
        inputs,
        steps,
    } = made;
    let mut daemon = Daemon::new(alloc, owned)?;
    let first = driven_talk(alloc, &mut daemon, inputs.as_slice(), steps.as_slice());
    discard_daemon(daemon);
    first
}

/// A session of a daemon that is idle.
fn session_over<P: Parts>(alloc: Global, daemon: Daemon<P>) -> Result<Session<P>, Fail>
    ensures { IfOk result (λ session. session.line ≡ new_line session.daemon.state.config.limit) }
{
    if daemon.is_idle() {
        return Ok(Session::new(alloc, daemon));
    }
    discard_daemon(daemon);
    Err(Fail::from("it isn't idle"))
}

/// The daemon of a script.
fn daemon_of(alloc: Global, script: &[u8]) -> Result<Daemon<Memory>, Fail> {
    let made = make_by(alloc, script)?;
    let daemon = Daemon::new(alloc, made.owned)?;
    Ok(daemon)
}

/// A session of a script's daemon.
fn session_of(alloc: Global, script: &[u8]) -> Result<Session<Memory>, Fail>
    ensures { IfOk result (λ session. session.line ≡ new_line session.daemon.state.config.limit) }
{
    let daemon = daemon_of(alloc, script)?;
    let session = session_over(alloc, daemon)?;
    Ok(session)
}

/// An end in a word.
fn word(end: LinkEnd) -> &'static str {
    match end {
        LinkEnd::Over(End::Open) => "open",
        LinkEnd::Over(End::Ended) => "ended",
        LinkEnd::Over(End::EndInFrame) => "end in frame",
        LinkEnd::Over(End::BadFrame) => "bad frame",
        LinkEnd::Over(End::ReplyTooLong(_)) => "reply too long",
        LinkEnd::Stopped => "stopped",
        LinkEnd::NoMemory => "no memory",
        LinkEnd::ReadFault => "read fault",
        LinkEnd::WriteFault => "write fault",
    }
}

/// What the serving of a link came to.
#[derive(Clone, Copy, Drop)]
struct LinkSeen {
    end: &'static str,
    cause: Option<StopCause>,
    /// How many compiles the statistics count.
    compiles: u64,
    is_idle: bool,
}

/// Serves a link with these.
fn serve_with<P: Parts, K: Link, C: Clock>(
    alloc: Global,
    session: &mut Session<P>,
    clock: &mut C,
    link: &mut K,
    messages: &mut Messages,
    wait: &mut ShutdownOrInactive,
    buffer: &mut [u8],
) -> Result<LinkSeen, Fail>
    requires line { session.old.line ≡ new_line session.old.daemon.state.config.limit }
    requires room { 0 < length buffer.old }
{
    let end = serve_one(alloc, session, clock, link, messages, wait, buffer)?;
    Ok(LinkSeen {
        end: word(end),
        cause: wait.cause(),
        compiles: session.daemon().stats().compile_requests,
        is_idle: session.daemon().is_idle(),
    })
}

/// Serves a link by a clock that stands still.
fn serve<P: Parts, K: Link>(
    alloc: Global,
    session: &mut Session<P>,
    link: &mut K,
    buffer: &mut [u8],
) -> Result<LinkSeen, Fail>
    requires line { session.old.line ≡ new_line session.old.daemon.state.config.limit }
    requires room { 0 < length buffer.old }
{
    let mut clock = MemClock::new(alloc, Items::new(alloc));
    let mut messages = Messages::new(alloc);
    let mut wait = ShutdownOrInactive::new(0, 0);
    serve_with(
        alloc,
        session,
        &mut clock,
        link,
        &mut messages,
        &mut wait,
        buffer,
    )
}

/// Serves a link over the daemon of a script.
fn serve_by<K: Link>(
    alloc: Global,
    script: &[u8],
    link: &mut K,
    buffer: &mut [u8],
) -> Result<LinkSeen, Fail> {
    if buffer.is_empty() {
        return Err(Fail::from("no room"));
    }
    let mut session = session_of(alloc, script)?;
    let seen = serve(alloc, &mut session, link, buffer);
    discard_session(session);
    seen
}

/// Serves a link by pieces of this size: it must get these frames.
fn serve_frames(
    alloc: Global,
    script: &[u8],
    link: &mut MemLink,
    size: usize,
    frames: &[u8],
) -> Result<LinkSeen, Fail> {
    let mut buffer = vec![in alloc; 0u8; size]?;
    let seen = serve_by(alloc, script, link, buffer.as_mut_slice())?;
    if link.written() == frames {
        return Ok(seen);
    }
    Err(Fail::from("other frames"))
}

/// Calls that are refused at this number; 0 is none.
fn calls(alloc: Global, refused: u64) -> Result<Calls, Fail> {
    let mut numbers = Items::new(alloc);
    numbers.push(refused)?;
    Ok(Calls::failing_at(alloc, numbers)?)
}

/// A link over which these bytes come, and more behind them. It refuses the call of this number; 0 is none.
fn link(alloc: Global, bytes: &[u8], more: &[u8], refused: u64) -> Result<MemLink, Fail> {
    let calls = calls(alloc, refused)?;
    let bytes = ByteText::from_vec([bytes, more].concat(alloc)?);
    Ok(MemLink::new(alloc, bytes, calls))
}

/// Serves the compiles, and more bytes behind them, which get no frame, by pieces of this size. The link refuses this call; it
/// gets so many bytes, or all.
fn serve_compiles(
    alloc: Global,
    talk: &Talk,
    more: &[u8],
    size: usize,
    refused: u64,
    count: Option<usize>,
) -> Result<LinkSeen, Fail> {
    let frames = talk.frames.as_slice();
    let front = frames.get(..count.unwrap_or(frames.len()));
    let front = front.ok_or("too few frames")?;
    let mut link = link(alloc, talk.input.as_slice(), more, refused)?;
    serve_frames(alloc, COMPILES, &mut link, size, front)
}

/// What is behind the compiles, the size of a piece, and the end.
const ENDS: [(&[u8], usize, &str); 4] = [
    (b"", 512, "ended"),
    (b"", 1, "ended"),
    (BAD, 512, "bad frame"),
    (&[0, 0], 100, "end in frame"),
];

/// Nothing behind a bad frame is answered.
#[test]
fn compiles(rt: HostRuntime) -> Result<(), Fail> {
    let talk = talk_of(rt.alloc(), COMPILES)?;
    for (more, size, end) in ENDS {
        let seen = serve_compiles(rt.alloc(), &talk, more, size, 0, None)?;
        assert_eq!(rt; seen.end, end);
        assert!(rt;
            seen.compiles == 3 && seen.is_idle && seen.cause.is_none(),
            "{end}"
        );
    }
    Ok(())
}

/// The call that is refused, the end, how many compiles are counted, and how many bytes are written, where not all are.
const REFUSALS: [(u64, &str, u64, Option<usize>); 10] = [
    (1, "read fault", 0, Some(0)),
    (2, "write fault", 3, Some(0)),
    (3, "write fault", 3, Some(12)),
    (4, "write fault", 3, Some(48)),
    (5, "write fault", 3, Some(60)),
    (6, "write fault", 3, Some(96)),
    (7, "write fault", 3, Some(108)),
    (8, "write fault", 3, Some(145)),
    (9, "read fault", 3, None),
    (10, "ended", 3, None),
];

/// A read, then seven answers, each by one write, and the end. Behind a refused write nothing is written; but each request is
/// served to its end.
#[test]
fn each_call_refused(rt: HostRuntime) -> Result<(), Fail> {
    let talk = talk_of(rt.alloc(), COMPILES)?;
    for (number, end, compiles, count) in REFUSALS {
        let seen = serve_compiles(rt.alloc(), &talk, b"", 512, number, count)?;
        assert_eq!(rt; seen.end, end, "at {number}");
        assert!(rt; seen.compiles == compiles && seen.is_idle, "at {number}");
    }
    Ok(())
}

/// Serves a request to shut down and one behind it by pieces of this size: the link must get the frames of a drive by this script.
fn serve_shutdown(alloc: Global, script: &[u8], size: usize) -> Result<LinkSeen, Fail> {
    let whole = talk_of(alloc, SHUTDOWN)?;
    let wanted = talk_of(alloc, script)?;
    let mut link = link(alloc, whole.input.as_slice(), b"", 0)?;
    serve_frames(alloc, SHUTDOWN, &mut link, size, wanted.frames.as_slice())
}

/// What came in one piece with the request to shut down is answered. What would come in a later piece is not read.
#[test]
fn a_shutdown(rt: HostRuntime) -> Result<(), Fail> {
    for (script, size) in [(SHUTDOWN, 512), (STOP, 1)] {
        let seen = serve_shutdown(rt.alloc(), script, size)?;
        assert_eq!(rt; seen.end, "stopped");
        assert!(rt;
            seen.cause == Some(StopCause::Shutdown) && seen.is_idle,
            "{size}"
        );
    }
    Ok(())
}

/// What a server of links came to.
#[derive(Clone, Copy, Drop)]
struct ServerSeen {
    cause: Option<StopCause>,
    /// Whether the acceptor refused.
    is_refused: bool,
    /// How many compiles the statistics count, and how many of them were stored.
    compiles: u64,
    writes: u64,
    /// How often it paused, and whether each pause was as long as it should be.
    pauses: usize,
    are_short: bool,
}

fn server_seen<P: Parts>(
    session: &Session<P>,
    pauses: &[u64],
    ending: Result<StopCause, ServeError>,
) -> ServerSeen {
    ServerSeen {
        cause: ending.ok(),
        is_refused: matches!(ending, Err(ServeError::AcceptFault)),
        compiles: session.daemon().stats().compile_requests,
        writes: session.daemon().stats().cache_writes,
        pauses: pauses.len(),
        are_short: pauses.iter().all(|pause| *pause == 10_000_000),
    }
}

/// Serves the links of an acceptor by a session.
fn serve_accepted<P: Parts, A: Acceptor>(
    alloc: Global,
    session: &mut Session<P>,
    acceptor: &mut A,
    clock: &mut MemClock,
) -> ServerSeen
    requires { session.old.line ≡ new_line session.old.daemon.state.config.limit }
{
    let ending = serve_links(alloc, session, clock, acceptor, IDLE);
    server_seen(session, clock.pauses(), ending)
}

fn clock_of(alloc: Global, moments: &[u64]) -> Result<MemClock, Fail> {
    let moments = Items::from_vec(moments.to_vec(alloc)?);
    Ok(MemClock::new(alloc, moments))
}

/// Serves the links of an acceptor, by a clock of these moments.
fn serve_all<A: Acceptor>(
    alloc: Global,
    acceptor: &mut A,
    moments: &[u64],
) -> Result<ServerSeen, Fail> {
    let mut clock = clock_of(alloc, moments)?;
    let mut session = session_of(alloc, COMPILES)?;
    let seen = serve_accepted(alloc, &mut session, acceptor, &mut clock);
    discard_session(session);
    Ok(seen)
}

fn links(alloc: Global, inputs: &[&[u8]]) -> Result<Queue<MemLink>, Fail> {
    let mut links = Queue::new(alloc);
    for input in inputs {
        links.push_back(link(alloc, input, b"", 0)?)?;
    }
    Ok(links)
}

/// An acceptor that gives links over which these bytes come, and refuses this call; 0 is none.
fn acceptor(alloc: Global, inputs: &[&[u8]], refused: u64) -> Result<MemAcceptor, Fail> {
    let calls = calls(alloc, refused)?;
    let links = links(alloc, inputs)?;
    Ok(MemAcceptor::new(SocketAddr::with_port(4226), links, calls))
}

/// Serves the links of such an acceptor, by a clock of these moments.
fn serve_inputs(
    alloc: Global,
    inputs: &[&[u8]],
    refused: u64,
    moments: &[u64],
) -> Result<ServerSeen, Fail> {
    let mut acceptor = acceptor(alloc, inputs, refused)?;
    serve_all(alloc, &mut acceptor, moments)
}

/// Two links of the compiles: the first stores one of three, and the second finds it. A third link is shut down, and the fourth
/// isn't accepted.
#[test]
fn links_in_turn(rt: HostRuntime) -> Result<(), Fail> {
    let talk = talk_of(rt.alloc(), COMPILES)?;
    let input = talk.input.as_slice();
    let seen = serve_inputs(rt.alloc(), &[input, input, SHUTDOWN_FRAME, input], 4, &[])?;
    assert!(rt; seen.cause == Some(StopCause::Shutdown));
    assert!(rt; seen.compiles == 6 && seen.writes == 1 && seen.pauses == 0);
    Ok(())
}

/// A refused acceptor ends the server.
#[test]
fn a_refused_link(rt: HostRuntime) -> Result<(), Fail> {
    let talk = talk_of(rt.alloc(), COMPILES)?;
    let input = talk.input.as_slice();
    let seen = serve_inputs(rt.alloc(), &[input, input], 2, &[])?;
    assert!(rt; seen.is_refused && seen.compiles == 3);
    Ok(())
}

/// No link will come, so the acceptor isn't asked again, and the idle time passes at the third poll.
#[test]
fn idle_for_ten_minutes(rt: HostRuntime) -> Result<(), Fail> {
    let seen = serve_inputs(rt.alloc(), &[], 2, &[5, 6, IDLE, IDLE + 5])?;
    assert!(rt; seen.cause == Some(StopCause::Idle));
    assert!(rt; seen.pauses == 2 && seen.are_short);
    Ok(())
}

/// An acceptor whose clients come late: none waits for the first calls, and then those of another acceptor do.
#[derive(Drop)]
struct LateAcceptor {
    calls_before: u64,
    then: MemAcceptor,
}

impl Acceptor for LateAcceptor {
    type Link = MemLink;

    ghost ready = { λ _. None };

    ghost given = { λ a. a.then.given };

    ghost address = { λ a. a.then.address };

    ghost fault_count = { λ a. a.then.calls.faults };

    fn faults(&self) -> u64 {
        self.then.faults()
    }

    fn local_addr(&self) -> &SocketAddr {
        self.then.local_addr()
    }

    fn accept(&mut self) -> Result<Accepted<MemLink>, AcceptFault> {
        if self.calls_before > 0 {
            self.calls_before -= 1;
            return Ok(Accepted::NotYet);
        }
        match self.then.accept()? {
            Accepted::Link(link) => Ok(Accepted::Link(link)),
            Accepted::NotYet | Accepted::Closed => Ok(Accepted::NotYet),
        }
    }
}

/// Serves a link that is shut down, and for which so many calls are too early.
fn serve_late(alloc: Global, calls_before: u64) -> Result<ServerSeen, Fail> {
    let then = acceptor(alloc, &[SHUTDOWN_FRAME], 0)?;
    let mut acceptor = LateAcceptor { calls_before, then };
    serve_all(alloc, &mut acceptor, &[])
}

/// The server pauses as often as no client waits.
#[test]
fn a_late_link(rt: HostRuntime) -> Result<(), Fail> {
    let seen = serve_late(rt.alloc(), 3)?;
    assert!(rt; seen.cause == Some(StopCause::Shutdown));
    assert!(rt; seen.pauses == 3 && seen.are_short);
    Ok(())
}
