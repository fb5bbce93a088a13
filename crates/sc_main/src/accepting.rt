//! All the links of a server, one after the other.
ghost use Rattle.std.specs.Prelude.{◌≡◌, ◌<◌, ◌≤◌, true, None, IfOk, length};
ghost use Rattle.sc_daemon.specs.Lines.{new_line};
ghost use Rattle.sc_main.specs.Accepting.{AcceptsNext, EndsServing, IfServed, ServesFrom, desk, polled_after};
ghost use Rattle.sc_main.specs.Serving.{wire};

use crate::after_accept::AfterAccept;
use crate::serve_error::ServeError;
use crate::serving::serve_one;
use sc_clock::Clock;
use sc_daemon::Session;
use sc_daemon_owned::Parts;
use sc_link::{Accepted, Acceptor};
use sc_server_activity::{Messages, ShutdownOrInactive, StopCause};
use std::alloc::Global;

/// The most bytes that are read of a link at a time.
const PIECE: usize = 65_536;

/// How long a server pauses where no client waits, in nanoseconds.
const PAUSE: u64 = 10_000_000;

/// Accepts a link, if a client waits, and serves it. Once no link will be given any more it asks for none.
fn serve_next<P: Parts, A: Acceptor, C: Clock>(
    last: AfterAccept,
    alloc: Global,
    session: &mut Session<P>,
    clock: &mut C,
    acceptor: &mut A,
    messages: &mut Messages,
    wait: &mut ShutdownOrInactive,
    buffer: &mut [u8],
) -> Result<AfterAccept, ServeError>
    requires line { session.old.line ≡ new_line session.old.daemon.state.config.limit }
    requires room { 0 < length buffer.old }
    ensures next { AcceptsNext (λ (link : A.Link). wire (A.Link.ahead link) (A.Link.written link) (A.Link.fault_count link)) (λ (link : A.Link). A.Link.number_of link) (record { ready = A.ready acceptor.old; given = A.given acceptor.old }) (record { ready = A.ready acceptor.new; given = A.given acceptor.new }) (A.fault_count acceptor.old) (A.fault_count acceptor.new) (desk session.old (record { messages = messages.old; wait = wait.old; is_polled = true }) (C.moments clock.old) (C.pauses clock.old)) (desk session.new (record { messages = messages.new; wait = wait.new; is_polled = polled_after result }) (C.moments clock.new) (C.pauses clock.new)) result }
    ensures later { A.fault_count acceptor.old ≤ A.fault_count acceptor.new }
    ensures line { IfOk result (λ _. session.new.line ≡ new_line session.new.daemon.state.config.limit) }
    ensures same_size { length buffer.new ≡ length buffer.old }
{
    if matches!(last, AfterAccept::Never) {
        return Ok(AfterAccept::Never);
    }
    match acceptor.accept()? {
        Accepted::Link(mut link) => {
            serve_one(alloc, session, clock, &mut link, messages, wait, buffer)?;
            session.renew(alloc);
            Ok(AfterAccept::Now)
        }
        Accepted::NotYet => Ok(AfterAccept::Later),
        Accepted::Closed => Ok(AfterAccept::Never),
    }
}

/// Accepts links and serves them, until a poll is ready.
fn serve_until<P: Parts, A: Acceptor, C: Clock>(
    alloc: Global,
    session: &mut Session<P>,
    clock: &mut C,
    acceptor: &mut A,
    messages: &mut Messages,
    wait: &mut ShutdownOrInactive,
    buffer: &mut [u8],
) -> Result<StopCause, ServeError>
    requires line { session.old.line ≡ new_line session.old.daemon.state.config.limit }
    requires room { 0 < length buffer.old }
    requires uncaused { wait.old.cause ≡ None }
    ensures later { A.fault_count acceptor.old ≤ A.fault_count acceptor.new }
    ensures ends { EndsServing (λ (link : A.Link). wire (A.Link.ahead link) (A.Link.written link) (A.Link.fault_count link)) (λ (link : A.Link). A.Link.number_of link) (record { ready = A.ready acceptor.old; given = A.given acceptor.old }) (record { ready = A.ready acceptor.new; given = A.given acceptor.new }) (A.fault_count acceptor.old) (A.fault_count acceptor.new) (desk session.old (record { messages = messages.old; wait = wait.old; is_polled = true }) (C.moments clock.old) (C.pauses clock.old)) (desk session.new (record { messages = messages.new; wait = wait.new; is_polled = true }) (C.moments clock.new) (C.pauses clock.new)) result }
{
    let mut next = AfterAccept::Now;
    for _turn in 0..u64::MAX {
        next = serve_next(
            next, alloc, session, clock, acceptor, messages, wait, buffer,
        )?;
        let now = clock.now();
        wait.poll(messages, now);
        if let Some(cause) = wait.cause() {
            return Ok(cause);
        }
        if matches!(next, AfterAccept::Now) {
            continue;
        }
        clock.pause(PAUSE)?;
    }
    // So many turns take longer than any machine lasts.
    Err(ServeError::NoMemory)
}

/// Serves all the links that the acceptor gives, one after the other, each over a connection of its own, until the server is to
/// stop: because of a request to shut down, or because no request came for the idle time, in nanoseconds (0: never). Behind each
/// link, and behind each pause of 10 milliseconds where no client waits, the messages are polled. It may run for ever.
///
/// # Errors
///
/// The acceptor refused, or memory ran out within an action or for the server itself. What ends a link ends that link alone.
pub fn serve_links<P: Parts, A: Acceptor, C: Clock>(
    alloc: Global,
    session: &mut Session<P>,
    clock: &mut C,
    acceptor: &mut A,
    idle_time: u64,
) -> Result<StopCause, ServeError>
    requires { session.old.line ≡ new_line session.old.daemon.state.config.limit }
    ensures later { A.fault_count acceptor.old ≤ A.fault_count acceptor.new }
    ensures serves { IfServed result (ServesFrom (λ (link : A.Link). wire (A.Link.ahead link) (A.Link.written link) (A.Link.fault_count link)) (λ (link : A.Link). A.Link.number_of link) (record { ready = A.ready acceptor.old; given = A.given acceptor.old }) (record { ready = A.ready acceptor.new; given = A.given acceptor.new }) (A.fault_count acceptor.old) (A.fault_count acceptor.new) idle_time session.old session.new (C.moments clock.old) (C.moments clock.new) (C.pauses clock.old) (C.pauses clock.new) result) }
{
    let mut buffer = vec![in alloc; 0u8; PIECE]?;
    let mut messages = Messages::new(alloc);
    let now = clock.now();
    let mut wait = ShutdownOrInactive::new(idle_time, now);
    serve_until(
        alloc,
        session,
        clock,
        acceptor,
        &mut messages,
        &mut wait,
        buffer.as_mut_slice(),
    )
}
