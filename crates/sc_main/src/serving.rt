//! One link, from its first byte until it is left.
ghost use Rattle.std.specs.Prelude.{◌≡◌, ◌<◌, ◌++◌, ℕ, true, false, List, Option, None, IfOk, length};
ghost use Rattle.sc_daemon.specs.Lines.{IsDone, new_line};
ghost use Rattle.sc_daemon.specs.Turns.{IsIdleLine};
ghost use Rattle.sc_entry.specs.Causes.{Told};
ghost use Rattle.sc_main.specs.Progress.{EndsNow, Leaves, Scene, SoFar, scene};
ghost use Rattle.sc_main.specs.Serving.{ServesLink, wire};

use crate::answering::{answer_all, raise, write_all_handed};
use crate::link_end::LinkEnd;
use sc_clock::Clock;
use sc_daemon::Session;
use sc_daemon_owned::Parts;
use sc_entry::NoMemory;
use sc_link::Link;
use sc_server_activity::{Messages, ShutdownOrInactive};
use std::alloc::Global;

/// How a link is left of which nothing more is to be read, where that is so.
fn end_so_far<P: Parts>(session: &Session<P>, wait: &ShutdownOrInactive) -> Option<LinkEnd>
    ensures end { EndsNow result session.now.line wait.now }
{
    if session.is_over() {
        return Some(LinkEnd::Over(session.end()));
    }
    if wait.cause().is_some() {
        return Some(LinkEnd::Stopped);
    }
    None
}

/// Takes a piece, and answers the requests that are whole by then. Says what was refused.
fn take_piece<P: Parts, K: Link, C: Clock>(
    alloc: Global,
    session: &mut Session<P>,
    clock: &mut C,
    link: &mut K,
    messages: &mut Messages,
    piece: &[u8],
) -> Result<Option<LinkEnd>, NoMemory>
    requires going { IsDone session.old.line → ⊥ }
    requires idle { IsIdleLine session.old.daemon.free session.old.line }
    ensures serves { IfOk result (λ refused. (first : Scene) (wait : ShutdownOrInactive) (ahead : Option (List ℕ)) → wait.cause ≡ None → Told (λ before after. before ≡ piece.now ++ after) ahead (K.ahead link.old) → SoFar None first (scene session.old (record { messages = messages.old; wait = wait; is_polled = true }) (C.moments clock.old) (wire ahead (K.written link.old) (K.fault_count link.old))) → SoFar refused first (scene session.new (record { messages = messages.new; wait = wait; is_polled = false }) (C.moments clock.new) (wire (K.ahead link.new) (K.written link.new) (K.fault_count link.new)))) }
    ensures idle { IfOk result (λ _. IsIdleLine session.new.daemon.free session.new.line) }
    ensures pauses { C.pauses clock.new ≡ C.pauses clock.old }
    ensures same_shut { K.is_shut link.new ≡ K.is_shut link.old }
    ensures same_number { K.number_of link.new ≡ K.number_of link.old }
{
    let Ok(()) = session.feed(alloc, piece) else {
        return Ok(Some(LinkEnd::NoMemory));
    };
    let refused = answer_all(alloc, session, clock, link, messages)?;
    Ok(refused)
}

/// Takes a piece, answers the requests that are whole by then, and polls. Says what was refused.
fn serve_piece<P: Parts, K: Link, C: Clock>(
    alloc: Global,
    session: &mut Session<P>,
    clock: &mut C,
    link: &mut K,
    messages: &mut Messages,
    wait: &mut ShutdownOrInactive,
    piece: &[u8],
) -> Result<Option<LinkEnd>, NoMemory>
    requires going { IsDone session.old.line → ⊥ }
    requires idle { IsIdleLine session.old.daemon.free session.old.line }
    requires uncaused { wait.old.cause ≡ None }
    ensures serves { IfOk result (λ refused. (first : Scene) (ahead : Option (List ℕ)) → Told (λ before after. before ≡ piece.now ++ after) ahead (K.ahead link.old) → SoFar None first (scene session.old (record { messages = messages.old; wait = wait.old; is_polled = true }) (C.moments clock.old) (wire ahead (K.written link.old) (K.fault_count link.old))) → SoFar refused first (scene session.new (record { messages = messages.new; wait = wait.new; is_polled = true }) (C.moments clock.new) (wire (K.ahead link.new) (K.written link.new) (K.fault_count link.new)))) }
    ensures idle { IfOk result (λ _. IsIdleLine session.new.daemon.free session.new.line) }
    ensures pauses { C.pauses clock.new ≡ C.pauses clock.old }
    ensures same_shut { K.is_shut link.new ≡ K.is_shut link.old }
    ensures same_number { K.number_of link.new ≡ K.number_of link.old }
{
    let refused = take_piece(alloc, session, clock, link, messages, piece)?;
    let now = clock.now();
    wait.poll(messages, now);
    Ok(refused)
}

/// Reads the link piece by piece, and serves each.
fn serve_pieces<P: Parts, K: Link, C: Clock>(
    alloc: Global,
    session: &mut Session<P>,
    clock: &mut C,
    link: &mut K,
    messages: &mut Messages,
    wait: &mut ShutdownOrInactive,
    buffer: &mut [u8],
) -> Result<LinkEnd, NoMemory>
    requires idle { IsIdleLine session.old.daemon.free session.old.line }
    requires room { 0 < length buffer.old }
    ensures leaves { IfOk result (λ end. (first : Scene) → SoFar None first (scene session.old (record { messages = messages.old; wait = wait.old; is_polled = true }) (C.moments clock.old) (wire (K.ahead link.old) (K.written link.old) (K.fault_count link.old))) → Leaves end first (scene session.new (record { messages = messages.new; wait = wait.new; is_polled = true }) (C.moments clock.new) (wire (K.ahead link.new) (K.written link.new) (K.fault_count link.new)))) }
    ensures idle { IfOk result (λ _. IsIdleLine session.new.daemon.free session.new.line) }
    ensures pauses { C.pauses clock.new ≡ C.pauses clock.old }
    ensures same_shut { K.is_shut link.new ≡ K.is_shut link.old }
    ensures same_number { K.number_of link.new ≡ K.number_of link.old }
    ensures same_size { length buffer.new ≡ length buffer.old }
{
    for _piece in 0..u64::MAX {
        if let Some(end) = end_so_far(session, wait) {
            return Ok(end);
        }
        let Ok(count) = link.read(buffer) else {
            return Ok(LinkEnd::ReadFault);
        };
        if count == 0 {
            session.shut();
            continue;
        }
        let piece = &buffer[..count];
        let refused = serve_piece(alloc, session, clock, link, messages, wait, piece)?;
        if let Some(end) = refused {
            return Ok(end);
        }
    }
    // So many pieces are more bytes than a connection takes.
    Ok(LinkEnd::NoMemory)
}

/// Serves a link over a connection that nothing came over. The session's moment is raised to the clock's at once, and before
/// each action. Pieces of at most the buffer's size are read; the requests of each are answered before the next is read, those
/// behind a request to shut down too, and then the messages are polled: where the server is to stop, nothing more is read. At
/// last the writes that were handed on are done, until none is left.
///
/// # Errors
///
/// Memory ran out within an action: what it had taken can't be given back, so the session does nothing more. Want of memory that
/// touches this link alone is an end of the link.
pub fn serve_one<P: Parts, K: Link, C: Clock>(
    alloc: Global,
    session: &mut Session<P>,
    clock: &mut C,
    link: &mut K,
    messages: &mut Messages,
    wait: &mut ShutdownOrInactive,
    buffer: &mut [u8],
) -> Result<LinkEnd, NoMemory>
    requires line { session.old.line ≡ new_line session.old.daemon.state.config.limit }
    requires room { 0 < length buffer.old }
    ensures serves { IfOk result (λ end. ServesLink end (wire (K.ahead link.old) (K.written link.old) (K.fault_count link.old)) (wire (K.ahead link.new) (K.written link.new) (K.fault_count link.new)) (C.moments clock.old) (C.moments clock.new) (record { messages = messages.old; wait = wait.old; is_polled = true }) (record { messages = messages.new; wait = wait.new; is_polled = true }) session.old session.new) }
    ensures pauses { C.pauses clock.new ≡ C.pauses clock.old }
    ensures same_shut { K.is_shut link.new ≡ K.is_shut link.old }
    ensures same_number { K.number_of link.new ≡ K.number_of link.old }
    ensures same_size { length buffer.new ≡ length buffer.old }
{
    raise(session, clock);
    let end = serve_pieces(alloc, session, clock, link, messages, wait, buffer)?;
    write_all_handed(alloc, session, clock)?;
    Ok(end)
}
