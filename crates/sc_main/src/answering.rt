//! The requests that were taken over a link, one action after the other.
ghost use Rattle.std.specs.Prelude.{◌≡◌, ◌⊎◌, [], true, false, List, Option, Some, None, IfOk, OnOk, OnErr};
ghost use Rattle.sc_daemon.specs.Turns.{IsIdleLine};
ghost use Rattle.sc_main.specs.Deeds.{Heard, Ticks_once, raised, told_by, with_kept};
ghost use Rattle.sc_main.specs.Progress.{Scene, Sends, SoFar, scene};
ghost use Rattle.sc_main.specs.Serving.{Wire, wire};
ghost use Rattle.sc_main.specs.declared.link_end.LinkEnd.{LinkEnd as Left};
ghost use Rattle.sc_main.specs.declared.link_end.LinkEnd.TheVariants as ends;
ghost use Rattle.sc_server_activity.specs.declared.server_message.ServerMessage.{ServerMessage as Tiding};
ghost use Rattle.sc_server_activity.specs.declared.shutdown_or_inactive.ShutdownOrInactive.{ShutdownOrInactive};

use crate::link_end::LinkEnd;
use sc_clock::Clock;
use sc_daemon::Session;
use sc_daemon_owned::Parts;
use sc_entry::{NoMemory, WriteError};
use sc_link::{Link, send_all};
use sc_model::{Event, Owner, Request, What};
use sc_server_activity::{Messages, ServerMessage};
use std::alloc::Global;

/// Drops an event in a call of its own: dropped at the end of a branch it takes the check minutes.
fn discard(event: Event) {
    drop(event);
}

/// Raises the session's moment to the clock's, and says what that is. A clock that tells an earlier moment moves nothing.
pub fn raise<P: Parts, C: Clock>(session: &mut Session<P>, clock: &mut C) -> u64
    ensures session { session.new ≡ raised result session.old }
    ensures ticks { Ticks_once result (C.moments clock.old) (C.moments clock.new) }
    ensures pauses { C.pauses clock.new ≡ C.pauses clock.old }
{
    let now = clock.now();
    let behind = now.saturating_sub(session.daemon().now());
    discard(session.pass(behind));
    now
}

/// Adds what an event tells the server: that a request came, and behind it that one to shut down came.
fn push_told(messages: &mut Messages, what: &What) -> Result<(), NoMemory>
    ensures told { OnOk result (messages.new ≡ with_kept (told_by what.now) messages.old) }
    ensures refused { OnErr result ((kept : List Tiding) × (messages.new ≡ with_kept kept messages.old)) }
{
    if let What::Began(request, _) = what {
        messages.push(ServerMessage::Request)?;
        if matches!(request, Request::Shutdown) {
            messages.push(ServerMessage::Shutdown)?;
        }
    }
    Ok(())
}

/// Tells the server of an event. Says what was refused, which before was this: a message that wasn't kept comes before all.
fn tell(messages: &mut Messages, what: &What, refused: Option<LinkEnd>) -> Option<LinkEnd>
    ensures { (kept : List Tiding) × (messages.new ≡ with_kept kept messages.old) × (((kept ≡ told_by what.now) × (result ≡ refused)) ⊎ (result ≡ Some ends.NoMemory)) }
{
    match push_told(messages, what) {
        Ok(()) => refused,
        Err(_) => Some(LinkEnd::NoMemory),
    }
}

/// Whether an event is nobody's: nothing was due.
fn is_nobodys(event: &Event) -> bool
    ensures { result ≡ true → event.now.owner ≡ Owner.Nobody }
{
    match &event.owner {
        Owner::Nobody => true,
        Owner::Request(_, _) => false,
        Owner::Write(_) => false,
    }
}

/// Takes out what the connection was sent, and writes it by one write, unless something was refused before.
fn send_due<P: Parts, K: Link>(
    alloc: Global,
    session: &mut Session<P>,
    link: &mut K,
    refused: Option<LinkEnd>,
) -> Option<LinkEnd>
    ensures sends { Sends refused result session.old.line.out (wire (K.ahead link.old) (K.written link.old) (K.fault_count link.old)) (wire (K.ahead link.new) (K.written link.new) (K.fault_count link.new)) }
    ensures session { session.new ≡ record session.old { line = record session.old.line { out = [] } } }
    ensures same_shut { K.is_shut link.new ≡ K.is_shut link.old }
    ensures same_number { K.number_of link.new ≡ K.number_of link.old }
{
    let due = session.take_sent(alloc);
    if refused.is_some() {
        return refused;
    }
    match send_all(link, due.as_slice()) {
        Ok(()) => None,
        Err(WriteError::NoMemory) => Some(LinkEnd::NoMemory),
        Err(WriteError::WriteFault) => Some(LinkEnd::WriteFault),
    }
}

/// Serves the requests that were taken, each to its end, until none is left: tells each to the server as it begins, and writes
/// each answer as it is due. Says what was refused. Behind a refusal nothing more is written; but the requests are served all the
/// same, since one that is left in the middle keeps its token or its entry for ever.
pub fn answer_all<P: Parts, K: Link, C: Clock>(
    alloc: Global,
    session: &mut Session<P>,
    clock: &mut C,
    link: &mut K,
    messages: &mut Messages,
) -> Result<Option<LinkEnd>, NoMemory>
    ensures answers { IfOk result (λ refused. (first : Scene) (wait : ShutdownOrInactive) → SoFar None first (scene session.old (record { messages = messages.old; wait = wait; is_polled = false }) (C.moments clock.old) (wire (K.ahead link.old) (K.written link.old) (K.fault_count link.old))) → SoFar refused first (scene session.new (record { messages = messages.new; wait = wait; is_polled = false }) (C.moments clock.new) (wire (K.ahead link.new) (K.written link.new) (K.fault_count link.new)))) }
    ensures idle { IfOk result (λ _. IsIdleLine session.new.daemon.free session.new.line) }
    ensures pauses { C.pauses clock.new ≡ C.pauses clock.old }
    ensures same_shut { K.is_shut link.new ≡ K.is_shut link.old }
    ensures same_number { K.number_of link.new ≡ K.number_of link.old }
{
    let mut refused = None;
    for _action in 0..u64::MAX {
        raise(session, clock);
        let event = session.serve(alloc)?;
        refused = tell(messages, &event.what, refused);
        let is_idle = is_nobodys(&event);
        discard(event);
        if is_idle {
            return Ok(refused);
        }
        refused = send_due(alloc, session, link, refused);
    }
    Err(NoMemory)
}

/// Does all the writes that were handed on, the first to its end before the next.
pub fn write_all_handed<P: Parts, C: Clock>(
    alloc: Global,
    session: &mut Session<P>,
    clock: &mut C,
) -> Result<(), NoMemory>
    ensures writes { IfOk result (λ _. (refused : Option Left) (first : Scene) (heard : Heard) (link : Wire) → SoFar refused first (scene session.old heard (C.moments clock.old) link) → SoFar refused first (scene session.new heard (C.moments clock.new) link)) }
    ensures background { IfOk result (λ _. session.new.daemon.background ≡ []) }
    ensures line { session.new.line ≡ session.old.line }
    ensures pauses { C.pauses clock.new ≡ C.pauses clock.old }
{
    for _action in 0..u64::MAX {
        raise(session, clock);
        let event = session.back(alloc, 0)?;
        let is_idle = is_nobodys(&event);
        discard(event);
        if is_idle {
            return Ok(());
        }
    }
    Err(NoMemory)
}
