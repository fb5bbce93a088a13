//! The actions that send a reply.
ghost use Rattle.std.specs.Prelude.{◌≡◌, ◌∷◌, ◌++◌, [], IfOk};
ghost use Rattle.sc_daemon_action.specs.Acts.{Acts};
ghost use Rattle.sc_daemon_action.specs.Sends.{Adds, Sends};
ghost use Rattle.sc_daemon_job.specs.Askers.{asker};
ghost use Rattle.sc_daemon_job.specs.Setups.{setup};
ghost use Rattle.sc_daemon_job.specs.declared.since.Since.{Since as Moments};
ghost use Rattle.sc_model.specs.Conns.{need_at};
ghost use Rattle.sc_model.specs.Trace.{sent_by};
ghost use Rattle.sc_model.specs.declared.message.Request.{Request as Asks};
ghost use Rattle.sc_model.specs.declared.message.Request.TheVariants.{Compile as CompileOf};
ghost use Rattle.sc_model.specs.Afterwards.{notes_then};
ghost use Rattle.sc_wire.specs.Responses.{payload};

use crate::acted::Acted;
use sc_daemon_hold::Hold;
use sc_entry::{ByteText, Items, NoMemory, Queue};
use sc_model::{Compile, CompileFinished, CompileResponse, Phase, Response, Task, What};
use sc_wire::{FrameError, append_response};
use std::alloc::Global;

/// Adds a reply's frame. One whose payload is over the limit isn't added: the answer is its length.
fn add_frame(
    alloc: Global,
    limit: u32,
    reply: &Response,
    out: &mut Vec<u8>,
) -> Result<Option<u64>, NoMemory>
    ensures { IfOk result (λ size. Sends payload limit reply.now out.old.items out.new.items size) }
{
    match append_response(alloc, limit, reply, out) {
        Ok(_) => Ok(None),
        Err(FrameError::TooLong(size)) => Ok(Some(size)),
        Err(FrameError::NoMemory) => Err(NoMemory),
    }
}

/// Sends a reply. One whose payload is over the limit isn't sent: the answer is its length.
pub(crate) fn send<H: Hold>(
    alloc: Global,
    hold: &H,
    reply: &Response,
    out: &mut Vec<u8>,
) -> Result<Option<u64>, NoMemory>
    ensures { IfOk result (λ size. Sends (H.config hold.now).payload (H.config hold.now).limit reply.now out.old.items out.new.items size) }
{
    let size = add_frame(alloc, hold.limit(), reply, out)?;
    Ok(size)
}

/// A reply alone.
pub(crate) fn alone(alloc: Global, reply: Response) -> Result<Items<Response>, NoMemory>
    ensures { IfOk result (λ left. left ≡ reply ∷ []) }
{
    let mut left = Items::new(alloc);
    left.push(reply)?;
    Ok(left)
}

/// Sends the one reply that is left.
pub fn act_send<H: Hold>(
    alloc: Global,
    hold: &mut H,
    reply: Response,
    out: &mut Vec<u8>,
) -> Result<Acted, NoMemory>
    ensures acts { IfOk result (λ a. (r : Asks) → Acts (H.config hold.old) r (Phase.AtSend reply) (H.moment hold.new) a) }
    ensures moves { IfOk result (λ a. (r : Asks) (since : Moments) → H.moves hold.old (asker since (need_at (setup (H.config hold.old)) r (Phase.AtSend reply)) r) a.what hold.new) }
    ensures same { IfOk result (λ a. H.config hold.new ≡ H.config hold.old) }
    ensures sent { IfOk result (λ a. Adds (H.config hold.old) (sent_by a.what) out.old.items out.new.items) }
{
    match send(alloc, hold, &reply, out)? {
        None => {
            hold.tick();
            Ok(Acted {
                what: What::Sent(reply),
                phase: Phase::AtOver,
            })
        }
        Some(size) => {
            let left = alone(alloc, reply)?;
            hold.tick();
            Ok(Acted {
                what: What::TooLong(size),
                phase: Phase::AtEnded(left),
            })
        }
    }
}

/// Says that a compile is started.
pub fn act_started<H: Hold>(
    alloc: Global,
    hold: &mut H,
    request: &Compile,
    task: Task,
    out: &mut Vec<u8>,
) -> Result<Acted, NoMemory>
    ensures acts { IfOk result (λ a. Acts (H.config hold.old) (CompileOf request.now) (Phase.AtStarted task) (H.moment hold.new) a) }
    ensures moves { IfOk result (λ a. (since : Moments) → H.moves hold.old (asker since (need_at (setup (H.config hold.old)) (CompileOf request.now) (Phase.AtStarted task)) (CompileOf request.now)) a.what hold.new) }
    ensures same { IfOk result (λ a. H.config hold.new ≡ H.config hold.old) }
    ensures sent { IfOk result (λ a. Adds (H.config hold.old) (sent_by a.what) out.old.items out.new.items) }
{
    let reply = Response::Compile(CompileResponse::CompileStarted);
    match send(alloc, hold, &reply, out)? {
        None => {
            hold.tick();
            Ok(Acted {
                what: What::Sent(reply),
                phase: Phase::AtKey(task, true),
            })
        }
        Some(size) => {
            let left = alone(alloc, reply)?;
            hold.tick();
            Ok(Acted {
                what: What::TooLong(size),
                phase: Phase::AtEnded(left),
            })
        }
    }
}

/// The replies that are left: notifications, and the last.
fn replies_left(
    left: &mut Items<Response>,
    notes: Queue<ByteText>,
    last: CompileFinished,
) -> Result<(), NoMemory>
    ensures { IfOk result (λ _. left.new ≡ left.old ++ notes_then notes last) }
{
    let mut rest = notes;
    while let Some(note) = rest.pop_front() {
        left.push(Response::ArtifactNotification(note))?;
    }
    left.push(Response::CompileFinished(last))
}

/// Sends a notification.
fn send_note<H: Hold>(
    alloc: Global,
    hold: &mut H,
    request: &Compile,
    note: ByteText,
    rest: Queue<ByteText>,
    last: CompileFinished,
    out: &mut Vec<u8>,
) -> Result<Acted, NoMemory>
    ensures acts { IfOk result (λ a. Acts (H.config hold.old) (CompileOf request.now) (Phase.AtFinish (note ∷ rest) last) (H.moment hold.new) a) }
    ensures moves { IfOk result (λ a. (since : Moments) → H.moves hold.old (asker since (need_at (setup (H.config hold.old)) (CompileOf request.now) (Phase.AtFinish (note ∷ rest) last)) (CompileOf request.now)) a.what hold.new) }
    ensures same { IfOk result (λ a. H.config hold.new ≡ H.config hold.old) }
    ensures sent { IfOk result (λ a. Adds (H.config hold.old) (sent_by a.what) out.old.items out.new.items) }
{
    let reply = Response::ArtifactNotification(note);
    match send(alloc, hold, &reply, out)? {
        None => {
            hold.tick();
            Ok(Acted {
                what: What::Sent(reply),
                phase: Phase::AtFinish(rest, last),
            })
        }
        Some(size) => {
            let mut left = alone(alloc, reply)?;
            replies_left(&mut left, rest, last)?;
            hold.tick();
            Ok(Acted {
                what: What::TooLong(size),
                phase: Phase::AtEnded(left),
            })
        }
    }
}

/// Sends the last reply of a compile.
fn send_last<H: Hold>(
    alloc: Global,
    hold: &mut H,
    request: &Compile,
    last: CompileFinished,
    out: &mut Vec<u8>,
) -> Result<Acted, NoMemory>
    ensures acts { IfOk result (λ a. Acts (H.config hold.old) (CompileOf request.now) (Phase.AtFinish [] last) (H.moment hold.new) a) }
    ensures moves { IfOk result (λ a. (since : Moments) → H.moves hold.old (asker since (need_at (setup (H.config hold.old)) (CompileOf request.now) (Phase.AtFinish [] last)) (CompileOf request.now)) a.what hold.new) }
    ensures same { IfOk result (λ a. H.config hold.new ≡ H.config hold.old) }
    ensures sent { IfOk result (λ a. Adds (H.config hold.old) (sent_by a.what) out.old.items out.new.items) }
{
    let reply = Response::CompileFinished(last);
    match send(alloc, hold, &reply, out)? {
        None => {
            hold.tick();
            Ok(Acted {
                what: What::Sent(reply),
                phase: Phase::AtOver,
            })
        }
        Some(size) => {
            let left = alone(alloc, reply)?;
            hold.tick();
            Ok(Acted {
                what: What::TooLong(size),
                phase: Phase::AtEnded(left),
            })
        }
    }
}

/// Sends the next notification, or the last reply.
pub fn act_finish<H: Hold>(
    alloc: Global,
    hold: &mut H,
    request: &Compile,
    notes: Queue<ByteText>,
    last: CompileFinished,
    out: &mut Vec<u8>,
) -> Result<Acted, NoMemory>
    ensures acts { IfOk result (λ a. Acts (H.config hold.old) (CompileOf request.now) (Phase.AtFinish notes last) (H.moment hold.new) a) }
    ensures moves { IfOk result (λ a. (since : Moments) → H.moves hold.old (asker since (need_at (setup (H.config hold.old)) (CompileOf request.now) (Phase.AtFinish notes last)) (CompileOf request.now)) a.what hold.new) }
    ensures same { IfOk result (λ a. H.config hold.new ≡ H.config hold.old) }
    ensures sent { IfOk result (λ a. Adds (H.config hold.old) (sent_by a.what) out.old.items out.new.items) }
{
    let mut rest = notes;
    match rest.pop_front() {
        Some(note) => send_note(alloc, hold, request, note, rest, last, out),
        None => send_last(alloc, hold, request, last, out),
    }
}
