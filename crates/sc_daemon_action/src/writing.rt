//! The actions of a write, for a compile that ends so behind it, or for another put: at a remote level one, at a disk level
//! three, for which it holds the entry that it opened.
ghost use Rattle.std.specs.Prelude.{◌≡◌, ◌<◌, ◌∷◌, [], length, true, None, Some, Option, IfOk};
ghost use Rattle.sc_daemon_action.specs.Acts.{Acts};
ghost use Rattle.sc_daemon_action.specs.Hands.{ActsWith, ServesWith, hand_of, writes};
ghost use Rattle.sc_daemon_action.specs.Serves.{IsWriter};
ghost use Rattle.sc_daemon_hold.specs.Holding.{HandsIn, Holds, KeepsIn, hand_at};
ghost use Rattle.sc_daemon_job.specs.Askers.{asker};
ghost use Rattle.sc_daemon_job.specs.Setups.{setup};
ghost use Rattle.sc_model.specs.Dues.{kind_at};
ghost use Rattle.sc_model.specs.Conns.{need_at};
ghost use Rattle.sc_model.specs.Phases.{next_writes};
ghost use Rattle.sc_model.specs.Plan.{note};
ghost use Rattle.sc_model.specs.There.{AreLevels};
ghost use Rattle.sc_model.specs.Trace.{sent_by};
ghost use Rattle.sc_model.specs.declared.level.LevelKind.TheVariants.{Disk};
ghost use Rattle.sc_model.specs.declared.message.Request.{Request as Asks};

use crate::acted::{Acted, Action, holding_none};
use crate::entries::{EntryAction, commit_entry, fill_entry, open_entry};
use crate::raw::end_put;
use crate::storing::{end_write, goes_on, noted, write_level};
use sc_daemon_hold::Hold;
use sc_daemon_job::Since;
use sc_disk::LruDiskCacheAddEntry;
use sc_entry::{NoMemory, Queue};
use sc_model::{Bytes, Cause, Ending, LevelKind, Phase, Refusal, Request, What, Written};
use std::alloc::Global;

/// Whether a request's write goes on.
pub fn is_write(phase: &Phase) -> bool
    ensures { result ≡ writes phase.now }
{
    match phase {
        Phase::AtWrite(_, _, _, _) => true,
        Phase::AtFill(_, _, _, _, _) => true,
        Phase::AtCommit(_, _, _, _, _) => true,
        _ => false,
    }
}

/// A write that goes on at the levels behind one that refused.
fn after_refusal(
    alloc: Global,
    what: What,
    bytes: Bytes,
    level: u64,
    rest: Queue<u64>,
    refusal: Refusal,
    ending: Option<Ending>,
    cause: Cause,
) -> Action
    ensures what { result.what ≡ what }
    ensures phase { result.phase ≡ next_writes bytes (note refusal level cause) rest ending }
    ensures entry { result.entry ≡ None }
{
    let refusal = noted(Written::Refused(cause), refusal, level);
    let levels = goes_on(alloc, refusal, rest);
    Action {
        what,
        phase: Phase::AtWrite(bytes, levels, refusal, ending),
        entry: None,
    }
}

/// Opens an entry at the next level, a disk one.
fn reserve_level<H: Hold>(
    alloc: Global,
    hold: &mut H,
    bytes: Bytes,
    level: u64,
    rest: Queue<u64>,
    refusal: Refusal,
    ending: Option<Ending>,
    since: Since,
) -> Result<Action, NoMemory>
    requires level { level < length (H.config hold.old).levels }
    requires disk { kind_at (H.config hold.old).levels level ≡ Disk }
    requires rest { AreLevels (length (H.config hold.old).levels) rest }
    ensures acts { IfOk result (λ a. (r : Asks) → IsWriter r ending → ActsWith (H.config hold.old) (H.rooms hold.new) r (Phase.AtWrite bytes (level ∷ rest) refusal ending) (H.moment hold.new) a) }
    ensures hands { IfOk result (λ a. HandsIn (H.rooms hold.old) a.what None (hand_of a.entry a.phase)) }
    ensures others { IfOk result (λ a. KeepsIn None (H.rooms hold.old) (H.rooms hold.new)) }
    ensures moves { IfOk result (λ a. (r : Asks) → H.moves hold.old (asker since (need_at (setup (H.config hold.old)) r (Phase.AtWrite bytes (level ∷ rest) refusal ending)) r) a.what hold.new) }
    ensures same { IfOk result (λ a. H.config hold.new ≡ H.config hold.old) }
    ensures unsent { IfOk result (λ a. sent_by a.what ≡ []) }
{
    let EntryAction {
        what,
        written,
        entry,
    } = open_entry(alloc, hold, level, &bytes, since)?;
    match written {
        Written::Done => Ok(Action {
            what,
            phase: Phase::AtFill(bytes, level, rest, refusal, ending),
            entry,
        }),
        Written::Refused(cause) => Ok(after_refusal(
            alloc, what, bytes, level, rest, refusal, ending, cause,
        )),
    }
}

/// Fills the entry that was opened.
fn act_fill<H: Hold>(
    alloc: Global,
    hold: &mut H,
    bytes: Bytes,
    level: u64,
    rest: Queue<u64>,
    refusal: Refusal,
    ending: Option<Ending>,
    entry: LruDiskCacheAddEntry,
    since: Since,
) -> Result<Action, NoMemory>
    requires level { level < length (H.config hold.old).levels }
    requires disk { kind_at (H.config hold.old).levels level ≡ Disk }
    requires rest { AreLevels (length (H.config hold.old).levels) rest }
    requires holds { Holds (H.rooms hold.old) level entry bytes [] None }
    ensures acts { IfOk result (λ a. (r : Asks) → IsWriter r ending → ActsWith (H.config hold.old) (H.rooms hold.new) r (Phase.AtFill bytes level rest refusal ending) (H.moment hold.new) a) }
    ensures hands { IfOk result (λ a. HandsIn (H.rooms hold.old) a.what (hand_at (Some entry) level (length bytes.bytes)) (hand_of a.entry a.phase)) }
    ensures others { IfOk result (λ a. KeepsIn (hand_at (Some entry) level (length bytes.bytes)) (H.rooms hold.old) (H.rooms hold.new)) }
    ensures moves { IfOk result (λ a. (r : Asks) → H.moves hold.old (asker since (need_at (setup (H.config hold.old)) r (Phase.AtFill bytes level rest refusal ending)) r) a.what hold.new) }
    ensures same { IfOk result (λ a. H.config hold.new ≡ H.config hold.old) }
    ensures unsent { IfOk result (λ a. sent_by a.what ≡ []) }
{
    let EntryAction {
        what,
        written,
        entry,
    } = fill_entry(alloc, hold, level, entry, &bytes, since)?;
    match written {
        Written::Done => Ok(Action {
            what,
            phase: Phase::AtCommit(bytes, level, rest, refusal, ending),
            entry,
        }),
        Written::Refused(cause) => Ok(after_refusal(
            alloc, what, bytes, level, rest, refusal, ending, cause,
        )),
    }
}

/// Commits the entry that was filled.
fn act_commit<H: Hold>(
    alloc: Global,
    hold: &mut H,
    bytes: Bytes,
    level: u64,
    rest: Queue<u64>,
    refusal: Refusal,
    ending: Option<Ending>,
    entry: LruDiskCacheAddEntry,
    since: Since,
) -> Result<Action, NoMemory>
    requires level { level < length (H.config hold.old).levels }
    requires disk { kind_at (H.config hold.old).levels level ≡ Disk }
    requires rest { AreLevels (length (H.config hold.old).levels) rest }
    requires holds { Holds (H.rooms hold.old) level entry bytes bytes.bytes (Some bytes.run) }
    ensures acts { IfOk result (λ a. (r : Asks) → IsWriter r ending → ActsWith (H.config hold.old) (H.rooms hold.new) r (Phase.AtCommit bytes level rest refusal ending) (H.moment hold.new) a) }
    ensures hands { IfOk result (λ a. HandsIn (H.rooms hold.old) a.what (hand_at (Some entry) level (length bytes.bytes)) (hand_of a.entry a.phase)) }
    ensures others { IfOk result (λ a. KeepsIn (hand_at (Some entry) level (length bytes.bytes)) (H.rooms hold.old) (H.rooms hold.new)) }
    ensures moves { IfOk result (λ a. (r : Asks) → H.moves hold.old (asker since (need_at (setup (H.config hold.old)) r (Phase.AtCommit bytes level rest refusal ending)) r) a.what hold.new) }
    ensures same { IfOk result (λ a. H.config hold.new ≡ H.config hold.old) }
    ensures unsent { IfOk result (λ a. sent_by a.what ≡ []) }
{
    let EntryAction { what, written, .. } = commit_entry(alloc, hold, level, entry, &bytes, since)?;
    let refusal = noted(written, refusal, level);
    let levels = goes_on(alloc, refusal, rest);
    Ok(Action {
        what,
        phase: Phase::AtWrite(bytes, levels, refusal, ending),
        entry: None,
    })
}

/// Ends a write: a compile's with its ending, another's with its reply.
fn end<H: Hold>(
    alloc: Global,
    hold: &mut H,
    request: &Request,
    bytes: Bytes,
    refusal: Refusal,
    ending: Option<Ending>,
    since: Since,
) -> Result<Acted, NoMemory>
    requires { IsWriter request.now ending }
    ensures acts { IfOk result (λ a. Acts (H.config hold.old) request.now (Phase.AtWrite bytes [] refusal ending) (H.moment hold.new) a) }
    ensures moves { IfOk result (λ a. H.moves hold.old (asker since (need_at (setup (H.config hold.old)) request.now (Phase.AtWrite bytes [] refusal ending)) request.now) a.what hold.new) }
    ensures same { IfOk result (λ a. H.config hold.new ≡ H.config hold.old) }
    ensures unsent { IfOk result (λ a. sent_by a.what ≡ []) }
{
    match (request, ending) {
        (Request::Compile(compile), Some(ending)) => {
            let acted = end_write(alloc, hold, compile, bytes, refusal, ending, since)?;
            Ok(acted)
        }
        (Request::StoragePutRaw(key, put), None) => {
            let acted = end_put(alloc, hold, key, put, bytes, refusal, since)?;
            Ok(acted)
        }
        (_, _) => unreachable!(),
    }
}

/// Writes at the next level, or ends the write.
fn act_next<H: Hold>(
    alloc: Global,
    hold: &mut H,
    request: &Request,
    bytes: Bytes,
    levels: Queue<u64>,
    refusal: Refusal,
    ending: Option<Ending>,
    since: Since,
) -> Result<Action, NoMemory>
    requires levels { AreLevels (length (H.config hold.old).levels) levels }
    requires ending { IsWriter request.now ending }
    ensures acts { IfOk result (λ a. ActsWith (H.config hold.old) (H.rooms hold.new) request.now (Phase.AtWrite bytes levels refusal ending) (H.moment hold.new) a) }
    ensures hands { IfOk result (λ a. HandsIn (H.rooms hold.old) a.what None (hand_of a.entry a.phase)) }
    ensures others { IfOk result (λ a. KeepsIn None (H.rooms hold.old) (H.rooms hold.new)) }
    ensures moves { IfOk result (λ a. H.moves hold.old (asker since (need_at (setup (H.config hold.old)) request.now (Phase.AtWrite bytes levels refusal ending)) request.now) a.what hold.new) }
    ensures same { IfOk result (λ a. H.config hold.new ≡ H.config hold.old) }
    ensures unsent { IfOk result (λ a. sent_by a.what ≡ []) }
{
    let mut rest = levels;
    let Some(level) = rest.pop_front() else {
        let acted = end(alloc, hold, request, bytes, refusal, ending, since)?;
        return Ok(holding_none(acted));
    };
    match hold.kind(level) {
        LevelKind::Disk => {
            let action = reserve_level(alloc, hold, bytes, level, rest, refusal, ending, since)?;
            Ok(action)
        }
        LevelKind::Remote => {
            let acted = write_level(alloc, hold, bytes, level, rest, refusal, ending, since)?;
            Ok(holding_none(acted))
        }
    }
}

/// Does the action that is due of a write.
pub fn act_writing<H: Hold>(
    alloc: Global,
    hold: &mut H,
    request: &Request,
    phase: Phase,
    entry: Option<LruDiskCacheAddEntry>,
    since: Since,
) -> Result<Action, NoMemory>
    requires serves { ServesWith (H.config hold.old) (H.rooms hold.old) phase entry request.now }
    requires writes { writes phase ≡ true }
    ensures acts { IfOk result (λ a. ActsWith (H.config hold.old) (H.rooms hold.new) request.now phase (H.moment hold.new) a) }
    ensures hands { IfOk result (λ a. HandsIn (H.rooms hold.old) a.what (hand_of entry phase) (hand_of a.entry a.phase)) }
    ensures others { IfOk result (λ a. KeepsIn (hand_of entry phase) (H.rooms hold.old) (H.rooms hold.new)) }
    ensures moves { IfOk result (λ a. H.moves hold.old (asker since (need_at (setup (H.config hold.old)) request.now phase) request.now) a.what hold.new) }
    ensures same { IfOk result (λ a. H.config hold.new ≡ H.config hold.old) }
    ensures unsent { IfOk result (λ a. sent_by a.what ≡ []) }
{
    match phase {
        Phase::AtWrite(bytes, levels, refusal, ending) => {
            let action = act_next(alloc, hold, request, bytes, levels, refusal, ending, since)?;
            Ok(action)
        }
        Phase::AtFill(bytes, level, rest, refusal, ending) => {
            let Some(held) = entry else { unreachable!() };
            let action = act_fill(
                alloc, hold, bytes, level, rest, refusal, ending, held, since,
            )?;
            Ok(action)
        }
        Phase::AtCommit(bytes, level, rest, refusal, ending) => {
            let Some(held) = entry else { unreachable!() };
            let action = act_commit(
                alloc, hold, bytes, level, rest, refusal, ending, held, since,
            )?;
            Ok(action)
        }
        _ => unreachable!(),
    }
}
