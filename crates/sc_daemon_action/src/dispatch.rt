//! One action of a request.
ghost use Rattle.std.specs.Prelude.{◌≡◌, false, IfOk};
ghost use Rattle.sc_daemon_action.specs.Acts.{Acts};
ghost use Rattle.sc_daemon_action.specs.Hands.{ActsWith, ServesWith, hand_of, writes};
ghost use Rattle.sc_daemon_action.specs.Sends.{Adds};
ghost use Rattle.sc_daemon_action.specs.Serves.{Serves};
ghost use Rattle.sc_daemon_hold.specs.Beginning.{TellsStatistics};
ghost use Rattle.sc_daemon_hold.specs.Holding.{HandsIn, KeepsIn};
ghost use Rattle.sc_daemon_job.specs.Askers.{asker};
ghost use Rattle.sc_daemon_job.specs.Setups.{setup};
ghost use Rattle.sc_daemon_job.specs.declared.since.Since.{Since as Moments};
ghost use Rattle.sc_model.specs.Conns.{need_at};
ghost use Rattle.sc_model.specs.Trace.{sent_by};
ghost use Rattle.sc_model.specs.declared.message.Request.TheVariants.{Compile as CompileOf, StorageGetPath, StorageGetPreprocessorEntry as GetPre, StorageGetRaw, StoragePutPreprocessorEntry as PutPre, StoragePutRaw};
ghost use Rattle.sc_model.specs.declared.message.Request.TheVariants as requests;

use crate::acted::{Acted, Action, holding_none};
use crate::early::{act_begin, act_key};
use crate::lookup::{act_ask, act_place};
use crate::paths::{act_begin_path, act_path_ask};
use crate::preprocessor::{act_begin_get_pre, act_begin_put_pre, act_pre_ask, act_pre_put};
use crate::raw::{act_begin_get, act_begin_put, act_raw_ask};
use crate::running::{act_dist, act_run, act_take};
use crate::sending::{act_finish, act_send, act_started};
use crate::storing::{act_end, act_store};
use crate::telling::{
    act_begin_stats, act_dist_status, act_handshake, act_record, act_size_ask, act_zero,
};
use crate::writing::{act_writing, is_write};
use sc_daemon_hold::Hold;
use sc_daemon_job::Since;
use sc_disk::LruDiskCacheAddEntry;
use sc_entry::{ByteText, NoMemory, Text};
use sc_model::{Compile, Phase, Request};
use sc_stats::ServerStats;
use std::alloc::Global;

/// Does the action that is due of a compile.
fn act_compile<H: Hold>(
    alloc: Global,
    hold: &mut H,
    request: &Compile,
    phase: Phase,
    out: &mut Vec<u8>,
    since: Since,
) -> Result<Acted, NoMemory>
    requires serves { Serves (H.config hold.old) phase (CompileOf request.now) }
    requires plain { writes phase ≡ false }
    ensures acts { IfOk result (λ a. Acts (H.config hold.old) (CompileOf request.now) phase (H.moment hold.new) a) }
    ensures moves { IfOk result (λ a. H.moves hold.old (asker since (need_at (setup (H.config hold.old)) (CompileOf request.now) phase) (CompileOf request.now)) a.what hold.new) }
    ensures same { IfOk result (λ a. H.config hold.new ≡ H.config hold.old) }
    ensures sent { IfOk result (λ a. Adds (H.config hold.old) (sent_by a.what) out.old.items out.new.items) }
{
    match phase {
        Phase::AtBegin => act_begin(alloc, hold, request),
        Phase::AtSend(reply) => act_send(alloc, hold, reply, out),
        Phase::AtStarted(task) => act_started(alloc, hold, request, task, out),
        Phase::AtKey(task, first) => act_key(alloc, hold, request, task, first),
        Phase::AtAsk(job, level) => act_ask(alloc, hold, request, job, level, since),
        Phase::AtPlace(job, entry, duration) => act_place(
            alloc, hold, request, job, entry, duration,
        ),
        Phase::AtDist(work) => act_dist(alloc, hold, request, work),
        Phase::AtTake(work) => act_take(hold, request, work),
        Phase::AtRun(work) => act_run(alloc, hold, request, work),
        Phase::AtEnd(verdict, task, ending) => act_end(alloc, hold, request, verdict, task, ending),
        Phase::AtStore(verdict, task, bytes, ending) => {
            act_store(alloc, hold, request, verdict, task, bytes, ending)
        }
        Phase::AtFinish(notes, last) => act_finish(alloc, hold, request, notes, last, out),
        _ => unreachable!(),
    }
}

/// Does the action that is due of a request for the bytes under a key.
fn act_get_raw<H: Hold>(
    alloc: Global,
    hold: &mut H,
    key: &Text,
    phase: Phase,
    out: &mut Vec<u8>,
    since: Since,
) -> Result<Acted, NoMemory>
    requires { Serves (H.config hold.old) phase (StorageGetRaw key.now) }
    ensures acts { IfOk result (λ a. Acts (H.config hold.old) (StorageGetRaw key.now) phase (H.moment hold.new) a) }
    ensures moves { IfOk result (λ a. H.moves hold.old (asker since (need_at (setup (H.config hold.old)) (StorageGetRaw key.now) phase) (StorageGetRaw key.now)) a.what hold.new) }
    ensures same { IfOk result (λ a. H.config hold.new ≡ H.config hold.old) }
    ensures sent { IfOk result (λ a. Adds (H.config hold.old) (sent_by a.what) out.old.items out.new.items) }
{
    match phase {
        Phase::AtBegin => act_begin_get(alloc, hold, key),
        Phase::RawAsk(level, wanted) => act_raw_ask(alloc, hold, key, level, wanted, since),
        Phase::AtSend(reply) => act_send(alloc, hold, reply, out),
        _ => unreachable!(),
    }
}

/// Does the action that is due of a put of bytes as they are.
fn act_put_raw<H: Hold>(
    alloc: Global,
    hold: &mut H,
    key: &Text,
    put: &ByteText,
    phase: Phase,
    out: &mut Vec<u8>,
) -> Result<Acted, NoMemory>
    requires serves { Serves (H.config hold.old) phase (StoragePutRaw key.now put.now) }
    requires plain { writes phase ≡ false }
    ensures acts { IfOk result (λ a. Acts (H.config hold.old) (StoragePutRaw key.now put.now) phase (H.moment hold.new) a) }
    ensures moves { IfOk result (λ a. (since : Moments) → H.moves hold.old (asker since (need_at (setup (H.config hold.old)) (StoragePutRaw key.now put.now) phase) (StoragePutRaw key.now put.now)) a.what hold.new) }
    ensures same { IfOk result (λ a. H.config hold.new ≡ H.config hold.old) }
    ensures sent { IfOk result (λ a. Adds (H.config hold.old) (sent_by a.what) out.old.items out.new.items) }
{
    match phase {
        Phase::AtBegin => act_begin_put(alloc, hold, key, put),
        Phase::AtSend(reply) => act_send(alloc, hold, reply, out),
        _ => unreachable!(),
    }
}

/// Does the action that is due of a request for the path of an entry.
fn act_get_path<H: Hold>(
    alloc: Global,
    hold: &mut H,
    key: &Text,
    phase: Phase,
    out: &mut Vec<u8>,
    since: Since,
) -> Result<Acted, NoMemory>
    requires serves { Serves (H.config hold.old) phase (StorageGetPath key.now) }
    requires plain { writes phase ≡ false }
    ensures acts { IfOk result (λ a. Acts (H.config hold.old) (StorageGetPath key.now) phase (H.moment hold.new) a) }
    ensures moves { IfOk result (λ a. H.moves hold.old (asker since (need_at (setup (H.config hold.old)) (StorageGetPath key.now) phase) (StorageGetPath key.now)) a.what hold.new) }
    ensures same { IfOk result (λ a. H.config hold.new ≡ H.config hold.old) }
    ensures sent { IfOk result (λ a. Adds (H.config hold.old) (sent_by a.what) out.old.items out.new.items) }
{
    match phase {
        Phase::AtBegin => act_begin_path(alloc, hold, key),
        Phase::PathAsk(wanted) => act_path_ask(alloc, hold, key, wanted, since),
        Phase::AtSend(reply) => act_send(alloc, hold, reply, out),
        _ => unreachable!(),
    }
}

/// Does the action that is due of a request for an entry of the preprocessor.
fn act_get_pre<H: Hold>(
    alloc: Global,
    hold: &mut H,
    key: &Text,
    phase: Phase,
    out: &mut Vec<u8>,
    since: Since,
) -> Result<Acted, NoMemory>
    requires serves { Serves (H.config hold.old) phase (GetPre key.now) }
    requires plain { writes phase ≡ false }
    ensures acts { IfOk result (λ a. Acts (H.config hold.old) (GetPre key.now) phase (H.moment hold.new) a) }
    ensures moves { IfOk result (λ a. H.moves hold.old (asker since (need_at (setup (H.config hold.old)) (GetPre key.now) phase) (GetPre key.now)) a.what hold.new) }
    ensures same { IfOk result (λ a. H.config hold.new ≡ H.config hold.old) }
    ensures sent { IfOk result (λ a. Adds (H.config hold.old) (sent_by a.what) out.old.items out.new.items) }
{
    match phase {
        Phase::AtBegin => act_begin_get_pre(alloc, hold, key),
        Phase::PreAsk(level, wanted) => act_pre_ask(alloc, hold, key, level, wanted, since),
        Phase::AtSend(reply) => act_send(alloc, hold, reply, out),
        _ => unreachable!(),
    }
}

/// Does the action that is due of a put of an entry of the preprocessor.
fn act_put_pre<H: Hold>(
    alloc: Global,
    hold: &mut H,
    key: &Text,
    put: &ByteText,
    phase: Phase,
    out: &mut Vec<u8>,
    since: Since,
) -> Result<Acted, NoMemory>
    requires serves { Serves (H.config hold.old) phase (PutPre key.now put.now) }
    requires plain { writes phase ≡ false }
    ensures acts { IfOk result (λ a. Acts (H.config hold.old) (PutPre key.now put.now) phase (H.moment hold.new) a) }
    ensures moves { IfOk result (λ a. H.moves hold.old (asker since (need_at (setup (H.config hold.old)) (PutPre key.now put.now) phase) (PutPre key.now put.now)) a.what hold.new) }
    ensures same { IfOk result (λ a. H.config hold.new ≡ H.config hold.old) }
    ensures sent { IfOk result (λ a. Adds (H.config hold.old) (sent_by a.what) out.old.items out.new.items) }
{
    match phase {
        Phase::AtBegin => act_begin_put_pre(alloc, hold, key, put),
        Phase::PrePut(bytes, levels, refusal) => {
            act_pre_put(alloc, hold, bytes, levels, refusal, out, since)
        }
        Phase::AtSend(reply) => act_send(alloc, hold, reply, out),
        _ => unreachable!(),
    }
}

/// Does the action that is due of a request whose reply tells statistics.
fn act_stats<H: Hold>(
    alloc: Global,
    hold: &mut H,
    request: &Request,
    phase: Phase,
    out: &mut Vec<u8>,
) -> Result<Acted, NoMemory>
    requires tells { TellsStatistics request.now }
    requires serves { Serves (H.config hold.old) phase request.now }
    ensures acts { IfOk result (λ a. Acts (H.config hold.old) request.now phase (H.moment hold.new) a) }
    ensures moves { IfOk result (λ a. (since : Moments) → H.moves hold.old (asker since (need_at (setup (H.config hold.old)) request.now phase) request.now) a.what hold.new) }
    ensures same { IfOk result (λ a. H.config hold.new ≡ H.config hold.old) }
    ensures sent { IfOk result (λ a. Adds (H.config hold.old) (sent_by a.what) out.old.items out.new.items) }
{
    match phase {
        Phase::AtBegin => act_begin_stats(alloc, hold, request),
        Phase::SizeAsk(level, told, sizes) => {
            act_size_ask(alloc, hold, request, level, told, sizes)
        }
        Phase::AtSend(reply) => act_send(alloc, hold, reply, out),
        _ => unreachable!(),
    }
}

/// Does the action that is due of a request that all counters start anew.
fn act_zero_stats<H: Hold>(
    alloc: Global,
    hold: &mut H,
    phase: Phase,
    out: &mut Vec<u8>,
) -> Result<Acted, NoMemory>
    requires { Serves (H.config hold.old) phase requests.ZeroStats }
    ensures acts { IfOk result (λ a. Acts (H.config hold.old) requests.ZeroStats phase (H.moment hold.new) a) }
    ensures moves { IfOk result (λ a. (since : Moments) → H.moves hold.old (asker since (need_at (setup (H.config hold.old)) requests.ZeroStats phase) requests.ZeroStats) a.what hold.new) }
    ensures same { IfOk result (λ a. H.config hold.new ≡ H.config hold.old) }
    ensures sent { IfOk result (λ a. Adds (H.config hold.old) (sent_by a.what) out.old.items out.new.items) }
{
    match phase {
        Phase::AtBegin => act_zero(alloc, hold),
        Phase::AtSend(reply) => act_send(alloc, hold, reply, out),
        _ => unreachable!(),
    }
}

/// Does the action that is due of a request that counters are added.
fn act_record_stats<H: Hold>(
    alloc: Global,
    hold: &mut H,
    delta: &ServerStats,
    phase: Phase,
    out: &mut Vec<u8>,
) -> Result<Acted, NoMemory>
    requires { Serves (H.config hold.old) phase (requests.RecordStats delta.now) }
    ensures acts { IfOk result (λ a. Acts (H.config hold.old) (requests.RecordStats delta.now) phase (H.moment hold.new) a) }
    ensures moves { IfOk result (λ a. (since : Moments) → H.moves hold.old (asker since (need_at (setup (H.config hold.old)) (requests.RecordStats delta.now) phase) (requests.RecordStats delta.now)) a.what hold.new) }
    ensures same { IfOk result (λ a. H.config hold.new ≡ H.config hold.old) }
    ensures sent { IfOk result (λ a. Adds (H.config hold.old) (sent_by a.what) out.old.items out.new.items) }
{
    match phase {
        Phase::AtBegin => act_record(alloc, hold, delta),
        Phase::AtSend(reply) => act_send(alloc, hold, reply, out),
        _ => unreachable!(),
    }
}

/// Does the action that is due of a handshake with the store.
fn act_storage_handshake<H: Hold>(
    alloc: Global,
    hold: &mut H,
    phase: Phase,
    out: &mut Vec<u8>,
) -> Result<Acted, NoMemory>
    requires { Serves (H.config hold.old) phase requests.StorageHandshake }
    ensures acts { IfOk result (λ a. Acts (H.config hold.old) requests.StorageHandshake phase (H.moment hold.new) a) }
    ensures moves { IfOk result (λ a. (since : Moments) → H.moves hold.old (asker since (need_at (setup (H.config hold.old)) requests.StorageHandshake phase) requests.StorageHandshake) a.what hold.new) }
    ensures same { IfOk result (λ a. H.config hold.new ≡ H.config hold.old) }
    ensures sent { IfOk result (λ a. Adds (H.config hold.old) (sent_by a.what) out.old.items out.new.items) }
{
    match phase {
        Phase::AtBegin => act_handshake(alloc, hold),
        Phase::AtSend(reply) => act_send(alloc, hold, reply, out),
        _ => unreachable!(),
    }
}

/// Does the action that is due of a request for where the distributed client stands.
fn act_told_dist<H: Hold>(
    alloc: Global,
    hold: &mut H,
    phase: Phase,
    out: &mut Vec<u8>,
) -> Result<Acted, NoMemory>
    requires { Serves (H.config hold.old) phase requests.DistStatus }
    ensures acts { IfOk result (λ a. Acts (H.config hold.old) requests.DistStatus phase (H.moment hold.new) a) }
    ensures moves { IfOk result (λ a. (since : Moments) → H.moves hold.old (asker since (need_at (setup (H.config hold.old)) requests.DistStatus phase) requests.DistStatus) a.what hold.new) }
    ensures same { IfOk result (λ a. H.config hold.new ≡ H.config hold.old) }
    ensures sent { IfOk result (λ a. Adds (H.config hold.old) (sent_by a.what) out.old.items out.new.items) }
{
    match phase {
        Phase::AtBegin => act_dist_status(alloc, hold),
        Phase::AtSend(reply) => act_send(alloc, hold, reply, out),
        _ => unreachable!(),
    }
}

/// Does the action that is due of a request that writes nothing now.
fn act_plain<H: Hold>(
    alloc: Global,
    hold: &mut H,
    request: &Request,
    phase: Phase,
    out: &mut Vec<u8>,
    since: Since,
) -> Result<Acted, NoMemory>
    requires serves { Serves (H.config hold.old) phase request.now }
    requires plain { writes phase ≡ false }
    ensures acts { IfOk result (λ a. Acts (H.config hold.old) request.now phase (H.moment hold.new) a) }
    ensures moves { IfOk result (λ a. H.moves hold.old (asker since (need_at (setup (H.config hold.old)) request.now phase) request.now) a.what hold.new) }
    ensures same { IfOk result (λ a. H.config hold.new ≡ H.config hold.old) }
    ensures sent { IfOk result (λ a. Adds (H.config hold.old) (sent_by a.what) out.old.items out.new.items) }
{
    match request {
        Request::Compile(compile) => act_compile(alloc, hold, compile, phase, out, since),
        Request::StorageGetRaw(key) => act_get_raw(alloc, hold, key, phase, out, since),
        Request::StoragePutRaw(key, put) => act_put_raw(alloc, hold, key, put, phase, out),
        Request::GetStats => act_stats(alloc, hold, request, phase, out),
        Request::Shutdown => act_stats(alloc, hold, request, phase, out),
        Request::ZeroStats => act_zero_stats(alloc, hold, phase, out),
        Request::RecordStats(delta) => act_record_stats(alloc, hold, delta, phase, out),
        Request::StorageHandshake => act_storage_handshake(alloc, hold, phase, out),
        Request::DistStatus => act_told_dist(alloc, hold, phase, out),
        Request::StorageGetPath(key) => act_get_path(alloc, hold, key, phase, out, since),
        Request::StorageGetPreprocessorEntry(key) => {
            act_get_pre(alloc, hold, key, phase, out, since)
        }
        Request::StoragePutPreprocessorEntry(key, bytes) => {
            act_put_pre(alloc, hold, key, bytes, phase, out, since)
        }
    }
}

/// Does the action that is due of a request at this phase, with the entry of a disk level that it holds: its event, the phase
/// after it, and the entry that it holds then. What it sends goes behind `out`. It waits for nothing: a token is there where
/// one is taken. What it counts is measured from these moments.
pub fn act<H: Hold>(
    alloc: Global,
    hold: &mut H,
    request: &Request,
    phase: Phase,
    entry: Option<LruDiskCacheAddEntry>,
    out: &mut Vec<u8>,
    since: Since,
) -> Result<Action, NoMemory>
    requires { ServesWith (H.config hold.old) (H.rooms hold.old) phase entry request.now }
    ensures acts { IfOk result (λ a. ActsWith (H.config hold.old) (H.rooms hold.new) request.now phase (H.moment hold.new) a) }
    ensures hands { IfOk result (λ a. HandsIn (H.rooms hold.old) a.what (hand_of entry phase) (hand_of a.entry a.phase)) }
    ensures others { IfOk result (λ a. KeepsIn (hand_of entry phase) (H.rooms hold.old) (H.rooms hold.new)) }
    ensures moves { IfOk result (λ a. H.moves hold.old (asker since (need_at (setup (H.config hold.old)) request.now phase) request.now) a.what hold.new) }
    ensures same { IfOk result (λ a. H.config hold.new ≡ H.config hold.old) }
    ensures sent { IfOk result (λ a. Adds (H.config hold.old) (sent_by a.what) out.old.items out.new.items) }
{
    if is_write(&phase) {
        let action = act_writing(alloc, hold, request, phase, entry, since)?;
        return Ok(action);
    }
    let acted = act_plain(alloc, hold, request, phase, out, since)?;
    Ok(holding_none(acted))
}
