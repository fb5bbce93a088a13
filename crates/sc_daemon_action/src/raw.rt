//! The actions of requests for bytes as a store holds them.
ghost use Rattle.std.specs.Prelude.{◌≡◌, ◌+◌, ◌<◌, ℕ, List, [], None, length, IfOk};
ghost use Rattle.sc_daemon_action.specs.Acts.{Acts};
ghost use Rattle.sc_daemon_action.specs.Serves.{Stands};
ghost use Rattle.sc_daemon_job.specs.Askers.{asker};
ghost use Rattle.sc_daemon_job.specs.Setups.{Config, setup};
ghost use Rattle.sc_daemon_job.specs.declared.since.Since.{Since as Moments};
ghost use Rattle.sc_model.specs.Conns.{need_at};
ghost use Rattle.sc_model.specs.Phases.{phase_next, raw_phase};
ghost use Rattle.sc_model.specs.Trace.{sent_by};
ghost use Rattle.sc_model.specs.declared.message.Request.TheVariants.{StorageGetRaw, StoragePutRaw};
ghost use Rattle.sc_model.specs.declared.message.Response.TheVariants.{StorageGetRaw as RawReply};

use crate::acted::Acted;
use crate::telling::begin_untold;
use crate::texts::put_result;
use sc_daemon_hold::Hold;
use sc_daemon_job::Since;
use sc_entry::{ByteText, NoMemory, Text};
use sc_model::{Answer, Bytes, Mode, Phase, Refusal, Request, Response, Told, What};
use std::alloc::Global;

/// Where a lookup goes on: at its next level, or with nothing found after the last.
fn next_level(key: Text, level: u64, levels: u64) -> Phase
    ensures phase { (k : Config) → length k.levels ≡ levels → result ≡ phase_next (setup k) level (Phase.RawAsk level key) (Phase.AtSend (RawReply None)) }
    ensures stands { (k : Config) (wanted : List ℕ) → length k.levels ≡ levels → Stands k result (StorageGetRaw wanted) }
{
    if level < levels {
        Phase::RawAsk(level, key)
    } else {
        Phase::AtSend(Response::StorageGetRaw(None))
    }
}

/// Where a lookup goes on after a level's answer.
fn asked(key: Text, level: u64, levels: u64, answer: &Answer) -> Result<Phase, NoMemory>
    requires level { level < levels }
    ensures phase { IfOk result (λ p. (k : Config) → length k.levels ≡ levels → p ≡ raw_phase (setup k) level key answer.now) }
    ensures stands { IfOk result (λ p. (k : Config) (asked : List ℕ) → length k.levels ≡ levels → Stands k p (StorageGetRaw asked)) }
{
    match answer {
        Answer::Hit(bytes, _) => {
            let found = bytes.try_clone()?;
            Ok(Phase::AtSend(Response::StorageGetRaw(Some(found))))
        }
        Answer::Miss => Ok(next_level(key, level + 1, levels)),
        Answer::Refused(_) => Ok(next_level(key, level + 1, levels)),
        Answer::Found(_) => Ok(next_level(key, level + 1, levels)),
        Answer::Size(_, _) => Ok(next_level(key, level + 1, levels)),
    }
}

/// Begins a request for the bytes under a key.
pub fn act_begin_get<H: Hold>(alloc: Global, hold: &mut H, key: &Text) -> Result<Acted, NoMemory>
    ensures acts { IfOk result (λ a. Acts (H.config hold.old) (StorageGetRaw key.now) Phase.AtBegin (H.moment hold.new) a) }
    ensures moves { IfOk result (λ a. (since : Moments) → H.moves hold.old (asker since (need_at (setup (H.config hold.old)) (StorageGetRaw key.now) Phase.AtBegin) (StorageGetRaw key.now)) a.what hold.new) }
    ensures same { IfOk result (λ a. H.config hold.new ≡ H.config hold.old) }
    ensures unsent { IfOk result (λ a. sent_by a.what ≡ []) }
{
    let levels = hold.level_count();
    let request = Request::StorageGetRaw(key.try_clone()?);
    let wanted = key.try_clone()?;
    begin_untold(alloc, hold, &request)?;
    Ok(Acted {
        what: What::Began(request, Told::Nothing),
        phase: next_level(wanted, 0, levels),
    })
}

/// Asks a level for the bytes under a key.
pub fn act_raw_ask<H: Hold>(
    alloc: Global,
    hold: &mut H,
    wanted: &Text,
    level: u64,
    key: Text,
    since: Since,
) -> Result<Acted, NoMemory>
    requires level { level < length (H.config hold.old).levels }
    ensures acts { IfOk result (λ a. Acts (H.config hold.old) (StorageGetRaw wanted.now) (Phase.RawAsk level key) (H.moment hold.new) a) }
    ensures moves { IfOk result (λ a. H.moves hold.old (asker since (need_at (setup (H.config hold.old)) (StorageGetRaw wanted.now) (Phase.RawAsk level key)) (StorageGetRaw wanted.now)) a.what hold.new) }
    ensures same { IfOk result (λ a. H.config hold.new ≡ H.config hold.old) }
    ensures unsent { IfOk result (λ a. sent_by a.what ≡ []) }
{
    let levels = hold.level_count();
    let lookup = hold.ask(alloc, level, &key, Mode::Raw, since)?;
    let asked_key = key.try_clone()?;
    let phase = asked(key, level, levels, &lookup.answer)?;
    Ok(Acted {
        what: What::Asked(level, asked_key, Mode::Raw, lookup.answer, lookup.handed),
        phase,
    })
}

/// Begins a put of bytes as they are.
pub fn act_begin_put<H: Hold>(
    alloc: Global,
    hold: &mut H,
    key: &Text,
    bytes: &ByteText,
) -> Result<Acted, NoMemory>
    ensures acts { IfOk result (λ a. Acts (H.config hold.old) (StoragePutRaw key.now bytes.now) Phase.AtBegin (H.moment hold.new) a) }
    ensures moves { IfOk result (λ a. (since : Moments) → H.moves hold.old (asker since (need_at (setup (H.config hold.old)) (StoragePutRaw key.now bytes.now) Phase.AtBegin) (StoragePutRaw key.now bytes.now)) a.what hold.new) }
    ensures same { IfOk result (λ a. H.config hold.new ≡ H.config hold.old) }
    ensures unsent { IfOk result (λ a. sent_by a.what ≡ []) }
{
    let levels = hold.plan(alloc)?;
    let put = Bytes {
        key: key.try_clone()?,
        bytes: bytes.try_clone()?,
        run: false,
    };
    let request = Request::StoragePutRaw(key.try_clone()?, bytes.try_clone()?);
    begin_untold(alloc, hold, &request)?;
    Ok(Acted {
        what: What::Began(request, Told::Nothing),
        phase: Phase::AtWrite(put, levels, Refusal::NoneYet, None),
    })
}

/// Ends a put.
pub(crate) fn end_put<H: Hold>(
    alloc: Global,
    hold: &mut H,
    key: &Text,
    put: &ByteText,
    bytes: Bytes,
    refusal: Refusal,
    since: Since,
) -> Result<Acted, NoMemory>
    ensures acts { IfOk result (λ a. Acts (H.config hold.old) (StoragePutRaw key.now put.now) (Phase.AtWrite bytes [] refusal None) (H.moment hold.new) a) }
    ensures moves { IfOk result (λ a. H.moves hold.old (asker since (need_at (setup (H.config hold.old)) (StoragePutRaw key.now put.now) (Phase.AtWrite bytes [] refusal None)) (StoragePutRaw key.now put.now)) a.what hold.new) }
    ensures same { IfOk result (λ a. H.config hold.new ≡ H.config hold.old) }
    ensures unsent { IfOk result (λ a. sent_by a.what ≡ []) }
{
    let end = hold.put_end(alloc, false, &bytes, refusal, since)?;
    let told = put_result(alloc, &end.answer)?;
    Ok(Acted {
        what: What::WriteEnded(end.answer, end.handed),
        phase: Phase::AtSend(Response::StoragePutRaw(told)),
    })
}
