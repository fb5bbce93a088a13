//! The actions of requests for entries of the preprocessor.
ghost use Rattle.std.specs.Prelude.{◌≡◌, ◌<◌, ◌∷◌, ℕ, List, [], None, Ok, length, IfOk};
ghost use Rattle.sc_daemon_action.specs.Acts.{Acts};
ghost use Rattle.sc_daemon_action.specs.Sends.{Adds};
ghost use Rattle.sc_daemon_action.specs.Serves.{Stands};
ghost use Rattle.sc_daemon_job.specs.Askers.{asker};
ghost use Rattle.sc_daemon_job.specs.Setups.{Config, begins_with_p, setup};
ghost use Rattle.sc_daemon_job.specs.declared.since.Since.{Since as Moments};
ghost use Rattle.sc_model.specs.Conns.{need_at};
ghost use Rattle.sc_model.specs.Job.{put_bytes};
ghost use Rattle.sc_model.specs.Phases.{begin_pre_phase, phase_next, pre_phase};
ghost use Rattle.sc_model.specs.Plan as plans;
ghost use Rattle.sc_model.specs.There.{AreLevels};
ghost use Rattle.sc_model.specs.Trace.{sent_by};
ghost use Rattle.sc_model.specs.declared.message.Request.{Request as Asks};
ghost use Rattle.sc_model.specs.declared.message.Request.TheVariants.{StorageGetPreprocessorEntry as GetPre, StoragePutPreprocessorEntry as PutPre};
ghost use Rattle.sc_model.specs.declared.message.Response.TheVariants.{StorageGetPreprocessorEntry as PreReply};

use crate::acted::Acted;
use crate::sending::{alone, send};
use crate::storing::noted;
use crate::telling::begin_untold;
use crate::texts::{pre_put_result, refusal_text};
use sc_daemon_hold::Hold;
use sc_daemon_job::Since;
use sc_entry::{ByteText, NoMemory, Queue, Text};
use sc_model::{Answer, Bytes, Mode, Phase, Refusal, Request, Response, Told, What};
use std::alloc::Global;

/// Whether bytes can be an entry of the preprocessor: such a one begins with `P`.
fn is_valid(bytes: &[u8]) -> bool
    ensures { result ≡ begins_with_p bytes.now }
{
    match bytes {
        [first, ..] => *first == b'P',
        [] => false,
    }
}

/// Where a lookup goes on: at its next level, or with nothing found after the last.
fn next_level(key: Text, level: u64, levels: u64) -> Phase
    ensures phase { (k : Config) → length k.levels ≡ levels → result ≡ phase_next (setup k) level (Phase.PreAsk level key) (Phase.AtSend (PreReply (Ok None))) }
    ensures stands { (k : Config) (wanted : List ℕ) → length k.levels ≡ levels → Stands k result (GetPre wanted) }
{
    if level < levels {
        Phase::PreAsk(level, key)
    } else {
        Phase::AtSend(Response::StorageGetPreprocessorEntry(Ok(None)))
    }
}

/// Where a lookup goes on after a level's answer: what was found and the first refusal are told.
fn asked(
    alloc: Global,
    key: Text,
    level: u64,
    levels: u64,
    answer: &Answer,
) -> Result<Phase, NoMemory>
    requires level { level < levels }
    ensures phase { IfOk result (λ p. (k : Config) → length k.levels ≡ levels → p ≡ pre_phase (setup k) level key answer.now) }
    ensures stands { IfOk result (λ p. (k : Config) (wanted : List ℕ) → length k.levels ≡ levels → Stands k p (GetPre wanted)) }
{
    match answer {
        Answer::Hit(bytes, _) => {
            let found = bytes.try_clone()?;
            let told = Response::StorageGetPreprocessorEntry(Ok(Some(found)));
            Ok(Phase::AtSend(told))
        }
        Answer::Refused(cause) => {
            let text = refusal_text(alloc, *cause)?;
            let told = Response::StorageGetPreprocessorEntry(Err(text));
            Ok(Phase::AtSend(told))
        }
        Answer::Miss => Ok(next_level(key, level + 1, levels)),
        Answer::Found(_) => Ok(next_level(key, level + 1, levels)),
        Answer::Size(_, _) => Ok(next_level(key, level + 1, levels)),
    }
}

/// Begins a request for an entry of the preprocessor.
pub fn act_begin_get_pre<H: Hold>(
    alloc: Global,
    hold: &mut H,
    key: &Text,
) -> Result<Acted, NoMemory>
    ensures acts { IfOk result (λ a. Acts (H.config hold.old) (GetPre key.now) Phase.AtBegin (H.moment hold.new) a) }
    ensures moves { IfOk result (λ a. (since : Moments) → H.moves hold.old (asker since (need_at (setup (H.config hold.old)) (GetPre key.now) Phase.AtBegin) (GetPre key.now)) a.what hold.new) }
    ensures same { IfOk result (λ a. H.config hold.new ≡ H.config hold.old) }
    ensures unsent { IfOk result (λ a. sent_by a.what ≡ []) }
{
    let levels = hold.level_count();
    let request = Request::StorageGetPreprocessorEntry(key.try_clone()?);
    let wanted = key.try_clone()?;
    begin_untold(alloc, hold, &request)?;
    Ok(Acted {
        what: What::Began(request, Told::Nothing),
        phase: next_level(wanted, 0, levels),
    })
}

/// Asks a level for an entry of the preprocessor.
pub fn act_pre_ask<H: Hold>(
    alloc: Global,
    hold: &mut H,
    wanted: &Text,
    level: u64,
    key: Text,
    since: Since,
) -> Result<Acted, NoMemory>
    requires level { level < length (H.config hold.old).levels }
    ensures acts { IfOk result (λ a. Acts (H.config hold.old) (GetPre wanted.now) (Phase.PreAsk level key) (H.moment hold.new) a) }
    ensures moves { IfOk result (λ a. H.moves hold.old (asker since (need_at (setup (H.config hold.old)) (GetPre wanted.now) (Phase.PreAsk level key)) (GetPre wanted.now)) a.what hold.new) }
    ensures same { IfOk result (λ a. H.config hold.new ≡ H.config hold.old) }
    ensures unsent { IfOk result (λ a. sent_by a.what ≡ []) }
{
    let levels = hold.level_count();
    let lookup = hold.ask(alloc, level, &key, Mode::Pre, since)?;
    let asked_key = key.try_clone()?;
    let phase = asked(alloc, key, level, levels, &lookup.answer)?;
    Ok(Acted {
        what: What::Asked(level, asked_key, Mode::Pre, lookup.answer, lookup.handed),
        phase,
    })
}

/// Where a put begins: what can't be an entry is refused at once.
fn first_put(alloc: Global, valid: bool, put: Bytes, levels: Queue<u64>) -> Result<Phase, NoMemory>
    ensures phase { IfOk result (λ p. (k : Config) (r : Asks) → levels ≡ plans.pre_plan k.policy k.levels → put ≡ put_bytes r → p ≡ begin_pre_phase (setup k) valid r) }
    ensures stands { IfOk result (λ p. (k : Config) (key bytes : List ℕ) → AreLevels (length k.levels) levels → Stands k p (PutPre key bytes)) }
{
    if valid {
        return Ok(Phase::PrePut(put, levels, Refusal::NoneYet));
    }
    let text = Text::from_str(alloc, "bad preprocessor entry")?;
    Ok(Phase::AtSend(Response::StoragePutPreprocessorEntry(Err(text))))
}

/// Begins a put of an entry of the preprocessor.
pub fn act_begin_put_pre<H: Hold>(
    alloc: Global,
    hold: &mut H,
    key: &Text,
    bytes: &ByteText,
) -> Result<Acted, NoMemory>
    ensures acts { IfOk result (λ a. Acts (H.config hold.old) (PutPre key.now bytes.now) Phase.AtBegin (H.moment hold.new) a) }
    ensures moves { IfOk result (λ a. (since : Moments) → H.moves hold.old (asker since (need_at (setup (H.config hold.old)) (PutPre key.now bytes.now) Phase.AtBegin) (PutPre key.now bytes.now)) a.what hold.new) }
    ensures same { IfOk result (λ a. H.config hold.new ≡ H.config hold.old) }
    ensures unsent { IfOk result (λ a. sent_by a.what ≡ []) }
{
    let valid = is_valid(bytes.as_slice());
    let levels = hold.pre_plan(alloc)?;
    let put = Bytes {
        key: key.try_clone()?,
        bytes: bytes.try_clone()?,
        run: false,
    };
    let phase = first_put(alloc, valid, put, levels)?;
    let request = Request::StoragePutPreprocessorEntry(key.try_clone()?, bytes.try_clone()?);
    let told = Told::Valid(valid);
    hold.begin_plain(alloc, &request, &told)?;
    Ok(Acted {
        what: What::Began(request, told),
        phase,
    })
}

/// Puts the entry at its next level.
fn put_level<H: Hold>(
    alloc: Global,
    hold: &mut H,
    bytes: Bytes,
    level: u64,
    rest: Queue<u64>,
    refusal: Refusal,
    since: Since,
) -> Result<Acted, NoMemory>
    requires level { level < length (H.config hold.old).levels }
    requires rest { AreLevels (length (H.config hold.old).levels) rest }
    ensures acts { IfOk result (λ a. (key put : List ℕ) → Acts (H.config hold.old) (PutPre key put) (Phase.PrePut bytes (level ∷ rest) refusal) (H.moment hold.new) a) }
    ensures moves { IfOk result (λ a. (r : Asks) → H.moves hold.old (asker since (need_at (setup (H.config hold.old)) r (Phase.PrePut bytes (level ∷ rest) refusal)) r) a.what hold.new) }
    ensures same { IfOk result (λ a. H.config hold.new ≡ H.config hold.old) }
    ensures unsent { IfOk result (λ a. sent_by a.what ≡ []) }
{
    let written = hold.write_pre(alloc, level, &bytes, since)?;
    let key = bytes.key.try_clone()?;
    let copy = bytes.bytes.try_clone()?;
    let run = bytes.run;
    let refusal = noted(written, refusal, level);
    Ok(Acted {
        what: What::Wrote(level, key, copy, Mode::Pre, run, written),
        phase: Phase::PrePut(bytes, rest, refusal),
    })
}

/// Tells what the put came to.
fn end_put<H: Hold>(
    alloc: Global,
    hold: &mut H,
    bytes: Bytes,
    refusal: Refusal,
    out: &mut Vec<u8>,
) -> Result<Acted, NoMemory>
    ensures acts { IfOk result (λ a. (r : Asks) → Acts (H.config hold.old) r (Phase.PrePut bytes [] refusal) (H.moment hold.new) a) }
    ensures moves { IfOk result (λ a. (r : Asks) (since : Moments) → H.moves hold.old (asker since (need_at (setup (H.config hold.old)) r (Phase.PrePut bytes [] refusal)) r) a.what hold.new) }
    ensures same { IfOk result (λ a. H.config hold.new ≡ H.config hold.old) }
    ensures sent { IfOk result (λ a. Adds (H.config hold.old) (sent_by a.what) out.old.items out.new.items) }
{
    let single = hold.is_single();
    let told = pre_put_result(alloc, single, refusal)?;
    let reply = Response::StoragePutPreprocessorEntry(told);
    match send(alloc, hold, &reply, out)? {
        None => {
            hold.tick();
            Ok(Acted {
                what: What::Sent(reply),
                phase: Phase::AtOver,
            })
        }
        Some(size) => {
            let left = alone(alloc, reply)?;
            hold.tick();
            Ok(Acted {
                what: What::TooLong(size),
                phase: Phase::AtEnded(left),
            })
        }
    }
}

/// Puts the entry at its next level, or tells what the put came to.
pub fn act_pre_put<H: Hold>(
    alloc: Global,
    hold: &mut H,
    bytes: Bytes,
    levels: Queue<u64>,
    refusal: Refusal,
    out: &mut Vec<u8>,
    since: Since,
) -> Result<Acted, NoMemory>
    requires { AreLevels (length (H.config hold.old).levels) levels }
    ensures acts { IfOk result (λ a. (key put : List ℕ) → Acts (H.config hold.old) (PutPre key put) (Phase.PrePut bytes levels refusal) (H.moment hold.new) a) }
    ensures moves { IfOk result (λ a. (r : Asks) → H.moves hold.old (asker since (need_at (setup (H.config hold.old)) r (Phase.PrePut bytes levels refusal)) r) a.what hold.new) }
    ensures same { IfOk result (λ a. H.config hold.new ≡ H.config hold.old) }
    ensures sent { IfOk result (λ a. Adds (H.config hold.old) (sent_by a.what) out.old.items out.new.items) }
{
    let mut rest = levels;
    match rest.pop_front() {
        Some(level) => put_level(alloc, hold, bytes, level, rest, refusal, since),
        None => end_put(alloc, hold, bytes, refusal, out),
    }
}
