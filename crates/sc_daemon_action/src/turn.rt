//! Where a job goes on: to a lookup at its next level, or to its run.
ghost use Rattle.std.specs.Prelude.{◌≡◌, ◌+◌, ◌<◌, length, IfOk};
ghost use Rattle.sc_daemon_action.specs.Controls.{control_of as control_in};
ghost use Rattle.sc_daemon_action.specs.Serves.{Stands};
ghost use Rattle.sc_daemon_job.specs.Setups.{Config, setup};
ghost use Rattle.sc_model.specs.Job as jobs;
ghost use Rattle.sc_model.specs.Phases.{control_phase, missed_phase, phase_next, whole_phase, work_of as work_record, work_phase};
ghost use Rattle.sc_daemon_action.specs.Misses.{refused_miss};
ghost use Rattle.sc_model.specs.Script.{is_single};
ghost use Rattle.sc_model.specs.declared.message.Compile.{Compile as CompileRequest};
ghost use Rattle.sc_model.specs.declared.message.Request.TheVariants.{Compile as CompileOf};

use crate::control::Control;
use sc_entry::{ByteText, NoMemory};
use sc_model::{Answer, DistType, Job, MissType, Phase, Work};

/// The lookup limit, in nanoseconds: 60 s.
const LOOKUP_LIMIT: u64 = 60_000_000_000;

fn work_of(job: Job, miss: MissType, from: u64) -> Work
    ensures { result ≡ work_record job miss from }
{
    Work {
        job,
        miss,
        dist: DistType::NoDist,
        from,
    }
}

/// A job goes on to its run: by its distributed client, where it has one.
fn to_work(job: Job, miss: MissType, now: u64) -> Phase
    ensures phase { result ≡ work_phase job miss now }
    ensures stands { (k : Config) (c : CompileRequest) → Stands k result (CompileOf c) }
{
    let work = work_of(job, miss, now);
    if work.job.client {
        Phase::AtDist(work)
    } else {
        Phase::AtTake(work)
    }
}

/// A miss at the default control: a job with a distributed client looks for its key once more, unless it was preprocessed here.
pub fn to_miss(job: Job, miss: MissType, now: u64) -> Phase
    ensures phase { result ≡ missed_phase job miss now }
    ensures stands { (k : Config) (c : CompileRequest) → Stands k result (CompileOf c) }
{
    if !job.found.locally_preprocessed && job.client {
        return Phase::AtKey(job.task, false);
    }
    to_work(job, miss, now)
}

/// A lookup's next level, or a miss after the last.
fn next_level(job: Job, level: u64, levels: u64, miss: MissType, now: u64) -> Phase
    ensures phase { (k : Config) → length k.levels ≡ levels → result ≡ phase_next (setup k) level (Phase.AtAsk job level) (missed_phase job miss now) }
    ensures stands { (k : Config) (c : CompileRequest) → length k.levels ≡ levels → Stands k result (CompileOf c) }
{
    if level < levels {
        Phase::AtAsk(job, level)
    } else {
        to_miss(job, miss, now)
    }
}

/// Where a job stands once its key is found.
pub fn keyed(job: Job, control: Control, levels: u64, now: u64) -> Phase
    ensures phase { (k : Config) → length k.levels ≡ levels → result ≡ control_phase (setup k) (control_in control) job now }
    ensures stands { (k : Config) (c : CompileRequest) → length k.levels ≡ levels → Stands k result (CompileOf c) }
{
    match control {
        Control::Default => next_level(job, 0, levels, MissType::Normal, now),
        Control::ForceNoCache => to_work(job, MissType::ForcedNoCache, now),
        Control::ForceRecache => to_work(job, MissType::ForcedRecache, now),
    }
}

/// Whether a lookup has taken longer than it may.
fn is_late(job: &Job, now: u64) -> bool
    ensures { result ≡ jobs.is_late job.now now }
{
    LOOKUP_LIMIT < now.saturating_sub(job.at)
}

fn if_late(late: bool, miss: MissType) -> MissType
    ensures { result ≡ jobs.if_late late miss }
{
    if late { MissType::TimedOut } else { miss }
}

/// Where a job stands after a level's hit: one that came too late is a miss.
fn hit(job: Job, level: u64, bytes: &ByteText, mark: bool, now: u64) -> Result<Phase, NoMemory>
    ensures phase { IfOk result (λ p. (k : Config) → p ≡ whole_phase (setup k) job now level (Answer.Hit bytes.now mark)) }
    ensures stands { IfOk result (λ p. (k : Config) (c : CompileRequest) → Stands k p (CompileOf c)) }
{
    if is_late(&job, now) {
        return Ok(to_miss(job, MissType::TimedOut, now));
    }
    let duration = now.saturating_sub(job.at);
    Ok(Phase::AtPlace(job, bytes.try_clone()?, duration))
}

/// Where a job stands after a level gave nothing.
fn missed(job: Job, level: u64, levels: u64, miss: MissType, now: u64) -> Phase
    requires level { level < levels }
    ensures phase { (k : Config) → length k.levels ≡ levels → result ≡ phase_next (setup k) (level + 1) (Phase.AtAsk job (level + 1)) (missed_phase job (jobs.if_late (jobs.is_late job now) miss) now) }
    ensures stands { (k : Config) (c : CompileRequest) → length k.levels ≡ levels → Stands k result (CompileOf c) }
{
    let miss = if_late(is_late(&job, now), miss);
    next_level(job, level + 1, levels, miss, now)
}

/// What kind of miss a refusal is: of a store that stands alone it is an error of reading.
fn refused(single: bool) -> MissType
    ensures { result ≡ refused_miss single }
{
    if single {
        MissType::CacheReadError
    } else {
        MissType::Normal
    }
}

/// Where a job stands after a level's answer to its lookup.
#[tactic(auto, using(crate::proofs::Misses::by_refusal, crate::proofs::Misses::by_miss, crate::proofs::Misses::by_path, crate::proofs::Misses::by_size))]
pub fn asked(
    job: Job,
    level: u64,
    levels: u64,
    single: bool,
    answer: &Answer,
    now: u64,
) -> Result<Phase, NoMemory>
    requires level { level < levels }
    ensures phase { IfOk result (λ p. (k : Config) → length k.levels ≡ levels → is_single k.policy ≡ single → p ≡ whole_phase (setup k) job now level answer.now) }
    ensures stands { IfOk result (λ p. (k : Config) (c : CompileRequest) → length k.levels ≡ levels → Stands k p (CompileOf c)) }
{
    match answer {
        Answer::Hit(bytes, mark) => hit(job, level, bytes, *mark, now),
        Answer::Refused(_) => Ok(missed(job, level, levels, refused(single), now)),
        Answer::Miss => Ok(missed(job, level, levels, MissType::Normal, now)),
        Answer::Found(_) => Ok(missed(job, level, levels, MissType::Normal, now)),
        Answer::Size(_, _) => Ok(missed(job, level, levels, MissType::Normal, now)),
    }
}
