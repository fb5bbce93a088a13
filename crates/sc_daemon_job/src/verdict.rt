//! What a run's output comes to.
ghost use Rattle.std.specs.Prelude.{◌≡◌};
ghost use Rattle.sc_daemon_job.specs.Judgements.{judged_by};
ghost use Rattle.sc_model.specs.Judging.{judge as judged, judge_miss};
ghost use Rattle.sc_model.specs.declared.event.Objects.{Objects};

use sc_model::{Job, MissType, RunOutput, Status};

/// What a run's output is: the first of these that holds.
#[derive(Clone, Copy)]
pub enum Judgement {
    /// Its status isn't 0.
    Failed,
    /// Its request asked for no cache.
    NotCached,
    NotCacheable,
    /// It is stored, where its objects could be collected.
    Cacheable,
}

/// Judges a run's output under the miss that it was run for.
pub fn judge(job: &Job, miss: MissType, out: &RunOutput) -> Judgement
    ensures { judged job.now miss out.now ≡ judged_by result out.now.objects }
{
    match out.output.status {
        Status::Code(0) => judge_success(job, miss),
        Status::Code(_) => Judgement::Failed,
        Status::Signal(_) => Judgement::Failed,
        Status::Neither => Judgement::Failed,
    }
}

fn judge_success(job: &Job, miss: MissType) -> Judgement
    ensures { (objects : Objects) → judge_miss miss job.now.found.cacheable objects ≡ judged_by result objects }
{
    if let MissType::ForcedNoCache = miss {
        return Judgement::NotCached;
    }
    if job.found.cacheable {
        Judgement::Cacheable
    } else {
        Judgement::NotCacheable
    }
}
