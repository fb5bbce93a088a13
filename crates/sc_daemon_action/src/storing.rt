//! The actions from a job's outcome to the end of its write, but those at disk levels.
ghost use Rattle.std.specs.Prelude.{◌≡◌, ◌<◌, ◌∷◌, [], length, Some, IfOk};
ghost use Rattle.sc_daemon_action.specs.Acts.{Acts};
ghost use Rattle.sc_daemon_action.specs.Serves.{IsWriter};
ghost use Rattle.sc_model.specs.There.{AreLevels};
ghost use Rattle.sc_daemon_job.specs.Askers.{asker};
ghost use Rattle.sc_daemon_job.specs.Setups.{setup};
ghost use Rattle.sc_daemon_job.specs.declared.since.Since.{Since as Moments};
ghost use Rattle.sc_model.specs.Conns.{need_at};
ghost use Rattle.sc_model.specs.Trace.{sent_by};
ghost use Rattle.sc_model.specs.declared.message.Request.{Request as Asks};
ghost use Rattle.sc_model.specs.declared.message.Request.TheVariants.{Compile as CompileOf};
ghost use Rattle.sc_model.specs.Dues.{kind_at};
ghost use Rattle.sc_model.specs.Phases as machine;
ghost use Rattle.sc_model.specs.declared.level.LevelKind.TheVariants.{Remote};
ghost use Rattle.sc_model.specs.Plan as plans;

use crate::acted::Acted;
use crate::control::counted_task;
use sc_daemon_hold::Hold;
use sc_daemon_job::Since;
use sc_entry::{NoMemory, Queue};
use sc_model::{Bytes, Compile, Ending, Mode, Phase, Refusal, Task, Verdict, What, Written};
use std::alloc::Global;

/// Tells the outcome of a job that stores nothing.
pub fn act_end<H: Hold>(
    alloc: Global,
    hold: &mut H,
    request: &Compile,
    verdict: Verdict,
    task: Task,
    ending: Ending,
) -> Result<Acted, NoMemory>
    ensures acts { IfOk result (λ a. Acts (H.config hold.old) (CompileOf request.now) (Phase.AtEnd verdict task ending) (H.moment hold.new) a) }
    ensures moves { IfOk result (λ a. (since : Moments) → H.moves hold.old (asker since (need_at (setup (H.config hold.old)) (CompileOf request.now) (Phase.AtEnd verdict task ending)) (CompileOf request.now)) a.what hold.new) }
    ensures same { IfOk result (λ a. H.config hold.new ≡ H.config hold.old) }
    ensures unsent { IfOk result (λ a. sent_by a.what ≡ []) }
{
    let task = counted_task(request, task);
    hold.outcome(alloc, &verdict, task)?;
    Ok(Acted {
        what: What::Outcome(verdict, task),
        phase: Phase::AtFinish(ending.notes, ending.last),
    })
}

/// Tells the outcome of a job whose run is stored.
pub fn act_store<H: Hold>(
    alloc: Global,
    hold: &mut H,
    request: &Compile,
    verdict: Verdict,
    task: Task,
    bytes: Bytes,
    ending: Ending,
) -> Result<Acted, NoMemory>
    ensures acts { IfOk result (λ a. Acts (H.config hold.old) (CompileOf request.now) (Phase.AtStore verdict task bytes ending) (H.moment hold.new) a) }
    ensures moves { IfOk result (λ a. (since : Moments) → H.moves hold.old (asker since (need_at (setup (H.config hold.old)) (CompileOf request.now) (Phase.AtStore verdict task bytes ending)) (CompileOf request.now)) a.what hold.new) }
    ensures same { IfOk result (λ a. H.config hold.new ≡ H.config hold.old) }
    ensures unsent { IfOk result (λ a. sent_by a.what ≡ []) }
{
    let levels = hold.plan(alloc)?;
    let task = counted_task(request, task);
    hold.outcome(alloc, &verdict, task)?;
    Ok(Acted {
        what: What::Outcome(verdict, task),
        phase: Phase::AtWrite(bytes, levels, Refusal::NoneYet, Some(ending)),
    })
}

/// The first refusal of a write, after one more level's answer.
pub(crate) fn noted(written: Written, refusal: Refusal, level: u64) -> Refusal
    ensures { result ≡ machine.noted written refusal level }
{
    match (written, refusal) {
        (Written::Refused(cause), Refusal::NoneYet) => Refusal::At(level, cause),
        (Written::Refused(_), Refusal::At(_, _)) => refusal,
        (Written::Done, _) => refusal,
    }
}

/// The levels that are still written: none after level 0 refused.
pub(crate) fn goes_on(alloc: Global, refusal: Refusal, levels: Queue<u64>) -> Queue<u64>
    ensures { result ≡ plans.goes_on refusal levels }
{
    match refusal {
        Refusal::NoneYet => levels,
        Refusal::At(0, _) => Queue::new(alloc),
        Refusal::At(_, _) => levels,
    }
}

/// Writes at the next level, a remote one, for a compile that ends so behind its write, or for another put.
pub(crate) fn write_level<H: Hold>(
    alloc: Global,
    hold: &mut H,
    bytes: Bytes,
    level: u64,
    rest: Queue<u64>,
    refusal: Refusal,
    ending: Option<Ending>,
    since: Since,
) -> Result<Acted, NoMemory>
    requires level { level < length (H.config hold.old).levels }
    requires remote { kind_at (H.config hold.old).levels level ≡ Remote }
    requires rest { AreLevels (length (H.config hold.old).levels) rest }
    ensures acts { IfOk result (λ a. (r : Asks) → IsWriter r ending → Acts (H.config hold.old) r (Phase.AtWrite bytes (level ∷ rest) refusal ending) (H.moment hold.new) a) }
    ensures moves { IfOk result (λ a. (r : Asks) → H.moves hold.old (asker since (need_at (setup (H.config hold.old)) r (Phase.AtWrite bytes (level ∷ rest) refusal ending)) r) a.what hold.new) }
    ensures same { IfOk result (λ a. H.config hold.new ≡ H.config hold.old) }
    ensures unsent { IfOk result (λ a. sent_by a.what ≡ []) }
{
    let written = hold.write(alloc, level, &bytes, since)?;
    let key = bytes.key.try_clone()?;
    let copy = bytes.bytes.try_clone()?;
    let run = bytes.run;
    let refusal = noted(written, refusal, level);
    let levels = goes_on(alloc, refusal, rest);
    Ok(Acted {
        what: What::Wrote(level, key, copy, Mode::Whole, run, written),
        phase: Phase::AtWrite(bytes, levels, refusal, ending),
    })
}

/// Ends a write.
pub(crate) fn end_write<H: Hold>(
    alloc: Global,
    hold: &mut H,
    request: &Compile,
    bytes: Bytes,
    refusal: Refusal,
    ending: Ending,
    since: Since,
) -> Result<Acted, NoMemory>
    ensures acts { IfOk result (λ a. Acts (H.config hold.old) (CompileOf request.now) (Phase.AtWrite bytes [] refusal (Some ending)) (H.moment hold.new) a) }
    ensures moves { IfOk result (λ a. H.moves hold.old (asker since (need_at (setup (H.config hold.old)) (CompileOf request.now) (Phase.AtWrite bytes [] refusal (Some ending))) (CompileOf request.now)) a.what hold.new) }
    ensures same { IfOk result (λ a. H.config hold.new ≡ H.config hold.old) }
    ensures unsent { IfOk result (λ a. sent_by a.what ≡ []) }
{
    let end = hold.put_end(alloc, true, &bytes, refusal, since)?;
    Ok(Acted {
        what: What::WriteEnded(end.answer, end.handed),
        phase: Phase::AtFinish(ending.notes, ending.last),
    })
}
