//! The actions of a run: a token is taken, and the compiler is run, here or on other machines.
ghost use Rattle.std.specs.Prelude.{◌≡◌, true, false, [], ◌∷◌, IfOk};
ghost use Rattle.sc_daemon_action.specs.Acts.{Acts};
ghost use Rattle.sc_daemon_action.specs.Ran.{ran_by};
ghost use Rattle.sc_daemon_action.specs.Serves.{Stands};
ghost use Rattle.sc_daemon_job.specs.Askers.{asker};
ghost use Rattle.sc_daemon_job.specs.Setups.{Config, setup};
ghost use Rattle.sc_daemon_job.specs.declared.since.Since.{Since as Moments};
ghost use Rattle.sc_model.specs.Conns.{need_at};
ghost use Rattle.sc_model.specs.Phases.{dist_phase, ending_of, ran_phase};
ghost use Rattle.sc_model.specs.Trace.{sent_by};
ghost use Rattle.sc_model.specs.declared.message.Request.TheVariants.{Compile as CompileOf};
ghost use Rattle.sc_model.specs.Collected.{GoodAnswer, GoodObjects};
ghost use Rattle.sc_model.specs.Finishing as finishing;
ghost use Rattle.sc_model.specs.Judging as judging;
ghost use Rattle.sc_model.specs.declared.message.Compile.{Compile as CompileRequest};
ghost use Rattle.sc_daemon_hold.specs.Distributing.{GoodDist};

use crate::acted::Acted;
use sc_daemon_hold::Hold;
use sc_daemon_job::{
    Judgement, entry_of, finish_fatal, finish_http, finish_output, judge, run_notes,
};
use sc_entry::{ByteText, Items, NoMemory, Queue, Text};
use sc_model::{
    Bytes, ColorMode, Compile, CompileFinished, DistAnswer, DistType, Ending, Job, Objects, Output,
    Phase, RunAnswer, RunOutput, Verdict, What, Work,
};
use std::alloc::Global;

/// Takes a token for a job's run.
pub fn act_take<H: Hold>(hold: &mut H, request: &Compile, work: Work) -> Result<Acted, NoMemory>
    ensures acts { IfOk result (λ a. Acts (H.config hold.old) (CompileOf request.now) (Phase.AtTake work) (H.moment hold.new) a) }
    ensures moves { IfOk result (λ a. (since : Moments) → H.moves hold.old (asker since (need_at (setup (H.config hold.old)) (CompileOf request.now) (Phase.AtTake work)) (CompileOf request.now)) a.what hold.new) }
    ensures same { IfOk result (λ a. H.config hold.new ≡ H.config hold.old) }
    ensures unsent { IfOk result (λ a. sent_by a.what ≡ []) }
{
    hold.take_token();
    Ok(Acted {
        what: What::TokenTaken,
        phase: Phase::AtRun(work),
    })
}

/// Where a job stands whose run is not stored: it is told as it is.
fn unstored(
    job: &Job,
    verdict: Verdict,
    out: &Output,
    notes: Queue<ByteText>,
) -> Result<Phase, NoMemory>
    ensures phase { IfOk result (λ p. (k : Config) (c : CompileRequest) → p ≡ Phase.AtEnd verdict job.now.task (ending_of notes (finishing.finish_output (setup k) (CompileOf c) out.now))) }
    ensures stands { IfOk result (λ p. (k : Config) (c : CompileRequest) → Stands k p (CompileOf c)) }
{
    let last = finish_output(ColorMode::Auto, out)?;
    Ok(Phase::AtEnd(verdict, job.task, Ending { notes, last }))
}

/// Where a job stands that a fault ended.
fn faulted(
    alloc: Global,
    job: &Job,
    chain: &[Text],
    notes: Queue<ByteText>,
) -> Result<Phase, NoMemory>
    ensures phase { IfOk result (λ p. (k : Config) (c : CompileRequest) → p ≡ Phase.AtEnd Verdict.Fault job.now.task (ending_of notes (finishing.finish_fatal (setup k) (CompileOf c) chain.now))) }
    ensures stands { IfOk result (λ p. (k : Config) (c : CompileRequest) → Stands k p (CompileOf c)) }
{
    let last = finish_fatal(alloc, ColorMode::Auto, chain)?;
    Ok(Phase::AtEnd(Verdict::Fault, job.task, Ending { notes, last }))
}

/// Where a job stands whose run is stored; `mark` is whether it ran here.
fn stored(work: Work, entry: ByteText, mark: bool, ending: Ending, duration: u64) -> Phase
    ensures { result ≡ Phase.AtStore (Verdict.CacheMiss work.miss work.dist duration) work.job.task (record { key = work.job.found.key; bytes = entry; run = mark }) ending }
{
    let Work {
        job,
        miss,
        dist,
        ..
    } = work;
    let Job { task, found, .. } = job;
    let bytes = Bytes {
        key: found.key,
        bytes: entry,
        run: mark,
    };
    Phase::AtStore(
        Verdict::CacheMiss(miss, dist, duration),
        task,
        bytes,
        ending,
    )
}

/// Where a job stands whose run can be stored, or whose objects could not be collected.
fn cacheable(
    alloc: Global,
    work: Work,
    out: &RunOutput,
    mark: bool,
    notes: Queue<ByteText>,
    duration: u64,
) -> Result<Phase, NoMemory>
    requires { GoodObjects out.now.objects }
    ensures phase { IfOk result (λ p. (k : Config) (c : CompileRequest) → p ≡ ran_by k c work mark notes duration out.now (judging.judge_objects out.now.objects)) }
    ensures stands { IfOk result (λ p. (k : Config) (c : CompileRequest) → Stands k p (CompileOf c)) }
{
    match &out.objects {
        Objects::Collected(objects) => {
            let entry = entry_of(
                alloc,
                objects.as_slice(),
                out.output.stdout.as_slice(),
                out.output.stderr.as_slice(),
            )?;
            let last = finish_output(ColorMode::Auto, &out.output)?;
            Ok(stored(work, entry, mark, Ending { notes, last }, duration))
        }
        Objects::Broken(chain) => Ok(faulted(alloc, &work.job, chain.as_slice(), notes)?),
    }
}

/// Where a job stands after a run that gave an output.
fn ran_output(
    alloc: Global,
    work: Work,
    out: &RunOutput,
    mark: bool,
    notes: Queue<ByteText>,
    duration: u64,
) -> Result<Phase, NoMemory>
    requires { GoodObjects out.now.objects }
    ensures phase { IfOk result (λ p. (k : Config) (c : CompileRequest) → p ≡ ran_by k c work mark notes duration out.now (judging.judge work.job work.miss out.now)) }
    ensures stands { IfOk result (λ p. (k : Config) (c : CompileRequest) → Stands k p (CompileOf c)) }
{
    match judge(&work.job, work.miss, out) {
        Judgement::Failed => {
            let verdict = Verdict::CompileFailed(work.dist, duration);
            Ok(unstored(&work.job, verdict, &out.output, notes)?)
        }
        Judgement::NotCached => {
            let verdict = Verdict::NotCached(work.dist, duration);
            Ok(unstored(&work.job, verdict, &out.output, notes)?)
        }
        Judgement::NotCacheable => {
            let verdict = Verdict::NotCacheable(work.dist, duration);
            Ok(unstored(&work.job, verdict, &out.output, notes)?)
        }
        Judgement::Cacheable => Ok(cacheable(alloc, work, out, mark, notes, duration)?),
    }
}

/// Where a job stands after its run.
fn ran(alloc: Global, work: Work, answer: &RunAnswer, now: u64) -> Result<Phase, NoMemory>
    requires { GoodAnswer answer.now }
    ensures phase { IfOk result (λ p. (k : Config) (c : CompileRequest) → p ≡ ran_phase (setup k) (CompileOf c) work now answer.now) }
    ensures stands { IfOk result (λ p. (k : Config) (c : CompileRequest) → Stands k p (CompileOf c)) }
{
    let kind = work.job.task.kind;
    match answer {
        RunAnswer::Output(out) => {
            let duration = now.saturating_sub(work.from);
            let notes = run_notes(alloc, kind, out.output.stderr.as_slice())?;
            Ok(ran_output(alloc, work, out, true, notes, duration)?)
        }
        RunAnswer::ProcessError(out) => {
            let notes = run_notes(alloc, kind, out.stderr.as_slice())?;
            Ok(unstored(&work.job, Verdict::ProcessError, out, notes)?)
        }
        RunAnswer::Fault(chain) => {
            let notes = Queue::new(alloc);
            Ok(faulted(alloc, &work.job, chain.as_slice(), notes)?)
        }
    }
}

/// How a job ends that a server refused, in this text.
fn refused<H: Hold>(
    alloc: Global,
    hold: &H,
    request: &Compile,
    text: &Text,
) -> Result<CompileFinished, NoMemory>
    ensures { IfOk result (λ f. f ≡ finishing.finish_http (setup (H.config hold.now)) (CompileOf request.now) text.now) }
{
    let pretty = hold.pretty(alloc, request)?;
    finish_http(alloc, ColorMode::Auto, pretty.as_slice(), text)
}

/// A chain of one text.
fn one_text(alloc: Global, text: &Text) -> Result<Items<Text>, NoMemory>
    ensures { IfOk result (λ chain. chain ≡ text.now ∷ []) }
{
    let mut chain = Items::new(alloc);
    chain.push(text.try_clone()?)?;
    Ok(chain)
}

/// Where a job stands after it was compiled on another machine, or wasn't.
fn distributed<H: Hold>(
    alloc: Global,
    hold: &H,
    request: &Compile,
    work: Work,
    answer: &DistAnswer,
    now: u64,
) -> Result<Phase, NoMemory>
    requires { GoodDist answer.now }
    ensures phase { IfOk result (λ p. p ≡ dist_phase (setup (H.config hold.now)) (CompileOf request.now) work now answer.now) }
    ensures stands { IfOk result (λ p. (k : Config) → Stands k p (CompileOf request.now)) }
{
    match answer {
        DistAnswer::Done(server, out) => {
            let duration = now.saturating_sub(work.from);
            let dist = DistType::Ok(server.try_clone()?);
            let work = Work { dist, ..work };
            Ok(ran_output(alloc, work, out, false, Queue::new(alloc), duration)?)
        }
        DistAnswer::Http(text) => {
            let last = refused(alloc, hold, request, text)?;
            let notes = Queue::new(alloc);
            Ok(Phase::AtEnd(Verdict::Http, work.job.task, Ending { notes, last }))
        }
        DistAnswer::TooLarge(text) => {
            let chain = one_text(alloc, text)?;
            let notes = Queue::new(alloc);
            Ok(faulted(alloc, &work.job, chain.as_slice(), notes)?)
        }
        DistAnswer::Other(_) => {
            let dist = DistType::Error;
            Ok(Phase::AtTake(Work { dist, ..work }))
        }
    }
}

/// Compiles on another machine.
pub fn act_dist<H: Hold>(
    alloc: Global,
    hold: &mut H,
    request: &Compile,
    work: Work,
) -> Result<Acted, NoMemory>
    ensures acts { IfOk result (λ a. Acts (H.config hold.old) (CompileOf request.now) (Phase.AtDist work) (H.moment hold.new) a) }
    ensures moves { IfOk result (λ a. (since : Moments) → H.moves hold.old (asker since (need_at (setup (H.config hold.old)) (CompileOf request.now) (Phase.AtDist work)) (CompileOf request.now)) a.what hold.new) }
    ensures same { IfOk result (λ a. H.config hold.new ≡ H.config hold.old) }
    ensures unsent { IfOk result (λ a. sent_by a.what ≡ []) }
{
    let answer = hold.distribute(
        alloc,
        request,
        &work.job.found.key,
        work.job.found.outputs.as_slice(),
    )?;
    let now = hold.now();
    let phase = distributed(alloc, hold, request, work, &answer, now)?;
    Ok(Acted {
        what: What::Dist(answer),
        phase,
    })
}

/// Runs the compiler.
pub fn act_run<H: Hold>(
    alloc: Global,
    hold: &mut H,
    request: &Compile,
    work: Work,
) -> Result<Acted, NoMemory>
    ensures acts { IfOk result (λ a. Acts (H.config hold.old) (CompileOf request.now) (Phase.AtRun work) (H.moment hold.new) a) }
    ensures moves { IfOk result (λ a. (since : Moments) → H.moves hold.old (asker since (need_at (setup (H.config hold.old)) (CompileOf request.now) (Phase.AtRun work)) (CompileOf request.now)) a.what hold.new) }
    ensures same { IfOk result (λ a. H.config hold.new ≡ H.config hold.old) }
    ensures unsent { IfOk result (λ a. sent_by a.what ≡ []) }
{
    let answer = hold.run(
        alloc,
        request,
        &work.job.found.key,
        work.job.found.outputs.as_slice(),
    )?;
    let now = hold.now();
    let phase = ran(alloc, work, &answer, now)?;
    Ok(Acted {
        what: What::Ran(answer),
        phase,
    })
}
