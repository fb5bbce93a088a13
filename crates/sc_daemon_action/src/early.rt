//! The actions of a compile up to its lookup.
ghost use Rattle.std.specs.Prelude.{◌≡◌, [], length, IfOk};
ghost use Rattle.sc_daemon_action.specs.Acts.{Acts};
ghost use Rattle.sc_daemon_action.specs.Serves.{Stands};
ghost use Rattle.sc_daemon_job.specs.Askers.{asker};
ghost use Rattle.sc_daemon_job.specs.Setups.{Config, setup};
ghost use Rattle.sc_daemon_job.specs.declared.since.Since.{Since as Moments};
ghost use Rattle.sc_model.specs.Conns.{need_at};
ghost use Rattle.sc_model.specs.Phases.{begin_compile_phase, key_phase};
ghost use Rattle.sc_model.specs.Trace.{sent_by};
ghost use Rattle.sc_model.specs.declared.message.Request.TheVariants.{Compile as CompileOf};
ghost use Rattle.sc_model.specs.declared.message.Compile.{Compile as CompileRequest};

use crate::acted::Acted;
use crate::control::control_of;
use crate::turn::keyed;
use sc_daemon_hold::{Hold, Keying};
use sc_daemon_job::{finish_fatal, finish_output};
use sc_entry::{ByteText, NoMemory, Queue};
use sc_model::{
    ColorMode, Compile, CompileResponse, Ending, Job, KeyStep, Parsed, Phase, Request, Response,
    Task, Told, Verdict, What,
};
use std::alloc::Global;

/// Where a compile stands once its words are read.
fn begun(alloc: Global, parsed: &Parsed) -> Result<Phase, NoMemory>
    ensures phase { IfOk result (λ p. p ≡ begin_compile_phase parsed.now) }
    ensures stands { IfOk result (λ p. (k : Config) (c : CompileRequest) → Stands k p (CompileOf c)) }
{
    match parsed {
        Parsed::Started(task) => return Ok(Phase::AtStarted(*task)),
        Parsed::NotCompile => {
            return Ok(Phase::AtSend(Response::Compile(CompileResponse::UnhandledCompile)));
        }
        Parsed::CannotCache(_, _) => {
            return Ok(Phase::AtSend(Response::Compile(CompileResponse::UnhandledCompile)));
        }
        Parsed::Unsupported(text) => {
            let text = ByteText::from_slice(alloc, text.as_bytes())?;
            return Ok(Phase::AtSend(Response::Compile(CompileResponse::UnsupportedCompiler(text))));
        }
    }
}

/// Begins a compile.
pub fn act_begin<H: Hold>(alloc: Global, hold: &mut H, request: &Compile) -> Result<Acted, NoMemory>
    ensures acts { IfOk result (λ a. Acts (H.config hold.old) (CompileOf request.now) Phase.AtBegin (H.moment hold.new) a) }
    ensures moves { IfOk result (λ a. (since : Moments) → H.moves hold.old (asker since (need_at (setup (H.config hold.old)) (CompileOf request.now) Phase.AtBegin) (CompileOf request.now)) a.what hold.new) }
    ensures same { IfOk result (λ a. H.config hold.new ≡ H.config hold.old) }
    ensures unsent { IfOk result (λ a. sent_by a.what ≡ []) }
{
    let parsed = hold.begin(alloc, request)?;
    let request = request.clone()?;
    let phase = begun(alloc, &parsed)?;
    Ok(Acted {
        what: What::Began(Request::Compile(request), Told::Compile(parsed)),
        phase,
    })
}

/// Where a compile stands after its key step: it goes on with a key, and ends without one.
fn after_key(
    alloc: Global,
    request: &Compile,
    task: Task,
    first: bool,
    keying: &Keying,
    levels: u64,
    now: u64,
) -> Result<Phase, NoMemory>
    ensures phase { IfOk result (λ p. (k : Config) → length k.levels ≡ levels → p ≡ key_phase (setup k) (CompileOf request.now) task now first keying.now.client keying.now.step) }
    ensures stands { IfOk result (λ p. (k : Config) → length k.levels ≡ levels → Stands k p (CompileOf request.now)) }
{
    match &keying.step {
        KeyStep::Key(found) => {
            let job = Job {
                task,
                found: found.clone()?,
                at: now,
                client: keying.client,
                first,
            };
            Ok(keyed(job, control_of(request, first), levels, now))
        }
        KeyStep::ProcessError(out) => {
            let last = finish_output(ColorMode::Auto, out)?;
            let notes = Queue::new(alloc);
            Ok(Phase::AtEnd(Verdict::Error, task, Ending { notes, last }))
        }
        KeyStep::Fault(chain) => {
            let last = finish_fatal(alloc, ColorMode::Auto, chain.as_slice())?;
            let notes = Queue::new(alloc);
            Ok(Phase::AtEnd(Verdict::Fault, task, Ending { notes, last }))
        }
    }
}

/// Finds the key of a compile.
pub fn act_key<H: Hold>(
    alloc: Global,
    hold: &mut H,
    request: &Compile,
    task: Task,
    first: bool,
) -> Result<Acted, NoMemory>
    ensures acts { IfOk result (λ a. Acts (H.config hold.old) (CompileOf request.now) (Phase.AtKey task first) (H.moment hold.new) a) }
    ensures moves { IfOk result (λ a. (since : Moments) → H.moves hold.old (asker since (need_at (setup (H.config hold.old)) (CompileOf request.now) (Phase.AtKey task first)) (CompileOf request.now)) a.what hold.new) }
    ensures same { IfOk result (λ a. H.config hold.new ≡ H.config hold.old) }
    ensures unsent { IfOk result (λ a. sent_by a.what ≡ []) }
{
    let levels = hold.level_count();
    let keying = hold.key(alloc, request, first)?;
    let now = hold.now();
    let phase = after_key(alloc, request, task, first, &keying, levels, now)?;
    Ok(Acted {
        what: What::Keyed(first, keying.client, keying.step),
        phase,
    })
}
