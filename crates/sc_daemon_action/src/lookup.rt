//! The actions of a lookup: a level is asked, and a hit's outputs are placed.
ghost use Rattle.std.specs.Prelude.{◌≡◌, ◌<◌, [], length, IfOk};
ghost use Rattle.sc_daemon_action.specs.Acts.{Acts};
ghost use Rattle.sc_daemon_action.specs.Serves.{Stands};
ghost use Rattle.sc_daemon_job.specs.Askers.{asker};
ghost use Rattle.sc_daemon_job.specs.Setups.{Config, setup};
ghost use Rattle.sc_daemon_job.specs.declared.since.Since.{Since as Moments};
ghost use Rattle.sc_model.specs.Conns.{need_at};
ghost use Rattle.sc_model.specs.Phases.{placed_phase};
ghost use Rattle.sc_model.specs.Trace.{sent_by};
ghost use Rattle.sc_model.specs.declared.message.Request.TheVariants.{Compile as CompileOf};
ghost use Rattle.sc_model.specs.World.{is_placed, placed_of};
ghost use Rattle.sc_model.specs.declared.message.Compile.{Compile as CompileRequest};

use crate::acted::Acted;
use crate::turn::{asked, to_miss};
use sc_daemon_hold::Hold;
use sc_daemon_job::{Since, finish_fatal, finish_hit};
use sc_entry::{ByteText, FileObjectSource, Items, NoMemory, Queue};
use sc_model::{
    ColorMode, Compile, Ending, Job, KeyFound, MissType, Mode, Phase, Placing, Verdict, What,
};
use std::alloc::Global;

/// Asks a level for a job's key.
pub fn act_ask<H: Hold>(
    alloc: Global,
    hold: &mut H,
    request: &Compile,
    job: Job,
    level: u64,
    since: Since,
) -> Result<Acted, NoMemory>
    requires level { level < length (H.config hold.old).levels }
    ensures acts { IfOk result (λ a. Acts (H.config hold.old) (CompileOf request.now) (Phase.AtAsk job level) (H.moment hold.new) a) }
    ensures moves { IfOk result (λ a. H.moves hold.old (asker since (need_at (setup (H.config hold.old)) (CompileOf request.now) (Phase.AtAsk job level)) (CompileOf request.now)) a.what hold.new) }
    ensures same { IfOk result (λ a. H.config hold.new ≡ H.config hold.old) }
    ensures unsent { IfOk result (λ a. sent_by a.what ≡ []) }
{
    let levels = hold.level_count();
    let single = hold.is_single();
    let lookup = hold.ask(alloc, level, &job.found.key, Mode::Whole, since)?;
    let now = hold.now();
    let key = job.found.key.try_clone()?;
    let phase = asked(job, level, levels, single, &lookup.answer, now)?;
    Ok(Acted {
        what: What::Asked(level, key, Mode::Whole, lookup.answer, lookup.handed),
        phase,
    })
}

/// Whether an output of a hit is placed: not at the null device, and no dependencies of a local preprocessor.
fn is_placed(locally: bool, output: &FileObjectSource) -> bool
    ensures { result ≡ is_placed locally output.now }
{
    output.path.as_slice() != b"/dev/null".as_slice()
        && !(locally && output.key.as_bytes() == b"d".as_slice())
}

/// The outputs that a hit places.
fn placed_outputs(alloc: Global, found: &KeyFound) -> Result<Items<FileObjectSource>, NoMemory>
    ensures { IfOk result (λ outputs. outputs ≡ placed_of found.now.locally_preprocessed found.now.outputs) }
{
    let mut outputs = Items::new(alloc);
    let mut left = found.outputs.as_slice();
    while let [output, rest @ ..] = left {
        if is_placed(found.locally_preprocessed, output) {
            outputs.push(output.clone()?)?;
        }
        left = rest;
    }
    Ok(outputs)
}

/// Where a job stands once its hit was placed, or could not be.
fn placed(
    alloc: Global,
    job: Job,
    entry: ByteText,
    duration: u64,
    now: u64,
    placing: &Placing,
) -> Result<Phase, NoMemory>
    ensures phase { IfOk result (λ p. (k : Config) (c : CompileRequest) → p ≡ placed_phase (setup k) (CompileOf c) job entry duration now placing.now) }
    ensures stands { IfOk result (λ p. (k : Config) (c : CompileRequest) → Stands k p (CompileOf c)) }
{
    match placing {
        Placing::Done => {
            let last = finish_hit(alloc, ColorMode::Auto, entry)?;
            let notes = Queue::new(alloc);
            let ending = Ending { notes, last };
            Ok(Phase::AtEnd(Verdict::CacheHit(duration), job.task, ending))
        }
        Placing::Missing(_) => Ok(to_miss(job, MissType::CacheReadError, now)),
        Placing::Fault(chain) => {
            let last = finish_fatal(alloc, ColorMode::Auto, chain.as_slice())?;
            let notes = Queue::new(alloc);
            let ending = Ending { notes, last };
            Ok(Phase::AtEnd(Verdict::Fault, job.task, ending))
        }
    }
}

/// Places the outputs of a hit.
pub fn act_place<H: Hold>(
    alloc: Global,
    hold: &mut H,
    request: &Compile,
    job: Job,
    entry: ByteText,
    duration: u64,
) -> Result<Acted, NoMemory>
    ensures acts { IfOk result (λ a. Acts (H.config hold.old) (CompileOf request.now) (Phase.AtPlace job entry duration) (H.moment hold.new) a) }
    ensures moves { IfOk result (λ a. (since : Moments) → H.moves hold.old (asker since (need_at (setup (H.config hold.old)) (CompileOf request.now) (Phase.AtPlace job entry duration)) (CompileOf request.now)) a.what hold.new) }
    ensures same { IfOk result (λ a. H.config hold.new ≡ H.config hold.old) }
    ensures unsent { IfOk result (λ a. sent_by a.what ≡ []) }
{
    let outputs = placed_outputs(alloc, &job.found)?;
    let placing = hold.place(alloc, &job.found.key, outputs.as_slice(), &entry)?;
    let now = hold.now();
    let phase = placed(alloc, job, entry, duration, now, &placing)?;
    Ok(Acted {
        what: What::Placed(placing),
        phase,
    })
}
