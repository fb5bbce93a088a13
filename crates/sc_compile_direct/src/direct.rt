//! A compile that is done at once.
ghost use Rattle.std.specs.Prelude.{◌≡◌, IfOk};
ghost use Rattle.sc_compile_direct.specs.Following.{Compiles, DoneBy};
ghost use Rattle.sc_daemon_job.specs.Setups.{setup};
ghost use Rattle.sc_model.specs.declared.message.Request.TheVariants.{Compile as CompileOf};

use crate::answer::{CompileAnswer, answer_in};
use crate::job_event::JobEvent;
use crate::running::Running;
use sc_daemon_hold::Hold;
use sc_entry::{Items, NoMemory};
use sc_model::{Compile, Ending, Phase, Request, Task};
use std::alloc::Global;

/// What a compile came to.
#[derive(Drop)]
pub struct Compiled {
    /// Its events, the first one first.
    pub events: Items<JobEvent>,
    pub answer: CompileAnswer,
    /// What its client is to be told: the notifications of its compiler, and then how it finished.
    pub ending: Ending,
}

/// The same with what no action of a job looks at: where replies would go.
fn compile_beside<H: Hold>(
    alloc: Global,
    hold: &mut H,
    compile: Compile,
    task: Task,
    out: &mut Vec<u8>,
) -> Result<Compiled, NoMemory>
    ensures compiles { IfOk result (λ compiled. Compiles (setup (H.config hold.old)) (CompileOf compile) task compiled) }
    ensures moves { IfOk result (λ compiled. DoneBy H.moment H.moves (setup (H.config hold.old)) (CompileOf compile) task hold.old compiled.events hold.new) }
    ensures same { IfOk result (λ _. H.config hold.new ≡ H.config hold.old) }
{
    let request = Request::Compile(compile);
    let mut running = Running {
        phase: Phase::AtKey(task, true),
        entry: None,
        last: 0,
        outcome: 0,
        reserved: 0,
        events: Items::new(alloc),
    };
    while !running.is_over() {
        running.step(alloc, hold, &request, out)?;
    }
    let answer = answer_in(alloc, running.events.as_slice())?;
    let (events, ending) = running.ended();
    Ok(Compiled {
        events,
        answer,
        ending,
    })
}

/// Compiles what was begun, over any hold: finds its key, looks it up at each level, places a hit or runs the compiler here or
/// elsewhere, and stores what a run left. Each event is the one that is due behind those before it, and the hold moves by
/// them. What they count, the hold counts. It takes no token.
pub fn get_cached_or_compile<H: Hold>(
    alloc: Global,
    hold: &mut H,
    compile: Compile,
    task: Task,
) -> Result<Compiled, NoMemory>
    ensures compiles { IfOk result (λ compiled. Compiles (setup (H.config hold.old)) (CompileOf compile) task compiled) }
    ensures moves { IfOk result (λ compiled. DoneBy H.moment H.moves (setup (H.config hold.old)) (CompileOf compile) task hold.old compiled.events hold.new) }
    ensures same { IfOk result (λ _. H.config hold.new ≡ H.config hold.old) }
{
    let mut out = Vec::new(alloc);
    let compiled = compile_beside(alloc, hold, compile, task, &mut out)?;
    Ok(compiled)
}
