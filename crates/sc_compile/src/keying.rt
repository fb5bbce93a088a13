//! The key step of a compile.

ghost use Rattle.std.specs.Prelude.{◌≡◌, IfOk};
ghost use Rattle.sc_entry.specs.Causes.{IfTold};
ghost use Rattle.sc_compile.specs.KeySteps.{step_by};
ghost use Rattle.sc_compile.specs.Tools.{told_key};

use crate::key_line::KeyRefusal;
use crate::plain::PlainCompiler;
use crate::probe::Probe;
use sc_entry::NoMemory;
use sc_model::{Compile, KeyFound, KeyStep};
use std::alloc::Global;

fn step_by(found: KeyFound, refusal: Option<KeyRefusal>) -> KeyStep
    ensures { result ≡ step_by found refusal }
{
    match refusal {
        None => KeyStep::Key(found),
        Some(KeyRefusal::ProcessError(output)) => KeyStep::ProcessError(output),
        Some(KeyRefusal::Fault(chain)) => KeyStep::Fault(chain),
    }
}

/// The key step of a compile: its key and its outputs, or why the compilers of this probe give none for that key.
pub fn key_step<P: Probe>(alloc: Global, probe: &P, request: &Compile) -> Result<KeyStep, NoMemory>
    ensures { IfOk result (λ step. IfTold (told_key (P.keys probe.now) request.now) (λ told. step ≡ told)) }
{
    let found = PlainCompiler::key(alloc, request)?;
    let refusal = probe.refusal(alloc, &found.key)?;
    Ok(step_by(found, refusal))
}
