//! A run of a compile's command.
ghost use Rattle.std.specs.Prelude.{◌≡◌, ◌≤◌, ◌∷◌, [], IfOk};
ghost use Rattle.sc_command_workshop.specs.Collecting.{Collects};
ghost use Rattle.sc_command_workshop.specs.Executing.{ExecutesFirst};
ghost use Rattle.sc_command_workshop.specs.Shops.{IsOutputOf, RunsBy};

use crate::collecting::collect;
use crate::compile_command::CompileCommandImpl;
use crate::execute_error::ExecuteError;
use crate::statuses::told_output;
use crate::texts::chain_of;
use sc_command::{CommandCreator, NewCommandError, Output};
use sc_compile::SingleCompileCommand;
use sc_entry::{FileObjectSource, Files, NoMemory};
use sc_model::{RunAnswer, RunOutput};
use std::alloc::Global;

/// A fault of one text.
fn fault_of(alloc: Global, text: &str) -> Result<RunAnswer, NoMemory>
    ensures { IfOk result (λ answer. answer ≡ RunAnswer.Fault (text.now ∷ [])) }
{
    let chain = chain_of(alloc, text)?;
    Ok(RunAnswer::Fault(chain))
}

/// What a child wrote, with what its outputs hold.
fn collected<F: Files>(
    alloc: Global,
    files: &mut F,
    output: Output,
    outputs: &[FileObjectSource],
) -> Result<RunAnswer, NoMemory>
    ensures collected { IfOk result (IsOutputOf output (Collects (F.held files.old) outputs.now (F.fault_count files.old) (F.fault_count files.new))) }
    ensures same { F.held files.new ≡ F.held files.old }
    ensures later { F.fault_count files.old ≤ F.fault_count files.new }
{
    let objects = collect(alloc, files, outputs)?;
    let output = told_output(output);
    Ok(RunAnswer::Output(RunOutput { output, objects }))
}

/// Runs a compile's command by a creator, and collects its outputs by files where it ended with the code 0.
pub(crate) fn run_by<K: CommandCreator, F: Files>(
    alloc: Global,
    creator: &mut K,
    files: &mut F,
    command: &SingleCompileCommand,
    outputs: &[FileObjectSource],
) -> Result<RunAnswer, NoMemory>
where
    K::Cmd: Drop,
    ensures ran { IfOk result (RunsBy (ExecutesFirst K.Cmd.gives K.Cmd.plan K.Cmd.arguments K.Cmd.C.content command.now.arguments)
        (K.queue creator.old) (K.queue creator.new) (K.fault_count creator.old) (K.fault_count creator.new)
        (Collects (F.held files.old) outputs.now (F.fault_count files.old) (F.fault_count files.new)) (F.fault_count files.new ≡ F.fault_count files.old)) }
    ensures same { F.held files.new ≡ F.held files.old }
    ensures later { (K.fault_count creator.old ≤ K.fault_count creator.new) × (F.fault_count files.old ≤ F.fault_count files.new) }
{
    match command.execute(creator) {
        Ok(output) => collected(alloc, files, output, outputs),
        Err(ExecuteError::NoMemory) => Err(NoMemory),
        Err(ExecuteError::ProcessError(output)) => Ok(RunAnswer::ProcessError(told_output(output))),
        Err(ExecuteError::NoChild) => fault_of(alloc, NewCommandError::NoChild.text()),
        Err(ExecuteError::Refused(refusal)) => fault_of(alloc, refusal.text()),
    }
}
