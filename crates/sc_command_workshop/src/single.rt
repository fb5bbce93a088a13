//! A compile's single command.
ghost use Rattle.std.specs.Prelude.{◌≡◌};
ghost use Rattle.sc_command_workshop.specs.Executing.{Judges};

use crate::compile_command::CompileCommandImpl;
use crate::execute_error::ExecuteError;
use crate::executing::output_of;
use crate::preparing::prepare;
use sc_command::{CommandCreator, CommandError, Output};
use sc_compile::SingleCompileCommand;
use sc_entry::ByteText;
use sc_model::Variable;

/// The output of a child that ended with the code 0.
fn judged(output: Output) -> Result<Output, ExecuteError>
    ensures { Judges output result }
{
    if output.status.success() {
        Ok(output)
    } else {
        Err(ExecuteError::ProcessError(output))
    }
}

impl CompileCommandImpl for SingleCompileCommand {
    ghost command = { λ c. c };

    fn get_executable(&self) -> &ByteText {
        &self.executable
    }

    fn get_arguments(&self) -> &[ByteText] {
        self.arguments.as_slice()
    }

    fn get_env_vars(&self) -> &[Variable] {
        self.env_vars.as_slice()
    }

    fn get_cwd(&self) -> &ByteText {
        &self.cwd
    }

    fn execute<K: CommandCreator>(&self, creator: &mut K) -> Result<Output, ExecuteError>
    where
        K::Cmd: Drop,
    {
        let _faults = creator.faults();
        let command = prepare(creator, self)?;
        match output_of(command) {
            Ok(output) => judged(output),
            Err(CommandError::NoMemory) => Err(ExecuteError::NoMemory),
            Err(CommandError::Fault(fault)) => Err(ExecuteError::Refused(creator.book(fault))),
        }
    }
}
