//! Commands of compiles.
ghost use Rattle.std.specs.Prelude.{◌≡◌, ◌≤◌};
ghost use Rattle.sc_model.specs.declared.command.SingleCompileCommand.{SingleCompileCommand};
ghost use Rattle.sc_command_workshop.specs.Executing.{ExecuteCause, EndsSo, ExecutesFirst, TakesFirst};

use crate::execute_error::ExecuteError;
use sc_command::{CommandCreator, Output};
use sc_entry::ByteText;
use sc_model::Variable;

/// What a compile runs, by any creator of commands.
pub trait CompileCommandImpl {
    /// The program with its arguments, its variables, its folder, and whether it shares make's tokens.
    ghost command: { Self → SingleCompileCommand };

    /// The program.
    fn get_executable(&self) -> &ByteText
        ensures { result.now ≡ (command self.now).executable };

    /// Its arguments, in order.
    fn get_arguments(&self) -> &[ByteText]
        ensures { result.now ≡ (command self.now).arguments };

    /// The variables that it runs with, and no other.
    fn get_env_vars(&self) -> &[Variable]
        ensures { result.now ≡ (command self.now).env_vars };

    /// The folder that it runs in.
    fn get_cwd(&self) -> &ByteText
        ensures { result.now ≡ (command self.now).cwd };

    /// Runs it by a creator, waits until it has ended, and gives what it wrote where its code is 0.
    fn execute<K: CommandCreator>(&self, creator: &mut K) -> Result<Output, ExecuteError>
    where
        K::Cmd: Drop,
        ensures ended { EndsSo result }
        ensures told { TakesFirst (ExecutesFirst K.Cmd.gives K.Cmd.plan K.Cmd.arguments K.Cmd.C.content (command self.now).arguments) (K.queue creator.old) result (K.queue creator.new) }
        ensures later { K.fault_count creator.old ≤ K.fault_count creator.new }
        ensures cause { ExecuteCause (K.fault_count creator.old) (K.fault_count creator.new) result };
}
