//! Why a command gave no output.
ghost use Rattle.std.specs.Prelude.{◌≡◌};
ghost use Rattle.sc_command_workshop.specs.Executing.{from_new_command};
ghost use Rattle.sc_command_workshop.specs.declared.execute_error.ExecuteError.TheVariants as execute_errors;

use sc_command::{CommandRefusal, NewCommandError, Output};
use sc_entry::NoMemory;

/// Why the execution of a command gave no output.
#[derive(Debug, Drop)]
pub enum ExecuteError {
    NoMemory,
    /// It ended otherwise than with the code 0, and wrote this.
    ProcessError(Output),
    /// The creator made no command; it counted this.
    NoChild,
    /// The command or its child refused; the creator counted this.
    Refused(CommandRefusal),
}

impl From<NoMemory> for ExecuteError {
    ghost from_gives = { λ _ error. error ≡ execute_errors.NoMemory };

    fn from(_: NoMemory) -> ExecuteError {
        ExecuteError::NoMemory
    }
}

impl From<NewCommandError> for ExecuteError {
    ghost from_gives = { λ refused error. error ≡ from_new_command refused };

    fn from(refused: NewCommandError) -> ExecuteError {
        match refused {
            NewCommandError::NoMemory => ExecuteError::NoMemory,
            NewCommandError::NoChild => ExecuteError::NoChild,
        }
    }
}
