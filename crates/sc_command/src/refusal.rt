ghost use Rattle.std.specs.Prelude.{◌≡◌, Some};
ghost use Rattle.sc_command.specs.Refusals.{refusal_text, new_command_text};
ghost use Rattle.sc_command.specs.declared.refusal.SpawnError.TheVariants as spawn_errors;
ghost use Rattle.sc_command.specs.declared.refusal.NewCommandError.TheVariants as new_command_errors;
ghost use Rattle.sc_command.specs.declared.refusal.CommandError.TheVariants as command_errors;

use sc_entry::NoMemory;
use std::alloc::AllocError;
use std::fmt;
use std::fmt::{Display, Formatter, Write};

/// A child could not be waited for.
#[derive(Clone, Copy, Debug, Drop, PartialEq, Eq)]
pub struct WaitFault;

/// Why a mock gives no child.
#[derive(Clone, Copy, Debug, Drop, PartialEq, Eq)]
pub enum SpawnError {
    NoMemory,
    /// The spawn is refused.
    SpawnFault,
}

/// Why a command or its child refused.
#[derive(Clone, Copy, Debug, Drop, PartialEq, Eq)]
pub enum CommandRefusal {
    /// The command was spawned before.
    Spent,
    /// The command could not be spawned.
    SpawnFault,
    /// The child could not be waited for.
    WaitFault,
}

/// Why a creator made no command.
#[derive(Clone, Copy, Debug, Drop, PartialEq, Eq)]
pub enum NewCommandError {
    NoMemory,
    /// No mock child is left; the creator counted this.
    NoChild,
}

/// Why a spawn or a wait gave nothing.
#[derive(Debug, Drop)]
pub enum CommandError<F> {
    NoMemory,
    /// The command or the child refused. Its creator books this.
    Fault(F),
}

impl From<NoMemory> for SpawnError {
    ghost from_gives = { λ _ error. error ≡ spawn_errors.NoMemory };

    fn from(_: NoMemory) -> SpawnError {
        SpawnError::NoMemory
    }
}

impl From<AllocError> for SpawnError {
    ghost from_gives = { λ _ error. error ≡ spawn_errors.NoMemory };

    fn from(_: AllocError) -> SpawnError {
        SpawnError::NoMemory
    }
}

impl From<NoMemory> for NewCommandError {
    ghost from_gives = { λ _ error. error ≡ new_command_errors.NoMemory };

    fn from(_: NoMemory) -> NewCommandError {
        NewCommandError::NoMemory
    }
}

impl<F: Drop> From<NoMemory> for CommandError<F> {
    ghost from_gives = { λ _ error. error ≡ command_errors.NoMemory };

    fn from(_: NoMemory) -> CommandError<F> {
        CommandError::NoMemory
    }
}

impl CommandRefusal {
    /// The refusal in words.
    pub fn text(&self) -> &'static str
        ensures { result.now ≡ refusal_text self.now }
    {
        match self {
            CommandRefusal::Spent => "command was spawned before",
            CommandRefusal::SpawnFault => "cannot spawn",
            CommandRefusal::WaitFault => "cannot wait",
        }
    }
}

impl NewCommandError {
    /// The refusal in words.
    pub fn text(&self) -> &'static str
        ensures { result.now ≡ new_command_text self.now }
    {
        match self {
            NewCommandError::NoMemory => "out of memory",
            NewCommandError::NoChild => "no mock child left",
        }
    }
}

impl Display for CommandRefusal {
    ghost output = { λ refusal. Some (refusal_text refusal) };

    fn fmt<W: Write>(&self, f: &mut Formatter<W>) -> fmt::Result {
        f.write_str(self.text())
    }
}

impl Display for NewCommandError {
    ghost output = { λ refusal. Some (new_command_text refusal) };

    fn fmt<W: Write>(&self, f: &mut Formatter<W>) -> fmt::Result {
        f.write_str(self.text())
    }
}
