ghost use Rattle.std.specs.Prelude.{◌≡◌, [], ℕ, List, Some, None, is_none, MatchOption};
ghost use Rattle.std.specs.Borrow.{Bor};
ghost use Rattle.sc_command.specs.Children.{IfFault};
ghost use Rattle.sc_command.specs.Spawning.{SpawnGives};
ghost use Rattle.sc_command.specs.declared.refusal.CommandRefusal.TheVariants as refusals;
ghost use Rattle.sc_command_mock.specs.Mocks.{GivesChild};

use crate::child_call::{Call, ChildCall};
use crate::fault::Refused;
use crate::mock_child::MockChild;
use sc_command::{CommandError, CommandRefusal, RunCommand, SpawnError, StdioMode, append_words};
use sc_entry::{ByteText, Items, NoMemory};
use std::alloc::Global;
use std::fmt;
use std::fmt::{Debug, Formatter, Write};

/// What the next command spawns.
#[derive(Drop)]
pub enum ChildOrCall {
    /// This child, or a refusal.
    Child(Result<MockChild, SpawnError>),
    /// What the call gives for the command's arguments.
    Call(ChildCall),
}

impl Debug for ChildOrCall {
    fn fmt<W: Write>(&self, f: &mut Formatter<W>) -> fmt::Result {
        match self {
            ChildOrCall::Child(_) => f.write_str("ChildOrCall::Child(...)"),
            ChildOrCall::Call(_) => f.write_str("ChildOrCall::Call(...)"),
        }
    }
}

/// What a child or call gives for some arguments.
fn answer_of(child: ChildOrCall, words: &[ByteText]) -> Result<MockChild, SpawnError>
    ensures { GivesChild (λ c r. (p : Bor (List (List ℕ))) × (p.now ≡ words.now) × Call.post c.function p r) child result }
{
    match child {
        ChildOrCall::Child(answer) => answer,
        ChildOrCall::Call(call) => call.call(words),
    }
}

/// A command that spawns the child that it was given, and keeps its arguments.
#[derive(Drop)]
pub struct MockCommand {
    /// What it spawns; none once it was spawned.
    pub child: Option<ChildOrCall>,
    pub args: Items<ByteText>,
}

impl MockCommand {
    /// A command without arguments.
    pub fn new(alloc: Global, child: ChildOrCall) -> MockCommand
        ensures child { MatchOption result.child ⊥ (λ c. c ≡ child) }
        ensures args { result.args ≡ [] }
    {
        MockCommand {
            child: Some(child),
            args: Items::new(alloc),
        }
    }
}

/// What a spawn answers where this was given.
fn spawned(answer: Result<MockChild, SpawnError>) -> Result<MockChild, CommandError<Refused>>
    ensures gives { SpawnGives (λ r. r ≡ answer) result }
    ensures fault { IfFault result (λ fault. fault.refusal ≡ refusals.SpawnFault) }
{
    match answer {
        Ok(child) => Ok(child),
        Err(SpawnError::NoMemory) => Err(CommandError::NoMemory),
        Err(SpawnError::SpawnFault) => {
            Err(CommandError::Fault(Refused::new(CommandRefusal::SpawnFault)))
        }
    }
}

impl RunCommand for MockCommand {
    type C = MockChild;

    type Plan = Option<ChildOrCall>;

    ghost arguments = { λ c. Some c.args };

    ghost setting = { λ _. None };

    ghost is_spent = { λ c. is_none c.child };

    ghost plan = { λ c. c.child };

    ghost gives = { λ plan words answer. MatchOption plan ⊥ (λ child. GivesChild (λ c r. (p : Bor (List (List ℕ))) × (p.now ≡ words) × Call.post c.function p r) child answer) };

    fn arg(&mut self, word: &ByteText) -> Result<(), NoMemory> {
        let word = word.try_clone()?;
        self.args.push(word)
    }

    fn args(&mut self, words: &[ByteText]) -> Result<(), NoMemory> {
        append_words(&mut self.args, words)
    }

    fn env(&mut self, _name: &ByteText, _value: &ByteText) -> Result<(), NoMemory> {
        Ok(())
    }

    fn envs(&mut self, _variables: &[(ByteText, ByteText)]) -> Result<(), NoMemory> {
        Ok(())
    }

    fn env_clear(&mut self) {}

    fn current_dir(&mut self, _folder: &ByteText) -> Result<(), NoMemory> {
        Ok(())
    }

    fn stdin(&mut self, _mode: StdioMode) {}

    fn stdout(&mut self, _mode: StdioMode) {}

    fn stderr(&mut self, _mode: StdioMode) {}

    fn spawn(&mut self) -> Result<MockChild, CommandError<Refused>> {
        let Some(child) = self.child.take() else {
            return Err(CommandError::Fault(Refused::new(CommandRefusal::Spent)));
        };
        spawned(answer_of(child, self.args.as_slice()))
    }
}
