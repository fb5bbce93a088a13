ghost use Rattle.std.specs.Prelude.{◌≡◌, ◌++◌, ◌∷◌, [], List, true, Some, map, OnOk, OnErr, MatchOption};
ghost use Rattle.sc_entry.specs.Failing.{one_more};

use crate::child_call::{Call, ChildCall};
use crate::fault::Refused;
use crate::mock_child::MockChild;
use crate::mock_command::{ChildOrCall, MockCommand};
use sc_command::{Client, CommandCreator, CommandRefusal, NewCommandError, SpawnError};
use sc_entry::{ByteText, NoMemory, Queue};
use std::alloc::Global;

/// A creator whose commands spawn the children that it was given, the first given first.
#[derive(Drop)]
pub struct MockCommandCreator {
    alloc: Global,
    /// What the commands to come spawn.
    pub children: Queue<ChildOrCall>,
    faults: u64,
}

impl MockCommandCreator {
    /// One command more will spawn this child, or be refused so.
    pub fn next_command_spawns(
        &mut self,
        child: Result<MockChild, SpawnError>,
    ) -> Result<(), NoMemory>
        ensures ok { OnOk result (self.new.children ≡ self.old.children ++ ChildOrCall.Child child ∷ []) }
        ensures err { OnErr result (self.new.children ≡ self.old.children) }
        ensures faults { self.new.faults ≡ self.old.faults }
    {
        self.children.push_back(ChildOrCall::Child(child))
    }

    /// One command more will spawn what this gives for the command's arguments.
    pub fn next_command_calls(&mut self, call: Call) -> Result<(), NoMemory>
        requires { Call.IsAlwaysCallable call }
        ensures ok { OnOk result ((c : _) × (c.function ≡ call) × (self.new.children ≡ self.old.children ++ ChildOrCall.Call c ∷ [])) }
        ensures err { OnErr result (self.new.children ≡ self.old.children) }
        ensures faults { self.new.faults ≡ self.old.faults }
    {
        let call = ChildCall::new(call);
        self.children.push_back(ChildOrCall::Call(call))?;
        Ok(())
    }

    /// Counts a refusal.
    fn count(&mut self)
        ensures count { self.new.faults ≡ one_more self.old.faults }
        ensures children { self.new.children ≡ self.old.children }
    {
        self.faults = self.faults.saturating_add(1);
    }
}

impl CommandCreator for MockCommandCreator {
    type Runtime = ();

    type Cmd = MockCommand;

    ghost queue = { λ c. Some (map (λ child. record { child = Some child; args = [] }) c.children) };

    ghost is_listed = { true };

    ghost fault_count = { λ c. c.faults };

    fn new(_rt: (), alloc: Global, _client: &Client) -> Result<MockCommandCreator, NoMemory> {
        Ok(MockCommandCreator {
            alloc,
            children: Queue::new(alloc),
            faults: 0,
        })
    }

    fn faults(&self) -> u64 {
        self.faults
    }

    fn new_command(&mut self, _program: &ByteText) -> Result<MockCommand, NewCommandError> {
        match self.children.pop_front() {
            Some(child) => Ok(MockCommand::new(self.alloc, child)),
            None => {
                self.count();
                Err(NewCommandError::NoChild)
            }
        }
    }

    fn book(&mut self, fault: Refused) -> CommandRefusal {
        self.count();
        fault.into_refusal()
    }
}
