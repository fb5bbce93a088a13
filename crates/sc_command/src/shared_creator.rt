ghost use Rattle.std.specs.Prelude.{◌≡◌, None, IfOk};
ghost use Rattle.sc_entry.specs.Failing.{one_more};

use crate::client::Client;
use crate::command_child::CommandChild;
use crate::creator::{CommandCreator, CommandCreatorSync};
use crate::refusal::{CommandRefusal, NewCommandError};
use crate::run_command::RunCommand;
use sc_entry::{ByteText, NoMemory};
use std::alloc::Global;
use std::sync::{Arc, Mutex, MutexGuard, Wait};

/// A creator behind a lock, which threads share. Each of them counts the refusals that it met itself.
#[derive(Drop)]
pub struct SharedCreator<T: CommandCreator + Drop, R: Wait + Copy> {
    rt: R,
    creator: Arc<Mutex<T>>,
    faults: u64,
}

impl<T: CommandCreator + Drop, R: Wait + Copy> SharedCreator<T, R> {
    /// Puts a creator behind a lock.
    pub fn from_creator(rt: R, alloc: Global, creator: T) -> Result<SharedCreator<T, R>, NoMemory>
        ensures { IfOk result (λ shared. shared.faults ≡ 0) }
    {
        Ok(SharedCreator {
            rt,
            creator: Arc::new(alloc, Mutex::new(creator))?,
            faults: 0,
        })
    }

    /// Waits for the lock.
    pub fn lock(&self) -> MutexGuard<'_, T> {
        self.creator.lock(&self.rt)
    }

    /// Counts a refusal.
    fn count(&mut self)
        ensures { self.new.faults ≡ one_more self.old.faults }
    {
        self.faults = self.faults.saturating_add(1);
    }
}

impl<T: CommandCreator + Drop, R: Wait + Copy> CommandCreator for SharedCreator<T, R> {
    type Runtime = (R, T::Runtime);

    type Cmd = T::Cmd;

    ghost queue = { λ _. None };

    ghost is_listed = { T.is_listed };

    ghost fault_count = { λ s. s.faults };

    fn new(
        rt: (R, T::Runtime),
        alloc: Global,
        client: &Client,
    ) -> Result<SharedCreator<T, R>, NoMemory> {
        let (own, inner) = rt;
        let creator = T::new(inner, alloc, client)?;
        SharedCreator::from_creator(own, alloc, creator)
    }

    fn faults(&self) -> u64 {
        self.faults
    }

    fn new_command(&mut self, program: &ByteText) -> Result<T::Cmd, NewCommandError> {
        let made = self.creator.lock(&self.rt).new_command(program);
        match made {
            Ok(command) => Ok(command),
            Err(NewCommandError::NoMemory) => Err(NewCommandError::NoMemory),
            Err(NewCommandError::NoChild) => {
                self.count();
                Err(NewCommandError::NoChild)
            }
        }
    }

    fn book(
        &mut self,
        fault: <<T::Cmd as RunCommand>::C as CommandChild>::Fault,
    ) -> CommandRefusal {
        let refusal = self.creator.lock(&self.rt).book(fault);
        self.count();
        refusal
    }
}

impl<T: CommandCreator + Drop, R: Wait + Copy> CommandCreatorSync for SharedCreator<T, R> {
    fn try_clone(&self) -> Result<SharedCreator<T, R>, NoMemory> {
        Ok(SharedCreator {
            rt: self.rt,
            creator: Arc::try_clone(&self.creator)?,
            faults: self.faults,
        })
    }
}
