ghost use Rattle.std.specs.Prelude.{false, None};

use crate::async_command::AsyncCommand;
use crate::process_fault::ProcessFault;
use sc_command::{Client, CommandCreator, CommandCreatorSync, CommandRefusal, NewCommandError};
use sc_entry::{ByteText, NoMemory};
use std::alloc::Global;
use std::process::{Processes, SystemProcess};
use std::sync::Wait;
use std::thread::Threads;

/// A creator of commands that run programs of the system.
#[derive(Drop)]
pub struct ProcessCommandCreator<
    R: Processes<Started = SystemProcess> + Threads + Wait + Copy + Drop,
> {
    rt: R,
    alloc: Global,
    jobserver: Client,
    faults: u64,
}

impl<R: Processes<Started = SystemProcess> + Threads + Wait + Copy + Drop> CommandCreator
    for ProcessCommandCreator<R> {
    type Runtime = R;

    type Cmd = AsyncCommand<R>;

    ghost queue = { λ _. None };

    ghost is_listed = { false };

    ghost fault_count = { λ c. c.faults };

    fn new(rt: R, alloc: Global, client: &Client) -> Result<ProcessCommandCreator<R>, NoMemory> {
        Ok(ProcessCommandCreator {
            rt,
            alloc,
            jobserver: client.try_clone()?,
            faults: 0,
        })
    }

    fn faults(&self) -> u64 {
        self.faults
    }

    fn new_command(&mut self, program: &ByteText) -> Result<AsyncCommand<R>, NewCommandError> {
        let program = program.try_clone()?;
        let jobserver = self.jobserver.try_clone()?;
        Ok(AsyncCommand::new(self.rt, self.alloc, program, jobserver))
    }

    fn book(&mut self, fault: ProcessFault) -> CommandRefusal {
        self.faults = self.faults.saturating_add(1);
        fault.into_refusal()
    }
}

impl<R: Processes<Started = SystemProcess> + Threads + Wait + Copy + Drop> CommandCreatorSync
    for ProcessCommandCreator<R> {
    fn try_clone(&self) -> Result<ProcessCommandCreator<R>, NoMemory> {
        Ok(ProcessCommandCreator {
            rt: self.rt,
            alloc: self.alloc,
            jobserver: self.jobserver.try_clone()?,
            faults: self.faults,
        })
    }
}
