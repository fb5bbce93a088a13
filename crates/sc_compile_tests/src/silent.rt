//! A distributed client that loses each job and each status.
ghost use Rattle.std.specs.Prelude.{[], None, Some};

use sc_compile_dist::{DistClient, DistMaker, SchedulerStatus};
use sc_entry::{FileObjectSource, NoMemory, Text};
use sc_model::{DistAnswer, Making, SingleCompileCommand};
use std::alloc::Global;

/// A client whose scheduler never answers.
#[derive(Drop)]
pub(crate) struct Silent {
    pub faults: u64,
}

/// What makes such a client each time.
#[derive(Clone, Copy, Drop)]
pub(crate) struct SilentMaker;

impl DistClient for Silent {
    ghost jobs = { λ _. None };

    ghost lines = { λ _. None };

    ghost scheduler = { λ _. None };

    ghost fault_count = { λ client. client.faults };

    fn faults(&self) -> u64 {
        self.faults
    }

    fn run(
        &mut self,
        alloc: Global,
        _key: &Text,
        _command: &SingleCompileCommand,
        _outputs: &[FileObjectSource],
    ) -> Result<DistAnswer, NoMemory> {
        let lost = Text::from_str(alloc, "lost")?;
        self.faults = self.faults.saturating_add(1);
        Ok(DistAnswer::Other(lost))
    }

    fn status(&mut self, _alloc: Global) -> Result<Option<SchedulerStatus>, NoMemory> {
        self.faults = self.faults.saturating_add(1);
        Ok(None)
    }
}

impl DistMaker for SilentMaker {
    type Client = Silent;

    ghost makings = { λ _. Some [] };

    ghost fault_count = { λ _. 0 };

    fn faults(&self) -> u64 {
        0
    }

    fn make(
        &mut self,
        _alloc: Global,
        _client: &mut Silent,
        _now: u64,
    ) -> Result<Making, NoMemory> {
        Ok(Making::Made)
    }
}
