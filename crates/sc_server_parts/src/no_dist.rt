//! No distributed client.
ghost use Rattle.std.specs.Prelude.{◌≡◌, ◌≤◌, true, None, IfOk, OnOk};
ghost use Rattle.sc_compile_dist.specs.Clients.{Says};
ghost use Rattle.sc_compile_dist.specs.GoodJobs.{is_good_dist};
ghost use Rattle.sc_entry.specs.Failing.{one_more};
ghost use Rattle.sc_server_parts.specs.Making.{no_dist_text};
ghost use Rattle.sc_model.specs.Containers.{MakerCause};
ghost use Rattle.sc_model.specs.World.{DistCause};
ghost use Rattle.sc_model.specs.declared.event.DistAnswer.TheVariants as dist_answers;
ghost use Rattle.sc_model.specs.declared.level.Making.TheVariants as makings;

use sc_compile_dist::{DistClient, DistMaker, SchedulerStatus};
use sc_entry::{FileObjectSource, NoMemory, Text};
use sc_model::{DistAnswer, Making, SingleCompileCommand};
use std::alloc::Global;

/// A distributed client that has no scheduler: it refuses each job and each status, and counts that.
#[derive(Drop)]
pub struct NoDist {
    faults: u64,
}

impl NoDist {
    /// It was not asked yet.
    pub fn new() -> NoDist
        ensures { result.faults ≡ 0 }
    {
        NoDist { faults: 0 }
    }

    /// Counts a refusal.
    fn refuse(&mut self)
        ensures count { self.new.faults ≡ one_more self.old.faults }
        ensures later { self.old.faults ≤ self.new.faults }
    {
        self.faults = self.faults.saturating_add(1);
    }
}

impl DistClient for NoDist {
    ghost jobs = { λ _. None };

    ghost lines = { λ _. None };

    ghost scheduler = { λ _. None };

    ghost fault_count = { λ d. d.faults };

    fn faults(&self) -> u64 {
        self.faults
    }

    fn run(
        &mut self,
        alloc: Global,
        _key: &Text,
        _command: &SingleCompileCommand,
        _outputs: &[FileObjectSource],
    ) -> Result<DistAnswer, NoMemory>
        ensures later { self.old.faults ≤ self.new.faults }
        ensures cause { IfOk result (λ a. DistCause a self.old.faults self.new.faults) }
        ensures good { IfOk result (λ a. is_good_dist a ≡ true) }

        // It refuses each job for the same reason.
        ensures refused { IfOk result (λ a. a ≡ dist_answers.Other no_dist_text) }
        ensures count { OnOk result (self.new.faults ≡ one_more self.old.faults) }
    {
        let why = Text::from_str(alloc, "no distributed client")?;
        self.refuse();
        Ok(DistAnswer::Other(why))
    }

    fn status(&mut self, _alloc: Global) -> Result<Option<SchedulerStatus>, NoMemory>
        ensures later { self.old.faults ≤ self.new.faults }
        ensures says { IfOk result (Says None self.old.faults self.new.faults) }

        // It has none to tell.
        ensures refused { IfOk result (λ status. status ≡ None) }
        ensures count { self.new.faults ≡ one_more self.old.faults }
    {
        self.refuse();
        Ok(None)
    }
}

/// A maker that makes no distributed client: it says of each that its scheduler isn't reached, and counts that. A daemon whose
/// container is disabled never asks it.
#[derive(Drop)]
pub struct NoDistMaker {
    faults: u64,
}

impl NoDistMaker {
    /// It was not asked yet.
    pub fn new() -> NoDistMaker
        ensures { result.faults ≡ 0 }
    {
        NoDistMaker { faults: 0 }
    }
}

impl DistMaker for NoDistMaker {
    type Client = NoDist;

    ghost makings = { λ _. None };

    ghost fault_count = { λ m. m.faults };

    fn faults(&self) -> u64 {
        self.faults
    }

    fn make(&mut self, _alloc: Global, client: &mut NoDist, _now: u64) -> Result<Making, NoMemory>
        ensures faults { client.new.faults ≡ client.old.faults }
        ensures cause { IfOk result (λ making. MakerCause making self.old.faults self.new.faults) }

        // None is made.
        ensures refused { IfOk result (λ making. making ≡ makings.Unreachable) }
        ensures count { self.new.faults ≡ one_more self.old.faults }
    {
        let _unmade = client.faults;
        self.faults = self.faults.saturating_add(1);
        Ok(Making::Unreachable)
    }
}
