//! What compiles on other machines.

ghost use Rattle.std.specs.Prelude.{◌≡◌, ◌≤◌, Bool, List, ℕ, Option, IfOk, OnOk, true};
ghost use Rattle.sc_compile_dist.specs.Clients.{Says};
ghost use Rattle.sc_compile_dist.specs.GoodJobs.{is_good_dist};
ghost use Rattle.sc_compile_dist.specs.Jobs.{Jobs, told_dist};
ghost use Rattle.sc_compile_dist.specs.declared.dist_line.DistLine.{DistLine};
ghost use Rattle.sc_entry.specs.Causes.{IfTold};
ghost use Rattle.sc_model.specs.Levels.{and_one};
ghost use Rattle.sc_model.specs.World.{DistCause};
ghost use Rattle.sc_stats.specs.declared.counters.DistInfo.{DistInfo};

use sc_entry::{FileObjectSource, NoMemory, Text};
use sc_model::{DistAnswer, SingleCompileCommand};
use std::alloc::Global;

/// What a scheduler says of itself.
#[derive(Drop)]
pub struct SchedulerStatus {
    pub url: Option<Text>,
    pub num_servers: u64,
    pub num_cpus: u64,
    /// How many jobs are under way.
    pub in_progress: u64,
}

/// What compiles on other machines.
pub trait DistClient {
    /// The jobs that it did, with their keys and answers, where it tells them.
    ghost jobs: { Self → Option Jobs };

    /// The lines that it answers by, where it tells them.
    ghost lines: { Self → Option (List DistLine) };

    /// What it says of its scheduler, or that it refuses to, where it tells that.
    ghost scheduler: { Self → Option (Option DistInfo) };

    /// How often a job or a status was lost.
    ghost fault_count: { Self → ℕ };

    /// How often a job or a status was lost. The count stops at the end of `u64`.
    fn faults(&self) -> u64
        ensures { result ≡ fault_count self.now };

    /// Compiles under a key, and collects the outputs. An answer other than `Done`, or a chain of texts in place of the objects,
    /// comes only where the count rose. The objects are as a workshop's.
    fn run(
        &mut self,
        alloc: Global,
        key: &Text,
        command: &SingleCompileCommand,
        outputs: &[FileObjectSource],
    ) -> Result<DistAnswer, NoMemory>
        ensures jobs { IfOk result (λ a. jobs self.new ≡ and_one (jobs self.old) (key.now, a)) }
        ensures lines { OnOk result (lines self.new ≡ lines self.old) }
        ensures scheduler { OnOk result (scheduler self.new ≡ scheduler self.old) }
        ensures later { fault_count self.old ≤ fault_count self.new }
        ensures cause { IfOk result (λ a. DistCause a (fault_count self.old) (fault_count self.new)) }
        ensures good { IfOk result (λ a. is_good_dist a ≡ true) }
        ensures answer { IfOk result (λ a. IfTold (told_dist (lines self.old) key.now (jobs self.old) outputs.now) (λ b. a ≡ b)) };

    /// What its scheduler says; none only where the count rose.
    fn status(&mut self, alloc: Global) -> Result<Option<SchedulerStatus>, NoMemory>
        ensures jobs { OnOk result (jobs self.new ≡ jobs self.old) }
        ensures lines { OnOk result (lines self.new ≡ lines self.old) }
        ensures scheduler { OnOk result (scheduler self.new ≡ scheduler self.old) }
        ensures later { fault_count self.old ≤ fault_count self.new }
        ensures says { IfOk result (Says (scheduler self.old) (fault_count self.old) (fault_count self.new)) };
}
