//! A maker in memory.

ghost use Rattle.std.specs.Prelude.{◌≡◌, Some};
ghost use Rattle.sc_compile_dist.specs.Makings.{is_made};
ghost use Rattle.sc_model.specs.Containers.{Makes_next};

use crate::maker::DistMaker;
use crate::script_dist::ScriptDist;
use sc_entry::{NoMemory, Queue};
use sc_model::Making;
use std::alloc::Global;

/// A maker that takes its answers from a list, in turn; behind its end each client is made. It tells its answers.
#[derive(Drop)]
pub struct MemMaker {
    /// Those that are left.
    makings: Queue<Making>,
    faults: u64,
}

/// Whether a client was made.
fn is_made(making: &Making) -> bool
    ensures { result ≡ is_made making.now }
{
    match making {
        Making::Made => true,
        Making::Unreachable => false,
        Making::NoToken(_) => false,
    }
}

impl MemMaker {
    /// A maker that has not been asked.
    pub fn new(makings: Queue<Making>) -> MemMaker
        ensures makings { result.makings ≡ makings }
        ensures faults { result.faults ≡ 0 }
    {
        MemMaker { makings, faults: 0 }
    }

    /// The next answer.
    fn next(&mut self) -> Making
        ensures makes { Makes_next (Some self.old.makings) result (Some self.new.makings) }
        ensures faults { self.new.faults ≡ self.old.faults }
    {
        match self.makings.pop_front() {
            None => Making::Made,
            Some(making) => making,
        }
    }
}

impl DistMaker for MemMaker {
    type Client = ScriptDist;

    ghost makings = { λ m. Some m.makings };

    ghost fault_count = { λ m. m.faults };

    fn faults(&self) -> u64 {
        self.faults
    }

    #[tactic(auto, using(crate::proofs::Unmade::makes_one, crate::proofs::Unmade::makes_none))]
    fn make(
        &mut self,
        _alloc: Global,
        _client: &mut ScriptDist,
        _now: u64,
    ) -> Result<Making, NoMemory> {
        let making = self.next();
        if !is_made(&making) {
            self.faults = self.faults.saturating_add(1);
        }
        Ok(making)
    }
}
