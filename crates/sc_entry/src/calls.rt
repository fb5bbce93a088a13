ghost use Rattle.std.specs.Prelude.{◌≡◌, ◌≤◌, ℕ, Bool, false, IfOk};
ghost use Rattle.std.specs.List.{list_any};
ghost use Rattle.std.specs.Ordering.{nat_cmp, eq_by_cmp};
ghost use Rattle.sc_entry.specs.Failing.{fails_at, one_more, faults_after};

use crate::items::Items;
use crate::memory::NoMemory;
use std::alloc::Global;
use std::collections::BTreeSet;

/// The calls of a part in memory: how many came, which are to fail, and how many failed. Both counts stop at the end
/// of `u64`.
#[derive(Drop)]
pub struct Calls {
    failing: BTreeSet<u64>,
    made: u64,
    faults: u64,
}

impl Calls {
    /// No call came yet, and none is to fail.
    pub fn new(alloc: Global) -> Calls
        ensures failing { (number : ℕ) → fails_at result number ≡ false }
        ensures made { result.made ≡ 0 }
        ensures faults { result.faults ≡ 0 }
    {
        Calls {
            failing: BTreeSet::new(alloc),
            made: 0,
            faults: 0,
        }
    }

    /// No call came yet, and those of the given numbers are to fail. Numbers count from 1.
    pub fn failing_at(alloc: Global, numbers: Items<u64>) -> Result<Calls, NoMemory>
        ensures failing { IfOk result (λ calls. (number : ℕ) → fails_at calls number ≡ list_any (eq_by_cmp nat_cmp number) numbers) }
        ensures made { IfOk result (λ calls. calls.made ≡ 0) }
        ensures faults { IfOk result (λ calls. calls.faults ≡ 0) }
    {
        Ok(Calls {
            failing: BTreeSet::from_iter(alloc, numbers.into_vec())?,
            made: 0,
            faults: 0,
        })
    }

    /// How many calls came.
    pub fn made(&self) -> u64
        ensures { result ≡ self.now.made }
    {
        self.made
    }

    /// How many calls failed.
    pub fn faults(&self) -> u64
        ensures { result ≡ self.now.faults }
    {
        self.faults
    }

    /// Counts a call, and says whether it is to fail; the fault is counted too.
    pub fn fails_next(&mut self) -> bool
        ensures answer { result ≡ fails_at self.old self.new.made }
        ensures failing { (number : ℕ) → fails_at self.new number ≡ fails_at self.old number }
        ensures made { self.new.made ≡ one_more self.old.made }
        ensures faults { self.new.faults ≡ faults_after result self.old.faults }
        ensures later { self.old.faults ≤ self.new.faults }
    {
        self.made = self.made.saturating_add(1);
        let fails = self.failing.contains(&self.made);
        if fails {
            self.faults = self.faults.saturating_add(1);
        }
        fails
    }

    /// Counts a fault of the call that came last.
    pub fn refuse(&mut self)
        ensures failing { (number : ℕ) → fails_at self.new number ≡ fails_at self.old number }
        ensures made { self.new.made ≡ self.old.made }
        ensures faults { self.new.faults ≡ one_more self.old.faults }
        ensures later { self.old.faults ≤ self.new.faults }
    {
        self.faults = self.faults.saturating_add(1);
    }
}
