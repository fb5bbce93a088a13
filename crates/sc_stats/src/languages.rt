ghost use Rattle.std.specs.Prelude.{◌≡◌, OnOk, OnErr, IsOk};
ghost use Rattle.std.specs.FinMap as map;
ghost use Rattle.sc_entry.specs.Tally.{total_count};
ghost use Rattle.sc_stats.specs.Sums.{add_languages, no_counts};
ghost use Rattle.sc_stats.specs.Parts.{IsPartOfLanguages};

use crate::counters::PerLanguageCount;
use sc_entry::{Counts, NoMemory, Text};
use std::alloc::Global;

impl PerLanguageCount {
    /// Nothing is counted.
    pub fn new(alloc: Global) -> PerLanguageCount
        ensures { result ≡ no_counts }
    {
        PerLanguageCount {
            counts: Counts::new(alloc),
            adv_counts: Counts::new(alloc),
        }
    }

    /// All counts by a language's kind together; the sum stops at the end of `u64`.
    pub fn all(&self) -> u64
        ensures { result ≡ total_count self.now.counts }
    {
        self.counts.total()
    }

    /// The count of a language's kind, where it was counted.
    pub fn get(&self, key: &Text) -> Option<u64>
        ensures { result ≡ map.get self.now.counts key.now }
    {
        self.counts.find(key)
    }

    /// The count of a language and its compiler, where it was counted.
    pub fn get_adv(&self, key: &Text) -> Option<u64>
        ensures { result ≡ map.get self.now.adv_counts key.now }
    {
        self.adv_counts.find(key)
    }

    /// Adds all counts of another. Without memory a front part of each of its maps is added.
    pub fn add_assign(&mut self, other: &PerLanguageCount) -> Result<(), NoMemory>
        ensures ok { OnOk result (self.new ≡ add_languages self.old other.now) }
        ensures err { OnErr result (IsPartOfLanguages self.old other.now self.new) }
        ensures nothing { other.now ≡ no_counts → IsOk result }
    {
        self.counts.add_all(&other.counts)?;
        self.adv_counts.add_all(&other.adv_counts)?;
        Ok(())
    }
}
