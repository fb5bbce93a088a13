ghost use Rattle.std.specs.Prelude.{◌≡◌, IfOk, OnOk, OnErr, IsOk};
ghost use Rattle.std.specs.FinMap as map;
ghost use Rattle.sc_entry.specs.Listed.{listed};
ghost use Rattle.sc_entry.specs.Tally.{IsPartSum, add_counts, count_of, counted, entries_of, tally_of, total_count};

use crate::counted_text::CountedText;
use crate::items::Items;
use crate::memory::NoMemory;
use crate::text::Text;
use std::alloc::{AllocError, Global};
use std::collections::BTreeMap;
use std::marker::Model;

/// A count by text. Contracts see it as a finite map.
#[derive(Debug, Drop)]
pub struct Counts {
    by_text: BTreeMap<Text, u64>,
}

impl Model for Counts {
    ghost use Rattle.sc_entry.specs.Tally.{Tally, tally_code, tally_of};

    ghost Value = { Tally };

    ghost coded = { tally_code };

    ghost view = { λ c. tally_of c.by_text.entries };
}

impl Counts {
    /// Nothing is counted.
    pub fn new(alloc: Global) -> Counts
        ensures { result ≡ map.empty }
    {
        Counts {
            by_text: BTreeMap::new(alloc),
        }
    }

    /// The counts of a list; of a text that stands twice the first count.
    pub fn from_entries(alloc: Global, entries: Items<(Text, u64)>) -> Result<Counts, NoMemory>
        ensures { IfOk result (λ c. c ≡ tally_of entries) }
    {
        let mut left = entries.into_vec();
        let mut by_text = BTreeMap::new(alloc);
        while let Some((text, count)) = left.pop() {
            by_text.insert(text, count)?;
        }
        Ok(Counts { by_text })
    }

    /// Each text with its count, in the order of the texts' bytes.
    pub fn by_text(&self) -> &BTreeMap<Text, u64>
        ensures { result.now.entries ≡ entries_of self.now }
    {
        let _ordered = self.by_text.len();
        &self.by_text
    }

    /// A text's count, 0 where it was never counted.
    pub fn get(&self, text: &Text) -> u64
        ensures { result ≡ count_of self.now text.now }
    {
        self.by_text.get(text).copied().unwrap_or(0)
    }

    /// A text's count, where it was counted.
    pub fn find(&self, text: &Text) -> Option<u64>
        ensures { result ≡ map.get self.now text.now }
    {
        self.by_text.get(text).copied()
    }

    /// All counts together; the sum stops at the end of `u64`.
    pub fn total(&self) -> u64
        ensures { result ≡ total_count self.now }
    {
        let mut total: u64 = 0;
        for (_, n) in self.by_text.iter() {
            total = total.saturating_add(*n);
        }
        total
    }

    /// All texts with their counts, in the order of their bytes.
    pub fn listed(&self, alloc: Global) -> Result<Items<CountedText>, NoMemory>
        ensures { IfOk result (λ texts. texts ≡ listed self.now) }
    {
        let mut texts = Vec::new(alloc);
        for (text, n) in self.by_text.iter() {
            texts.push(CountedText {
                text: text.clone()?,
                count: *n,
            })?;
        }
        Ok(Items::from_vec(texts))
    }

    /// Counts a text `n` times more; the count stops at the end of `u64`.
    pub fn add(&mut self, text: &Text, n: u64) -> Result<(), NoMemory>
        ensures ok { OnOk result (self.new ≡ counted self.old text.now n) }
        ensures err { OnErr result (self.new ≡ self.old) }
    {
        let more = self.get(text).saturating_add(n);
        let text = text.clone()?;
        self.by_text.insert(text, more)?;
        Ok(())
    }

    /// Counts each text of another as often again as it stands there. Without memory a front part of them,
    /// in the order of their texts, is counted.
    pub fn add_all(&mut self, other: &Counts) -> Result<(), NoMemory>
        ensures ok { OnOk result (self.new ≡ add_counts self.old other.now) }
        ensures err { OnErr result (IsPartSum self.old other.now self.new) }
        ensures nothing { other.now ≡ map.empty → IsOk result }
    {
        for (text, n) in other.by_text.iter() {
            self.add(text, *n)?;
        }
        Ok(())
    }
}

impl Clone for Counts {
    ghost is_clone = { λ counts copy. copy ≡ counts };

    fn clone(&self) -> Result<Counts, AllocError> {
        Ok(Counts {
            by_text: self.by_text.clone()?,
        })
    }
}
