ghost use Rattle.std.specs.Prelude.{◌≡◌, ◌∷◌, ◌++◌, [], OnOk, OnErr, length, take, drop};
ghost use Rattle.sc_stats.specs.Sums.{add_level, add_levels, no_level_stats, places_of};
ghost use Rattle.sc_stats.specs.Parts.{IsPartOfLevels};

use crate::counters::LevelStats;
use crate::span::Span;
use sc_entry::{Items, NoMemory, Text};
use std::alloc::{AllocError, Global};
use std::marker::Model;

impl LevelStats {
    /// Nothing is counted, at a level without a name.
    pub fn new(alloc: Global) -> LevelStats
        ensures { result ≡ no_level_stats }
    {
        LevelStats::named(Text::new(alloc), Text::new(alloc))
    }

    /// Nothing is counted, at a level of this name and location.
    pub fn named(name: Text, location: Text) -> LevelStats
        ensures { result ≡ record no_level_stats { name = name; location = location } }
    {
        LevelStats {
            name,
            location,
            hits: 0,
            misses: 0,
            writes: 0,
            write_failures: 0,
            backfills_from: 0,
            backfills_to: 0,
            hit_duration: Span::zero(),
            write_duration: Span::zero(),
        }
    }

    /// Adds what another counts. Name and location stay.
    pub fn add_assign(&mut self, other: &LevelStats)
        ensures { self.new ≡ add_level self.old other.now }
    {
        self.hits = self.hits.saturating_add(other.hits);
        self.misses = self.misses.saturating_add(other.misses);
        self.writes = self.writes.saturating_add(other.writes);
        self.write_failures = self.write_failures.saturating_add(other.write_failures);
        self.backfills_from = self.backfills_from.saturating_add(other.backfills_from);
        self.backfills_to = self.backfills_to.saturating_add(other.backfills_to);
        self.hit_duration.add_assign(&other.hit_duration);
        self.write_duration.add_assign(&other.write_duration);
    }
}

/// What the levels of a store count, in their order. Contracts see it as the list of them.
#[derive(Drop)]
pub struct MultiLevelStats {
    levels: Vec<LevelStats>,
}

impl Model for MultiLevelStats {
    ghost use Rattle.std.specs.Prelude.{List};
    ghost use Rattle.sc_stats.specs.declared.counters.LevelStats.{LevelStats};

    ghost Value = { List LevelStats };

    ghost view = { λ s. s.levels.items };
}

impl MultiLevelStats {
    /// No level.
    pub fn new(alloc: Global) -> MultiLevelStats
        ensures { result ≡ [] }
    {
        MultiLevelStats {
            levels: Vec::new(alloc),
        }
    }

    pub fn from_levels(levels: Items<LevelStats>) -> MultiLevelStats
        ensures { result ≡ levels }
    {
        MultiLevelStats {
            levels: levels.into_vec(),
        }
    }

    pub fn as_slice(&self) -> &[LevelStats]
        ensures { result.now ≡ self.now }
    {
        self.levels.as_slice()
    }

    /// The same levels, given back without a copy.
    pub fn into_levels(self) -> Items<LevelStats>
        ensures { result ≡ self }
    {
        Items::from_vec(self.levels)
    }

    /// Adds the levels of another, place by place. Names and locations stay, and what the other has more
    /// is appended. Without memory a front part of the other's levels is added.
    pub fn add_assign(&mut self, other: &MultiLevelStats) -> Result<(), NoMemory>
        ensures ok { OnOk result (self.new ≡ add_levels self.old other.now) }
        ensures places { OnOk result (places_of (take (length self.old) self.new) ≡ places_of self.old) }
        ensures surplus { OnOk result (drop (length self.old) self.new ≡ drop (length self.old) other.now) }
        ensures err { OnErr result (IsPartOfLevels self.old other.now self.new) }
    {
        self.add_levels(other.as_slice())?;
        Ok(())
    }

    /// Adds levels, place by place.
    pub(crate) fn add_levels(&mut self, other: &[LevelStats]) -> Result<(), NoMemory>
        ensures ok { OnOk result (self.new ≡ add_levels self.old other.now) }
        ensures err { OnErr result (IsPartOfLevels self.old other.now self.new) }
    {
        for (place, level) in other.iter().enumerate() {
            if place < self.levels.len() {
                self.levels[place].add_assign(level);
            } else {
                self.levels.push(level.clone()?)?;
            }
        }
        Ok(())
    }
}

impl Clone for MultiLevelStats {
    ghost is_clone = { λ levels copy. copy ≡ levels };

    fn clone(&self) -> Result<MultiLevelStats, AllocError> {
        Ok(MultiLevelStats {
            levels: self.levels.clone()?,
        })
    }
}
