//! What a daemon's store tells of itself.
ghost use Rattle.std.specs.Prelude.{◌≡◌, ◌++◌, codes, decimal, IfOk};
ghost use Rattle.sc_model.specs.Describing as sizes;
ghost use Rattle.sc_stats.specs.Sums.{no_level_stats};
ghost use Rattle.sc_store.specs.Basedirs as dirs;
ghost use Rattle.sc_store.specs.Levels.{held_level};
ghost use Rattle.sc_store.specs.Planning.{facts_of};
ghost use Rattle.sc_store.specs.Telling as telling;

use crate::basedirs::{collect_basedirs, first_basedirs};
use crate::level::Level;
use crate::levels::Layered;
use crate::remote::Remote;
use crate::remote_storage::is_read_only;
use crate::vouch::Vouch;
use sc_disk::Disk;
use sc_entry::{ByteText, CacheMode, Items, NoMemory, Text};
use sc_model::Policy;
use sc_stats::LevelStats;
use std::alloc::Global;

/// None where nothing is known.
fn some_size(size: u64) -> Option<u64>
    ensures { result ≡ sizes.some_size size }
{
    if size == 0 { None } else { Some(size) }
}

/// What the levels may take together, as far as that is known. The sum stops at the end of `u64`.
fn max_of<R: Remote, D: Disk, V: Vouch>(levels: &[Level<R, D, V>]) -> u64
    ensures { result ≡ telling.max_onto 0 (facts_of levels.now) }
{
    let mut sum: u64 = 0;
    let mut left = levels;
    while let [level, rest @ ..] = left {
        sum = sum.saturating_add(level.max_size().unwrap_or(0));
        left = rest;
    }
    sum
}

/// Whether every level is read-only.
fn all_read_only<R: Remote, D: Disk, V: Vouch>(levels: &[Level<R, D, V>]) -> bool
    ensures { result ≡ sizes.all_read_only (facts_of levels.now) }
{
    let mut left = levels;
    while let [level, rest @ ..] = left {
        if !is_read_only(level.mode()) {
            return false;
        }
        left = rest;
    }
    true
}

/// The mode of a store of these levels: read-only where there are levels and each is.
fn mode_of<R: Remote, D: Disk, V: Vouch>(levels: &[Level<R, D, V>]) -> CacheMode
    ensures { result ≡ telling.store_mode (facts_of levels.now) }
{
    if levels.is_empty() {
        return CacheMode::ReadWrite;
    }
    if all_read_only(levels) {
        CacheMode::ReadOnly
    } else {
        CacheMode::ReadWrite
    }
}

/// The name of a level among all.
fn level_name(alloc: Global, number: u64, type_name: &str) -> Result<Text, NoMemory>
    ensures { IfOk result (λ name. name ≡ telling.level_name number type_name.now) }
{
    let mut name = String::from_str(alloc, "L")?;
    let number = format!(in alloc; "{number}")?;
    name.push_str(&number)?;
    name.push_str(" (")?;
    name.push_str(type_name)?;
    name.push_str(")")?;
    Ok(Text::from_string(name))
}

/// The counters of a level of which nothing was counted.
fn new_counter<R: Remote, D: Disk, V: Vouch>(
    alloc: Global,
    number: u64,
    level: &Level<R, D, V>,
) -> Result<LevelStats, NoMemory>
    ensures { IfOk result (λ counters. counters ≡ record no_level_stats { name = telling.level_name number (held_level level.now).title.type_name; location = (held_level level.now).title.location }) }
{
    let mut counters = LevelStats::new(alloc);
    counters.name = level_name(alloc, number, level.cache_type_name())?;
    counters.location = level.location(alloc)?;
    Ok(counters)
}

fn new_counters<R: Remote, D: Disk, V: Vouch>(
    alloc: Global,
    levels: &[Level<R, D, V>],
) -> Result<Vec<LevelStats>, NoMemory>
    ensures { IfOk result (λ counters. counters.items ≡ telling.new_counters 0 (telling.titles_of levels.now)) }
{
    let mut counters = Vec::new(alloc);
    let mut number: u64 = 0;
    let mut left = levels;
    while let [level, rest @ ..] = left {
        counters.push(new_counter(alloc, number, level)?)?;
        number += 1;
        left = rest;
    }
    Ok(counters)
}

/// The location of levels that are one store.
fn levels_location(alloc: Global, count: usize) -> Result<Text, NoMemory>
    ensures { IfOk result (λ text. text ≡ codes "Multi-level (" ++ decimal count ++ codes " levels)") }
{
    let mut text = String::from_str(alloc, "Multi-level (")?;
    let number = format!(in alloc; "{count}")?;
    text.push_str(&number)?;
    text.push_str(" levels)")?;
    Ok(Text::from_string(text))
}

/// The type of the first level's store.
fn first_type<R: Remote, D: Disk, V: Vouch>(levels: &[Level<R, D, V>]) -> &str
    ensures { result.now ≡ telling.first_type (telling.titles_of levels.now) }
{
    match levels {
        [first, ..] => first.cache_type_name(),
        [] => "",
    }
}

/// Where the first level's store is.
fn first_location<R: Remote, D: Disk, V: Vouch>(
    alloc: Global,
    levels: &[Level<R, D, V>],
) -> Result<Text, NoMemory>
    ensures { IfOk result (λ text. text ≡ telling.first_location (telling.titles_of levels.now)) }
{
    match levels {
        [first, ..] => {
            let text = first.location(alloc)?;
            Ok(text)
        }
        [] => Ok(Text::new(alloc)),
    }
}

/// Whether the first level is to keep entries of the preprocessor.
fn first_flag<R: Remote, D: Disk, V: Vouch>(levels: &[Level<R, D, V>]) -> bool
    ensures { result ≡ dirs.first_flag (telling.titles_of levels.now) }
{
    match levels {
        [first, ..] => first.use_preprocessor_cache_mode(),
        [] => false,
    }
}

/// What the first level's store may take.
fn first_max<R: Remote, D: Disk, V: Vouch>(levels: &[Level<R, D, V>]) -> Option<u64>
    ensures { result ≡ telling.first_max (facts_of levels.now) }
{
    match levels {
        [first, ..] => first.max_size(),
        [] => None,
    }
}

impl<R: Remote, D: Disk, V: Vouch> Layered<R, D, V> {
    /// What type the store has, in a word.
    pub fn cache_type_name(&self) -> &str
        ensures { result.now ≡ telling.store_type self.now.policy self.now.titles }
    {
        match &self.policy {
            Policy::Single => first_type(&self.levels),
            Policy::Levels(_) => "unknown",
        }
    }

    /// Where the store is, in words.
    pub fn location(&self, alloc: Global) -> Result<Text, NoMemory>
        ensures { IfOk result (λ text. text ≡ telling.store_location self.now.policy self.now.titles) }
    {
        match &self.policy {
            Policy::Single => {
                let text = first_location(alloc, &self.levels)?;
                Ok(text)
            }
            Policy::Levels(_) => {
                let text = levels_location(alloc, self.levels.len())?;
                Ok(text)
            }
        }
    }

    /// The most bytes that the store may take, where that is known.
    pub fn max_size(&self) -> Option<u64>
        ensures { result ≡ telling.store_max self.now.policy self.now.facts }
    {
        match &self.policy {
            Policy::Single => first_max(&self.levels),
            Policy::Levels(_) => some_size(max_of(&self.levels)),
        }
    }

    /// The base directories of all levels, in the order in which they first appear.
    pub fn all_basedirs(&self, alloc: Global) -> Result<Vec<ByteText>, NoMemory>
        ensures { IfOk result (λ basedirs. basedirs.items ≡ dirs.basedirs_of self.now.titles) }
    {
        let basedirs = collect_basedirs(alloc, self)?;
        Ok(basedirs)
    }

    /// The base directories of the store: those that a store that stands alone was given, or those of all levels in the order
    /// in which they first appear.
    pub fn basedirs(&self, alloc: Global) -> Result<Items<ByteText>, NoMemory>
        ensures { IfOk result (λ basedirs. basedirs ≡ dirs.store_basedirs self.now.policy self.now.titles) }
    {
        match &self.policy {
            Policy::Single => {
                let basedirs = first_basedirs(alloc, &self.levels)?;
                Ok(basedirs)
            }
            Policy::Levels(_) => {
                let basedirs = self.all_basedirs(alloc)?;
                Ok(Items::from_vec(basedirs))
            }
        }
    }

    /// Whether the first level is to keep entries of the preprocessor.
    pub fn use_preprocessor_cache_mode(&self) -> bool
        ensures { result ≡ dirs.first_flag self.now.titles }
    {
        first_flag(&self.levels)
    }

    /// The mode of the store: read-only where there are levels and each is.
    pub fn cache_mode(&self) -> CacheMode
        ensures { result ≡ telling.store_mode self.now.facts }
    {
        mode_of(&self.levels)
    }

    /// The counters of its levels as they begin: their names and places, and nothing counted.
    pub fn new_counters(&self, alloc: Global) -> Result<Vec<LevelStats>, NoMemory>
        ensures { IfOk result (λ counters. counters.items ≡ telling.new_counters 0 self.now.titles) }
    {
        let counters = new_counters(alloc, &self.levels)?;
        Ok(counters)
    }
}
