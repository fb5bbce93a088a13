//! Levels as one store.
ghost use Rattle.std.specs.Prelude.{◌≡◌, ◌<◌, false, true, IfErr, IfOk, Option, length};
ghost use Rattle.sc_model.specs.declared.level.Policy.TheVariants.{Levels as ByLevel};
ghost use Rattle.sc_entry.specs.Entries.{entry as spelling};
ghost use Rattle.sc_model.specs.Describing.{some_size};
ghost use Rattle.sc_model.specs.Script.{is_single};
ghost use Rattle.sc_model.specs.declared.event.Mode.TheVariants.{Raw, Whole};
ghost use Rattle.sc_store_alone.specs.Checks.{ChecksAll, Stays};
ghost use Rattle.sc_store_alone.specs.Lookups as lookups;
ghost use Rattle.sc_store_alone.specs.Lookups.{IsCache, IsSpelled, LooksAt, LooksUp};
ghost use Rattle.sc_store_alone.specs.declared.hit.Hit.{Hit as Found};
ghost use Rattle.sc_store_alone.specs.Moving.{Keeps};
ghost use Rattle.sc_store_alone.specs.Preprocessor.{AsksEach, PutsPreOver};
ghost use Rattle.sc_store_alone.specs.Puts.{Puts, WritesAt};
ghost use Rattle.sc_store_alone.specs.Sizes.{size_sum};
ghost use Rattle.sc_store_alone.specs.Stores.{IsChain, IsNew, counted_of};
ghost use Rattle.sc_store.specs.Asking.{reads_key};
ghost use Rattle.sc_store.specs.Basedirs.{basedirs_of, first_flag};
ghost use Rattle.sc_store.specs.Levels.{held_levels};
ghost use Rattle.sc_store.specs.Telling.{new_counters, store_location, store_max, store_mode, store_type};
ghost use Rattle.sc_store_config.specs.Configs.{IsCause, disk_as, remote_as, store_of};
ghost use Rattle.sc_store_config.specs.Policies.{setting_policies};
ghost use Rattle.sc_store_config.specs.declared.write_error_policy.WriteErrorPolicy.TheVariants as settings;

use crate::lookup::{ask_level, look_up};
use crate::{checking, preprocessor, putting, sizes};
use sc_disk::Disk;
use sc_entry::{ByteText, Cache, CacheMode, CacheWrite, Items, NoMemory, Text};
use sc_model::{Answer, LevelPolicy, Mode, Policy, Put, Written};
use sc_stats::LevelStats;
use sc_store::{Checked, Layered, Level, Remote, Vouch};
use sc_store_alone::{Hit, entry_of};
use sc_store_config::{ConfigError, StoreConfig, WriteErrorPolicy, storage_from_config};
use std::alloc::Global;
use std::marker::Model;

/// Levels of stores in order, as one store, with what is counted at each. Contracts see what the levels hold, the counters
/// and the base directories.
#[derive(Drop)]
pub struct MultiLevelStorage<R: Remote, D: Disk, V: Vouch> {
    levels: Layered<R, D, V>,
    counters: Vec<LevelStats>,
    basedirs: Vec<ByteText>,
}

impl<R: Remote, D: Disk, V: Vouch> Model for MultiLevelStorage<R, D, V> {
    ghost use Rattle.sc_store_alone.specs.Stores.{Multilevel, multilevel_code, multilevel_of};

    ghost Value = { Multilevel };

    ghost coded = { multilevel_code };

    ghost view = { λ s. multilevel_of s.levels s.counters.items s.basedirs.items };

    ghost use Rattle.std.specs.Prelude.{◌≡◌, false};
    ghost use Rattle.sc_model.specs.Script.{is_single};

    /// No level stands alone.
    ghost invariant = { λ s. is_single s.levels.policy ≡ false };
}

/// Levels as one store, of which nothing is counted yet.
fn of_levels<R: Remote + Drop, D: Disk + Drop, V: Vouch>(
    alloc: Global,
    levels: Layered<R, D, V>,
) -> Result<MultiLevelStorage<R, D, V>, NoMemory>
    requires { is_single levels.policy ≡ false }
    ensures held { IfOk result (λ store. store.held ≡ levels) }
    ensures counters { IfOk result (λ store. store.counters ≡ new_counters 0 levels.titles) }
    ensures basedirs { IfOk result (λ store. store.basedirs ≡ basedirs_of levels.titles) }
{
    let basedirs = levels.all_basedirs(alloc)?;
    let counters = levels.new_counters(alloc)?;
    Ok(MultiLevelStorage {
        levels,
        counters,
        basedirs,
    })
}

impl<R: Remote + Drop, D: Disk + Drop, V: Vouch> MultiLevelStorage<R, D, V> {
    /// Levels of which the first has to be written, and all others are written in the background.
    pub fn new(
        alloc: Global,
        levels: Vec<Level<R, D, V>>,
    ) -> Result<MultiLevelStorage<R, D, V>, NoMemory>
        ensures { IfOk result (λ store. IsNew (held_levels levels.items (ByLevel (setting_policies settings.L0 (length levels.items)))) store) }
    {
        MultiLevelStorage::with_write_error_policy(alloc, levels, WriteErrorPolicy::new())
    }

    /// Levels whose policies this setting says.
    pub fn with_write_error_policy(
        alloc: Global,
        levels: Vec<Level<R, D, V>>,
        policy: WriteErrorPolicy,
    ) -> Result<MultiLevelStorage<R, D, V>, NoMemory>
        ensures { IfOk result (λ store. IsNew (held_levels levels.items (ByLevel (setting_policies policy (length levels.items)))) store) }
    {
        let policies = policy.policies(alloc, levels.len())?;
        MultiLevelStorage::with_level_policies(alloc, levels, policies)
    }

    /// Levels with a write policy each: a missing one is `Background`, a surplus one isn't used. Nothing is counted yet.
    pub fn with_level_policies(
        alloc: Global,
        levels: Vec<Level<R, D, V>>,
        policies: Items<LevelPolicy>,
    ) -> Result<MultiLevelStorage<R, D, V>, NoMemory>
        ensures { IfOk result (λ store. IsNew (held_levels levels.items (ByLevel policies)) store) }
    {
        let store = of_levels(alloc, Layered::new(levels, Policy::Levels(policies)))?;
        Ok(store)
    }

    /// The levels that a configuration's chain names, in its order. Without a chain there is nothing. A name of the chain
    /// without a configuration is an error: the first such name.
    pub fn from_config(
        alloc: Global,
        config: StoreConfig<R, D>,
    ) -> Result<Option<MultiLevelStorage<R, D, V>>, ConfigError>
        ensures made { IfOk result (λ found. IsChain config.chain (store_of (remote_as R.names R.held R.fault_count R.loss_count R.calls R.reached config.basedirs config.skip_cache_check) (disk_as D.state config.basedirs) config) found) }
        ensures fault { IfErr result (λ error. IsCause error (store_of (remote_as R.names R.held R.fault_count R.loss_count R.calls R.reached config.basedirs config.skip_cache_check) (disk_as D.state config.basedirs) config)) }
    {
        if config.chain.is_empty() {
            return Ok(None);
        }
        let levels = storage_from_config(alloc, config)?;
        let store = of_levels(alloc, levels)?;
        Ok(Some(store))
    }
}

impl<R: Remote, D: Disk, V: Vouch> MultiLevelStorage<R, D, V> {
    /// The levels.
    pub fn levels(&self) -> &Layered<R, D, V>
        ensures { result.now ≡ self.now.held }
    {
        &self.levels
    }

    /// What is counted at each level, in their order.
    pub fn stats(&self) -> &[LevelStats]
        ensures { result.now ≡ self.now.counters }
    {
        &self.counters
    }

    /// The base directories of all levels, in the order in which they first appear, each once.
    pub fn basedirs(&self) -> &[ByteText]
        ensures { result.now ≡ self.now.basedirs }
    {
        &self.basedirs
    }

    /// Whether the first level is to keep entries of the preprocessor.
    pub fn use_preprocessor_cache_mode(&self) -> bool
        ensures { result ≡ first_flag self.now.held.titles }
    {
        self.levels.use_preprocessor_cache_mode()
    }

    /// What type the store has, in a word.
    pub fn cache_type_name(&self) -> &str
        ensures { result.now ≡ store_type self.now.held.policy self.now.held.titles }
    {
        self.levels.cache_type_name()
    }

    /// Where the store is, in words.
    pub fn location(&self, alloc: Global) -> Result<Text, NoMemory>
        ensures { IfOk result (λ text. text ≡ store_location self.now.held.policy self.now.held.titles) }
    {
        let text = self.levels.location(alloc)?;
        Ok(text)
    }

    /// The most bytes that the store may take, where that is known.
    pub fn max_size(&self) -> Option<u64>
        ensures { result ≡ store_max self.now.held.policy self.now.held.facts }
    {
        self.levels.max_size()
    }

    /// The bytes that all levels take, as far as that is known: of a disk level that is opened those of its files and open
    /// entries. None where that is nothing.
    pub fn current_size(&self) -> Option<u64>
        ensures { self.now.held.told ≡ true → result ≡ some_size (size_sum self.now.held) }
    {
        let _counters = self.counters.len();
        sizes::current_size(&self.levels)
    }

    /// The mode that holds: read-only where there are levels and each is.
    pub fn mode(&self) -> CacheMode
        ensures { result ≡ store_mode self.now.held.facts }
    {
        self.levels.cache_mode()
    }
}

/// A hit's bytes.
fn bytes_of(found: Option<Hit>) -> Option<ByteText>
    ensures { result ≡ lookups.bytes_of found }
{
    let Some(hit) = found else {
        return None;
    };
    Some(hit.bytes)
}

/// A hit as the entry that its bytes spell.
fn cache_of(alloc: Global, found: Option<Hit>) -> Result<Cache, NoMemory>
    requires { IsSpelled found }
    ensures { IfOk result (λ cache. IsCache found cache) }
{
    let Some(hit) = found else {
        return Ok(Cache::Miss);
    };
    entry_of(alloc, hit.bytes)
}

impl<R: Remote, D: Disk + Drop, V: Vouch> MultiLevelStorage<R, D, V> {
    /// Looks an entry up at this moment, level by level: the first hit is the answer, and is put at the levels before it
    /// that take writes, whatever comes of that. A level that refuses is passed over as one that has no such entry. Each
    /// level's answer and each put is counted there.
    pub fn get(&mut self, alloc: Global, key: &Text, now: u64) -> Result<Cache, NoMemory>
        ensures keeps { Keeps self.old.held self.new.held }
        ensures basedirs { self.new.basedirs ≡ self.old.basedirs }
        ensures found { IfOk result (λ cache. (found : Option Found) × LooksUp key.now Whole found (counted_of self.old) (counted_of self.new) × IsCache found cache) }
    {
        let _basedirs = self.basedirs.len();
        let found = look_up(
            alloc,
            &mut self.levels,
            &mut self.counters,
            key,
            Mode::Whole,
            now,
        )?;
        cache_of(alloc, found)
    }

    /// Looks up the bytes that stand under a key, as they are, in the same way.
    pub fn get_raw(
        &mut self,
        alloc: Global,
        key: &Text,
        now: u64,
    ) -> Result<Option<ByteText>, NoMemory>
        ensures keeps { Keeps self.old.held self.new.held }
        ensures basedirs { self.new.basedirs ≡ self.old.basedirs }
        ensures found { IfOk result (λ bytes. (found : Option Found) × LooksUp key.now Raw found (counted_of self.old) (counted_of self.new) × (bytes ≡ lookups.bytes_of found)) }
    {
        let _basedirs = self.basedirs.len();
        let found = look_up(
            alloc,
            &mut self.levels,
            &mut self.counters,
            key,
            Mode::Raw,
            now,
        )?;
        Ok(bytes_of(found))
    }

    /// Looks a key up at one level, and at no other: a single action of a lookup. Its answer is counted there.
    pub fn lookup_step(
        &mut self,
        alloc: Global,
        level: usize,
        key: &Text,
        mode: Mode,
        now: u64,
    ) -> Result<Answer, NoMemory>
        requires level { level < length self.old.held.levels }
        requires mode { reads_key mode ≡ true }
        ensures keeps { Keeps self.old.held self.new.held }
        ensures basedirs { self.new.basedirs ≡ self.old.basedirs }
        ensures looked { IfOk result (λ answer. LooksAt level key.now mode answer (counted_of self.old) (counted_of self.new)) }
    {
        let _basedirs = self.basedirs.len();
        ask_level(
            alloc,
            &mut self.levels,
            &mut self.counters,
            level,
            key,
            mode,
            now,
        )
    }

    /// Puts bytes at one level, and at no other: a single action of a put. The flag says whether a local run made them. What
    /// it came to is counted there.
    pub fn put_step(
        &mut self,
        alloc: Global,
        level: u64,
        key: &Text,
        bytes: &ByteText,
        from_run: bool,
        now: u64,
    ) -> Result<Written, NoMemory>
        requires { level < length self.old.held.levels }
        ensures keeps { Keeps self.old.held self.new.held }
        ensures basedirs { self.new.basedirs ≡ self.old.basedirs }
        ensures wrote { IfOk result (λ how. WritesAt false level key.now bytes.now from_run how (counted_of self.old) (counted_of self.new)) }
    {
        self.write_step(alloc, false, level, key, bytes, from_run, now)
    }

    /// Puts a hit's bytes, with the mark of the hit, at one level, and at no other: a single action of a lookup. What it came
    /// to is counted there.
    pub fn backfill_step(
        &mut self,
        alloc: Global,
        level: u64,
        key: &Text,
        bytes: &ByteText,
        marked: bool,
        now: u64,
    ) -> Result<Written, NoMemory>
        requires { level < length self.old.held.levels }
        ensures keeps { Keeps self.old.held self.new.held }
        ensures basedirs { self.new.basedirs ≡ self.old.basedirs }
        ensures wrote { IfOk result (λ how. WritesAt true level key.now bytes.now marked how (counted_of self.old) (counted_of self.new)) }
    {
        self.write_step(alloc, true, level, key, bytes, marked, now)
    }

    fn write_step(
        &mut self,
        alloc: Global,
        backfill: bool,
        level: u64,
        key: &Text,
        bytes: &ByteText,
        mark: bool,
        now: u64,
    ) -> Result<Written, NoMemory>
        requires { level < length self.old.held.levels }
        ensures keeps { Keeps self.old.held self.new.held }
        ensures basedirs { self.new.basedirs ≡ self.old.basedirs }
        ensures wrote { IfOk result (λ how. WritesAt backfill level key.now bytes.now mark how (counted_of self.old) (counted_of self.new)) }
    {
        let _basedirs = self.basedirs.len();
        putting::write_level(
            alloc,
            &mut self.levels,
            &mut self.counters,
            backfill,
            level,
            key,
            bytes,
            mark,
            now,
        )
    }

    /// Asks the levels in order for an entry of the preprocessor, until one finds it or refuses. Nothing is counted.
    pub(crate) fn ask_preprocessor(
        &mut self,
        alloc: Global,
        key: &Text,
        now: u64,
    ) -> Result<Answer, NoMemory>
        ensures keeps { Keeps self.old.held self.new.held }
        ensures counters { self.new.counters ≡ self.old.counters }
        ensures basedirs { self.new.basedirs ≡ self.old.basedirs }
        ensures asked { IfOk result (λ answer. AsksEach key.now answer self.old.held self.new.held) }
    {
        let _counters = self.counters.len();
        let _basedirs = self.basedirs.len();
        preprocessor::ask_each(alloc, &mut self.levels, key, now)
    }

    /// Puts an entry of the preprocessor, in the order of the levels, at each that may be written and takes writes, whatever
    /// comes of that. Nothing is counted.
    pub(crate) fn put_preprocessor(
        &mut self,
        alloc: Global,
        key: &Text,
        bytes: &[u8],
        now: u64,
    ) -> Result<(), NoMemory>
        ensures keeps { Keeps self.old.held self.new.held }
        ensures counters { self.new.counters ≡ self.old.counters }
        ensures basedirs { self.new.basedirs ≡ self.old.basedirs }
        ensures wrote { IfOk result (λ _. PutsPreOver key.now bytes.now self.old.held self.new.held) }
    {
        let _counters = self.counters.len();
        let _basedirs = self.basedirs.len();
        preprocessor::put_each(alloc, &mut self.levels, key, bytes, now)
    }

    /// Puts an entry under a key at this moment: first at the levels that have to be written, in order, whose first refusal is
    /// the answer, then at those that are written in the background, whatever comes of that. Where level 0 has to be written
    /// and refuses, no other level is written. Each put is counted at its level.
    pub fn put(
        &mut self,
        alloc: Global,
        key: &Text,
        entry: CacheWrite,
        now: u64,
    ) -> Result<Put, NoMemory>
        ensures keeps { Keeps self.old.held self.new.held }
        ensures basedirs { self.new.basedirs ≡ self.old.basedirs }
        ensures wrote { IfOk result (λ answer. Puts key.now (spelling entry) answer (counted_of self.old) (counted_of self.new)) }
    {
        let bytes = ByteText::from_vec(entry.finish());
        self.put_raw(alloc, key, bytes, now)
    }

    /// Puts bytes under a key as they are, in the same way.
    pub fn put_raw(
        &mut self,
        alloc: Global,
        key: &Text,
        bytes: ByteText,
        now: u64,
    ) -> Result<Put, NoMemory>
        ensures keeps { Keeps self.old.held self.new.held }
        ensures basedirs { self.new.basedirs ≡ self.old.basedirs }
        ensures wrote { IfOk result (λ answer. Puts key.now bytes answer (counted_of self.old) (counted_of self.new)) }
    {
        let _basedirs = self.basedirs.len();
        putting::put(alloc, &mut self.levels, &mut self.counters, key, bytes, now)
    }

    /// Finds out whether the levels can be read and written: they are checked in order, those that are off left out. The first
    /// refusal of a level that has to be written is the answer, and no later level is checked. Else they can be written where
    /// there are none, where one can, or where one refused that need not be written. Each level's mode is what was found.
    pub fn check(&mut self, alloc: Global) -> Result<Checked, NoMemory>
        ensures stays { Stays self.old.held self.new.held }
        ensures counters { self.new.counters ≡ self.old.counters }
        ensures basedirs { self.new.basedirs ≡ self.old.basedirs }
        ensures checked { IfOk result (λ answer. ChecksAll answer self.old.held self.new.held) }
    {
        let _counters = self.counters.len();
        checking::check(alloc, &mut self.levels)
    }
}
