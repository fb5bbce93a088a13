//! What any store of entries can be asked.
ghost use Rattle.std.specs.Prelude.{◌≡◌, true, IfErr, IfOk};
ghost use Rattle.sc_entry.specs.Entries.{entry as spelling};
ghost use Rattle.sc_model.specs.declared.event.Mode.TheVariants.{Raw, Whole};
ghost use Rattle.sc_store_alone.specs.Storages as storages;
ghost use Rattle.sc_store_alone.specs.Storages.{ChecksIn, Gets, GetsBoth, GetsPath, GetsPre, GetsRaw, KeepsStore, PutsIn, PutsPreIn, RefusesCheck, RefusesLookup, RefusesPre, RefusesPrePut, RefusesPut, State, StaysStore};
ghost use Rattle.sc_store_alone.specs.declared.storage_error.StorageError.TheVariants.{Unsupported};

use crate::storage_error::StorageError;
use sc_entry::{ByteText, Cache, CacheMode, CacheWrite, GetPathResult, Items, NoMemory, Text};
use sc_stats::LevelStats;
use std::alloc::Global;

/// A store of entries: one that stands alone, levels as one store, or one that is only read. Moments are nanoseconds.
pub trait Storage {
    /// What it is, what it holds, and what is counted at its levels.
    ghost state: { Self → State };

    /// Looks an entry up, at this moment.
    fn get(&mut self, alloc: Global, key: &Text, now: u64) -> Result<Cache, StorageError>
        ensures keeps { KeepsStore (state self.old) (state self.new) }
        ensures found { IfOk result (λ cache. Gets (state self.old) (state self.new) key.now cache) }
        ensures refused { IfErr result (λ error. RefusesLookup (state self.old) (state self.new) key.now Whole error) };

    /// Looks an entry up, and its bytes: a store that stands alone reads once, levels are asked again for the bytes of a hit.
    fn get_with_raw(
        &mut self,
        alloc: Global,
        key: &Text,
        now: u64,
    ) -> Result<(Cache, Option<ByteText>), StorageError>
        ensures keeps { KeepsStore (state self.old) (state self.new) }
        ensures found { IfOk result (λ both. GetsBoth (state self.old) (state self.new) key.now both.0 both.1) }
        ensures refused { IfErr result (λ error. RefusesLookup (state self.old) (state self.new) key.now Whole error) };

    /// Looks up the bytes that stand under a key, as they are.
    fn get_raw(
        &mut self,
        alloc: Global,
        key: &Text,
        now: u64,
    ) -> Result<Option<ByteText>, StorageError>
        ensures keeps { KeepsStore (state self.old) (state self.new) }
        ensures found { IfOk result (λ bytes. GetsRaw (state self.old) (state self.new) key.now bytes) }
        ensures refused { IfErr result (λ error. RefusesLookup (state self.old) (state self.new) key.now Raw error) };

    /// Puts an entry under a key, in place of what stood there.
    fn put(
        &mut self,
        alloc: Global,
        key: &Text,
        entry: CacheWrite,
        now: u64,
    ) -> Result<(), StorageError>
        ensures keeps { KeepsStore (state self.old) (state self.new) }
        ensures wrote { IfOk result (λ _. PutsIn (state self.old) (state self.new) key.now (spelling entry)) }
        ensures refused { IfErr result (λ error. RefusesPut storages.only_read (state self.old) (state self.new) key.now (spelling entry) error) };

    /// Puts bytes under a key, as they are. A store that is only read doesn't have this call.
    fn put_raw(
        &mut self,
        alloc: Global,
        key: &Text,
        bytes: ByteText,
        now: u64,
    ) -> Result<(), StorageError>
        ensures keeps { KeepsStore (state self.old) (state self.new) }
        ensures wrote { IfOk result (λ _. PutsIn (state self.old) (state self.new) key.now bytes) }
        ensures refused { IfErr result (λ error. RefusesPut Unsupported (state self.old) (state self.new) key.now bytes error) };

    /// Looks an entry of the preprocessor up, at this moment. What a disk store doesn't read it doesn't have; that it can't be
    /// opened is told.
    fn get_preprocessor_cache_entry(
        &mut self,
        alloc: Global,
        key: &Text,
        now: u64,
    ) -> Result<Option<ByteText>, StorageError>
        ensures keeps { KeepsStore (state self.old) (state self.new) }
        ensures found { IfOk result (λ bytes. GetsPre (state self.old) (state self.new) key.now bytes) }
        ensures refused { IfErr result (λ error. RefusesPre (state self.old) (state self.new) key.now error) };

    /// Puts an entry of the preprocessor under a key. A disk store tells a refusal, a remote store keeps none of them. Over
    /// levels it is put, in their order, at each that may be written and takes writes, whatever comes of that.
    fn put_preprocessor_cache_entry(
        &mut self,
        alloc: Global,
        key: &Text,
        bytes: &[u8],
        now: u64,
    ) -> Result<(), StorageError>
        ensures keeps { KeepsStore (state self.old) (state self.new) }
        ensures wrote { IfOk result (λ _. PutsPreIn (state self.old) (state self.new) key.now bytes.now) }
        ensures refused { IfErr result (λ error. RefusesPrePut (state self.old) (state self.new) key.now bytes.now error) };

    /// Where the file of a key stands: a disk store tells that, and a bad key, an absent one and a refusal have none. No other
    /// store keeps files.
    fn get_path(&mut self, alloc: Global, key: &Text, now: u64) -> Result<GetPathResult, NoMemory>
        ensures keeps { KeepsStore (state self.old) (state self.new) }
        ensures found { IfOk result (λ found. GetsPath (state self.old) (state self.new) key.now found) };

    /// Finds out whether it can be read and written.
    fn check(&mut self, alloc: Global) -> Result<CacheMode, StorageError>
        ensures stays { StaysStore (state self.old) (state self.new) }
        ensures found { IfOk result (λ mode. ChecksIn (state self.old) (state self.new) mode) }
        ensures refused { IfErr result (λ error. RefusesCheck (state self.old) (state self.new) error) };

    /// Where it is, in words.
    fn location(&self, alloc: Global) -> Result<Text, NoMemory>
        ensures { IfOk result (λ text. text ≡ storages.location_of (state self.now)) };

    /// What type it has, in a word.
    fn cache_type_name(&self) -> &str
        ensures { result.now ≡ storages.type_of (state self.now) };

    /// The bytes that it takes, where they are known.
    fn current_size(&self) -> Option<u64>
        ensures { storages.tells (state self.now) ≡ true → result ≡ storages.size_of (state self.now) };

    /// The most bytes that it may take, where that is known.
    fn max_size(&self) -> Option<u64>
        ensures { result ≡ storages.max_of (state self.now) };

    /// What its levels count, where it has levels and doesn't hide them.
    fn multilevel_stats(&self, alloc: Global) -> Result<Option<Items<LevelStats>>, NoMemory>
        ensures { IfOk result (λ levels. levels ≡ storages.levels_of (state self.now)) };

    /// Whether it is to keep entries of the preprocessor.
    fn preprocessor_cache_mode_config(&self) -> bool
        ensures { result ≡ storages.flag_of (state self.now) };

    /// The base directories that it was given, in order, each once.
    fn basedirs(&self) -> &[ByteText]
        ensures { result.now ≡ storages.basedirs_in (state self.now) };
}
