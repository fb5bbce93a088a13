//! A store of any kind that stands alone, asked as any store.
ghost use Rattle.sc_store_alone.specs.Storages.{level_state};

use crate::storage::Storage;
use crate::storage_error::StorageError;
use sc_disk::Disk;
use sc_entry::{ByteText, Cache, CacheMode, CacheWrite, GetPathResult, Items, NoMemory, Text};
use sc_stats::LevelStats;
use sc_store::{Level, ReadOnlyLevel, Remote, Vouch};
use std::alloc::Global;

impl<R: Remote + Drop, D: Disk + Drop, V: Vouch> Storage for Level<R, D, V> {
    ghost state = { λ l. level_state l };

    fn get(&mut self, alloc: Global, key: &Text, now: u64) -> Result<Cache, StorageError> {
        match self {
            Level::Remote(store) => store.get(alloc, key, now),
            Level::Disk(store) => store.get(alloc, key, now),
            Level::ReadOnly(ReadOnlyLevel::Remote(store)) => store.get(alloc, key, now),
            Level::ReadOnly(ReadOnlyLevel::Disk(store)) => store.get(alloc, key, now),
        }
    }

    fn get_with_raw(
        &mut self,
        alloc: Global,
        key: &Text,
        now: u64,
    ) -> Result<(Cache, Option<ByteText>), StorageError> {
        match self {
            Level::Remote(store) => store.get_with_raw(alloc, key, now),
            Level::Disk(store) => store.get_with_raw(alloc, key, now),
            Level::ReadOnly(ReadOnlyLevel::Remote(store)) => store.get_with_raw(alloc, key, now),
            Level::ReadOnly(ReadOnlyLevel::Disk(store)) => store.get_with_raw(alloc, key, now),
        }
    }

    fn get_raw(
        &mut self,
        alloc: Global,
        key: &Text,
        now: u64,
    ) -> Result<Option<ByteText>, StorageError> {
        match self {
            Level::Remote(store) => store.get_raw(alloc, key, now),
            Level::Disk(store) => store.get_raw(alloc, key, now),
            Level::ReadOnly(ReadOnlyLevel::Remote(store)) => store.get_raw(alloc, key, now),
            Level::ReadOnly(ReadOnlyLevel::Disk(store)) => store.get_raw(alloc, key, now),
        }
    }

    fn get_preprocessor_cache_entry(
        &mut self,
        alloc: Global,
        key: &Text,
        now: u64,
    ) -> Result<Option<ByteText>, StorageError> {
        match self {
            Level::Remote(store) => store.get_preprocessor_cache_entry(alloc, key, now),
            Level::Disk(store) => store.get_preprocessor_cache_entry(alloc, key, now),
            Level::ReadOnly(ReadOnlyLevel::Remote(store)) => store.get_preprocessor_cache_entry(
                alloc, key, now,
            ),
            Level::ReadOnly(ReadOnlyLevel::Disk(store)) => store.get_preprocessor_cache_entry(
                alloc, key, now,
            ),
        }
    }

    fn put(
        &mut self,
        alloc: Global,
        key: &Text,
        entry: CacheWrite,
        now: u64,
    ) -> Result<(), StorageError> {
        match self {
            Level::Remote(store) => store.put(alloc, key, entry, now),
            Level::Disk(store) => store.put(alloc, key, entry, now),
            Level::ReadOnly(ReadOnlyLevel::Remote(store)) => store.put(alloc, key, entry, now),
            Level::ReadOnly(ReadOnlyLevel::Disk(store)) => store.put(alloc, key, entry, now),
        }
    }

    fn put_raw(
        &mut self,
        alloc: Global,
        key: &Text,
        bytes: ByteText,
        now: u64,
    ) -> Result<(), StorageError> {
        match self {
            Level::Remote(store) => store.put_raw(alloc, key, bytes, now),
            Level::Disk(store) => store.put_raw(alloc, key, bytes, now),
            Level::ReadOnly(ReadOnlyLevel::Remote(store)) => store.put_raw(alloc, key, bytes, now),
            Level::ReadOnly(ReadOnlyLevel::Disk(store)) => store.put_raw(alloc, key, bytes, now),
        }
    }

    fn put_preprocessor_cache_entry(
        &mut self,
        alloc: Global,
        key: &Text,
        bytes: &[u8],
        now: u64,
    ) -> Result<(), StorageError> {
        match self {
            Level::Remote(store) => store.put_preprocessor_cache_entry(alloc, key, bytes, now),
            Level::Disk(store) => store.put_preprocessor_cache_entry(alloc, key, bytes, now),
            Level::ReadOnly(ReadOnlyLevel::Remote(store)) => store.put_preprocessor_cache_entry(
                alloc, key, bytes, now,
            ),
            Level::ReadOnly(ReadOnlyLevel::Disk(store)) => store.put_preprocessor_cache_entry(
                alloc, key, bytes, now,
            ),
        }
    }

    fn get_path(&mut self, alloc: Global, key: &Text, now: u64) -> Result<GetPathResult, NoMemory> {
        match self {
            Level::Remote(store) => store.get_path(alloc, key, now),
            Level::Disk(store) => store.get_path(alloc, key, now),
            Level::ReadOnly(ReadOnlyLevel::Remote(store)) => store.get_path(alloc, key, now),
            Level::ReadOnly(ReadOnlyLevel::Disk(store)) => store.get_path(alloc, key, now),
        }
    }

    fn check(&mut self, alloc: Global) -> Result<CacheMode, StorageError> {
        match self {
            Level::Remote(store) => Storage::check(store, alloc),
            Level::Disk(store) => Storage::check(store, alloc),
            Level::ReadOnly(ReadOnlyLevel::Remote(store)) => Storage::check(store, alloc),
            Level::ReadOnly(ReadOnlyLevel::Disk(store)) => Storage::check(store, alloc),
        }
    }

    fn location(&self, alloc: Global) -> Result<Text, NoMemory> {
        let text = Level::location(self, alloc)?;
        Ok(text)
    }

    fn cache_type_name(&self) -> &str {
        Level::cache_type_name(self)
    }

    fn current_size(&self) -> Option<u64> {
        match self {
            Level::Remote(store) => store.current_size(),
            Level::Disk(store) => store.current_size(),
            Level::ReadOnly(ReadOnlyLevel::Remote(store)) => store.current_size(),
            Level::ReadOnly(ReadOnlyLevel::Disk(store)) => store.current_size(),
        }
    }

    fn max_size(&self) -> Option<u64> {
        Level::max_size(self)
    }

    fn multilevel_stats(&self, _alloc: Global) -> Result<Option<Items<LevelStats>>, NoMemory> {
        Ok(None)
    }

    fn preprocessor_cache_mode_config(&self) -> bool {
        Level::use_preprocessor_cache_mode(self)
    }

    fn basedirs(&self) -> &[ByteText] {
        Level::basedirs(self)
    }
}
