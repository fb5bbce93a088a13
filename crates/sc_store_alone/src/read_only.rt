//! A store that is only read.
ghost use Rattle.sc_store_alone.specs.Storages.{State};

use crate::storage::Storage;
use crate::storage_error::StorageError;
use sc_entry::{ByteText, Cache, CacheMode, CacheWrite, GetPathResult, Items, NoMemory, Text};
use sc_model::{Cause, Store};
use sc_stats::LevelStats;
use sc_store::ReadOnlyStorage;
use std::alloc::Global;

/// It hides what the levels of its store count. Over levels a lookup may still put a hit's bytes at the levels before it.
impl<S: Storage + Drop> Storage for ReadOnlyStorage<S> {
    ghost state = { λ s. State.Wrapped (S.state s.store) };

    fn get(&mut self, alloc: Global, key: &Text, now: u64) -> Result<Cache, StorageError> {
        self.store.get(alloc, key, now)
    }

    fn get_with_raw(
        &mut self,
        alloc: Global,
        key: &Text,
        now: u64,
    ) -> Result<(Cache, Option<ByteText>), StorageError> {
        self.store.get_with_raw(alloc, key, now)
    }

    fn get_raw(
        &mut self,
        alloc: Global,
        key: &Text,
        now: u64,
    ) -> Result<Option<ByteText>, StorageError> {
        self.store.get_raw(alloc, key, now)
    }

    fn get_preprocessor_cache_entry(
        &mut self,
        alloc: Global,
        key: &Text,
        now: u64,
    ) -> Result<Option<ByteText>, StorageError> {
        self.store.get_preprocessor_cache_entry(alloc, key, now)
    }

    fn put(
        &mut self,
        _alloc: Global,
        _key: &Text,
        _entry: CacheWrite,
        _now: u64,
    ) -> Result<(), StorageError> {
        Err(StorageError::Refused(Cause::ReadOnly(Store::Wrapper)))
    }

    fn put_raw(
        &mut self,
        _alloc: Global,
        _key: &Text,
        _bytes: ByteText,
        _now: u64,
    ) -> Result<(), StorageError> {
        Err(StorageError::Unsupported)
    }

    fn put_preprocessor_cache_entry(
        &mut self,
        _alloc: Global,
        _key: &Text,
        _bytes: &[u8],
        _now: u64,
    ) -> Result<(), StorageError> {
        let cause = Cause::ReadOnly(Store::Wrapper);
        Err(StorageError::Refused(cause))
    }

    fn get_path(
        &mut self,
        _alloc: Global,
        _key: &Text,
        _now: u64,
    ) -> Result<GetPathResult, NoMemory> {
        Ok(GetPathResult::Unsupported)
    }

    fn check(&mut self, _alloc: Global) -> Result<CacheMode, StorageError> {
        Ok(CacheMode::ReadOnly)
    }

    fn location(&self, alloc: Global) -> Result<Text, NoMemory> {
        self.store.location(alloc)
    }

    fn cache_type_name(&self) -> &str {
        self.store.cache_type_name()
    }

    fn current_size(&self) -> Option<u64> {
        self.store.current_size()
    }

    fn max_size(&self) -> Option<u64> {
        self.store.max_size()
    }

    fn multilevel_stats(&self, _alloc: Global) -> Result<Option<Items<LevelStats>>, NoMemory> {
        Ok(None)
    }

    fn preprocessor_cache_mode_config(&self) -> bool {
        self.store.preprocessor_cache_mode_config()
    }

    fn basedirs(&self) -> &[ByteText] {
        self.store.basedirs()
    }
}
