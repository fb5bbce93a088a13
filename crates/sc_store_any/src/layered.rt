//! Levels as one store, asked as any store.
ghost use Rattle.sc_store_alone.specs.Storages.{State};

use crate::multilevel::MultiLevelStorage;
use sc_disk::Disk;
use sc_entry::{ByteText, Cache, CacheMode, CacheWrite, GetPathResult, Items, NoMemory, Text};
use sc_model::{Answer, Put};
use sc_stats::LevelStats;
use sc_store::{Checked, Remote, Vouch};
use sc_store_alone::{Storage, StorageError};
use std::alloc::Global;

impl<R: Remote + Drop, D: Disk + Drop, V: Vouch> Storage for MultiLevelStorage<R, D, V> {
    ghost state = { λ m. State.Layered m };

    fn get(&mut self, alloc: Global, key: &Text, now: u64) -> Result<Cache, StorageError> {
        let cache = MultiLevelStorage::get(self, alloc, key, now)?;
        Ok(cache)
    }

    fn get_with_raw(
        &mut self,
        alloc: Global,
        key: &Text,
        now: u64,
    ) -> Result<(Cache, Option<ByteText>), StorageError> {
        match MultiLevelStorage::get(self, alloc, key, now)? {
            Cache::Hit(entry) => {
                let bytes = MultiLevelStorage::get_raw(self, alloc, key, now)?;
                Ok((Cache::Hit(entry), bytes))
            }
            cache => Ok((cache, None)),
        }
    }

    fn get_raw(
        &mut self,
        alloc: Global,
        key: &Text,
        now: u64,
    ) -> Result<Option<ByteText>, StorageError> {
        let bytes = MultiLevelStorage::get_raw(self, alloc, key, now)?;
        Ok(bytes)
    }

    fn get_preprocessor_cache_entry(
        &mut self,
        alloc: Global,
        key: &Text,
        now: u64,
    ) -> Result<Option<ByteText>, StorageError> {
        match self.ask_preprocessor(alloc, key, now)? {
            Answer::Hit(bytes, _) => Ok(Some(bytes)),
            Answer::Refused(cause) => Err(StorageError::Refused(cause)),
            Answer::Miss => Ok(None),
            Answer::Found(_) => Ok(None),
            Answer::Size(_, _) => Ok(None),
        }
    }

    fn put(
        &mut self,
        alloc: Global,
        key: &Text,
        entry: CacheWrite,
        now: u64,
    ) -> Result<(), StorageError> {
        let bytes = ByteText::from_vec(entry.finish());
        Storage::put_raw(self, alloc, key, bytes, now)
    }

    fn put_raw(
        &mut self,
        alloc: Global,
        key: &Text,
        bytes: ByteText,
        now: u64,
    ) -> Result<(), StorageError> {
        match MultiLevelStorage::put_raw(self, alloc, key, bytes, now)? {
            Put::Done => Ok(()),
            Put::Refused(cause) => Err(StorageError::Refused(cause)),
            Put::Level(level, cause) => Err(StorageError::Level(level, cause)),
            Put::NoLevels => Err(StorageError::NoLevels),
        }
    }

    fn put_preprocessor_cache_entry(
        &mut self,
        alloc: Global,
        key: &Text,
        bytes: &[u8],
        now: u64,
    ) -> Result<(), StorageError> {
        self.put_preprocessor(alloc, key, bytes, now)?;
        Ok(())
    }

    fn get_path(
        &mut self,
        _alloc: Global,
        _key: &Text,
        _now: u64,
    ) -> Result<GetPathResult, NoMemory> {
        let _levels = self.levels().len();
        Ok(GetPathResult::Unsupported)
    }

    fn check(&mut self, alloc: Global) -> Result<CacheMode, StorageError> {
        match MultiLevelStorage::check(self, alloc)? {
            Checked::Mode(mode) => Ok(mode),
            Checked::Refused(cause) => Err(StorageError::Refused(cause)),
        }
    }

    fn location(&self, alloc: Global) -> Result<Text, NoMemory> {
        let text = MultiLevelStorage::location(self, alloc)?;
        Ok(text)
    }

    fn cache_type_name(&self) -> &str {
        MultiLevelStorage::cache_type_name(self)
    }

    fn current_size(&self) -> Option<u64> {
        MultiLevelStorage::current_size(self)
    }

    fn max_size(&self) -> Option<u64> {
        MultiLevelStorage::max_size(self)
    }

    fn multilevel_stats(&self, alloc: Global) -> Result<Option<Items<LevelStats>>, NoMemory> {
        let counters = self.stats().to_vec(alloc)?;
        Ok(Some(Items::from_vec(counters)))
    }

    fn preprocessor_cache_mode_config(&self) -> bool {
        MultiLevelStorage::use_preprocessor_cache_mode(self)
    }

    fn basedirs(&self) -> &[ByteText] {
        MultiLevelStorage::basedirs(self)
    }
}
