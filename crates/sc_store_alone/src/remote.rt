//! A remote store, asked as any store.
ghost use Rattle.std.specs.Prelude.{IfOk};
ghost use Rattle.sc_store_alone.specs.Storages.{KeepsAlone, LooksAlone, PutsAlone, State};

use crate::alone::{both_in, bytes_in, cache_in, ended};
use crate::storage::Storage;
use crate::storage_error::StorageError;
use sc_entry::{ByteText, Cache, CacheMode, CacheWrite, GetPathResult, Items, NoMemory, Text};
use sc_model::{Answer, Mode, Policy, Written};
use sc_stats::LevelStats;
use sc_store::{Checked, Remote, RemoteStorage, Vouch};
use std::alloc::Global;

/// Looks a key up at a remote store.
fn look_remote<R: Remote, V: Vouch>(
    alloc: Global,
    store: &mut RemoteStorage<R, V>,
    key: &Text,
    mode: Mode,
) -> Result<Answer, NoMemory>
    ensures keeps { KeepsAlone store.old store.new }
    ensures looked { IfOk result (λ answer. LooksAlone key.now mode answer store.old store.new) }
{
    let _remote = store.kind();
    store.ask(alloc, key, mode)
}

/// Puts bytes at a remote store.
fn put_remote<R: Remote, V: Vouch>(
    alloc: Global,
    store: &mut RemoteStorage<R, V>,
    key: &Text,
    bytes: &ByteText,
) -> Result<Written, NoMemory>
    ensures keeps { KeepsAlone store.old store.new }
    ensures wrote { IfOk result (λ how. PutsAlone store.old.facts.kind key.now bytes.now how store.old store.new) }
{
    let _remote = store.kind();
    store.put_step(alloc, &Policy::Single, key, bytes, false)
}

impl<R: Remote, V: Vouch> Storage for RemoteStorage<R, V> {
    ghost state = { λ s. State.Alone s };

    fn get(&mut self, alloc: Global, key: &Text, _now: u64) -> Result<Cache, StorageError> {
        let answer = look_remote(alloc, self, key, Mode::Whole)?;
        cache_in(alloc, answer)
    }

    fn get_with_raw(
        &mut self,
        alloc: Global,
        key: &Text,
        _now: u64,
    ) -> Result<(Cache, Option<ByteText>), StorageError> {
        let answer = look_remote(alloc, self, key, Mode::Whole)?;
        both_in(alloc, answer)
    }

    fn get_raw(
        &mut self,
        alloc: Global,
        key: &Text,
        _now: u64,
    ) -> Result<Option<ByteText>, StorageError> {
        let answer = look_remote(alloc, self, key, Mode::Raw)?;
        bytes_in(answer)
    }

    fn get_preprocessor_cache_entry(
        &mut self,
        alloc: Global,
        key: &Text,
        _now: u64,
    ) -> Result<Option<ByteText>, StorageError> {
        let answer = look_remote(alloc, self, key, Mode::Pre)?;
        bytes_in(answer)
    }

    fn put(
        &mut self,
        alloc: Global,
        key: &Text,
        entry: CacheWrite,
        now: u64,
    ) -> Result<(), StorageError> {
        let bytes = ByteText::from_vec(entry.finish());
        Storage::put_raw(self, alloc, key, bytes, now)
    }

    fn put_raw(
        &mut self,
        alloc: Global,
        key: &Text,
        bytes: ByteText,
        _now: u64,
    ) -> Result<(), StorageError> {
        let how = put_remote(alloc, self, key, &bytes)?;
        ended(how)
    }

    fn put_preprocessor_cache_entry(
        &mut self,
        _alloc: Global,
        _key: &Text,
        _bytes: &[u8],
        _now: u64,
    ) -> Result<(), StorageError> {
        let _remote = self.kind();
        Ok(())
    }

    fn get_path(
        &mut self,
        _alloc: Global,
        _key: &Text,
        _now: u64,
    ) -> Result<GetPathResult, NoMemory> {
        let _remote = self.kind();
        Ok(GetPathResult::Unsupported)
    }

    fn check(&mut self, alloc: Global) -> Result<CacheMode, StorageError> {
        match RemoteStorage::check(self, alloc)? {
            Checked::Mode(mode) => Ok(mode),
            Checked::Refused(cause) => Err(StorageError::Refused(cause)),
        }
    }

    fn location(&self, alloc: Global) -> Result<Text, NoMemory> {
        let text = RemoteStorage::location(self, alloc)?;
        Ok(text)
    }

    fn cache_type_name(&self) -> &str {
        RemoteStorage::cache_type_name(self)
    }

    fn current_size(&self) -> Option<u64> {
        let _remote = self.kind();
        None
    }

    fn max_size(&self) -> Option<u64> {
        RemoteStorage::max_size(self)
    }

    fn multilevel_stats(&self, _alloc: Global) -> Result<Option<Items<LevelStats>>, NoMemory> {
        Ok(None)
    }

    fn preprocessor_cache_mode_config(&self) -> bool {
        RemoteStorage::use_preprocessor_cache_mode(self)
    }

    fn basedirs(&self) -> &[ByteText] {
        RemoteStorage::basedirs(self)
    }
}
