//! A disk store, asked as any store.
ghost use Rattle.std.specs.Prelude.{◌≡◌, false, IfOk, OnErr};
ghost use Rattle.sc_store_disk.specs.Entries.{ClosesEntry, CommitCause, CommitsEntry, FillsBy, IsOpenAt};
ghost use Rattle.sc_store_disk.specs.Marked.{MarksCommitted, MarksFilled};
ghost use Rattle.sc_store_disk.specs.Marks.{filled_by};
ghost use Rattle.sc_store_disk.specs.Moving.{Stays};
ghost use Rattle.sc_model.specs.declared.level.LevelKind.TheVariants.{Disk as IsDisk};
ghost use Rattle.sc_store_alone.specs.Storages.{KeepsAlone, LooksAlone, PutsFile, PutsPreDisk, State};
ghost use Rattle.sc_store.specs.Held.{disk_of};

use crate::alone::{both_in, bytes_in, cache_in, ended, path_in};
use crate::storage::Storage;
use crate::storage_error::StorageError;
use sc_disk::{Disk, LruDiskCacheAddEntry};
use sc_entry::{ByteText, Cache, CacheMode, CacheWrite, GetPathResult, Items, NoMemory, Text};
use sc_model::{Answer, Mode, Policy, Written};
use sc_stats::LevelStats;
use sc_store::{DiskCache, EntryError, Filling, Reservation, Vouch};
use std::alloc::Global;

/// Looks a key up at a disk store.
fn look_disk<D: Disk + Drop, V: Vouch>(
    store: &mut DiskCache<D, V>,
    key: &Text,
    mode: Mode,
    now: u64,
) -> Result<Answer, NoMemory>
    ensures keeps { KeepsAlone store.old store.new }
    ensures looked { IfOk result (λ answer. LooksAlone key.now mode answer store.old store.new) }
    ensures kind { store.old.facts.kind ≡ IsDisk }
{
    store.keeps();
    store.ask(key, mode, now)
}

/// Fills an entry that is open.
fn fill<D: Disk + Drop, V: Vouch>(
    store: &mut DiskCache<D, V>,
    entry: LruDiskCacheAddEntry,
    bytes: &ByteText,
) -> Result<Filling, NoMemory>
    requires { IsOpenAt entry (disk_of store.old) }
    ensures title { store.new.title ≡ store.old.title }
    ensures stays { Stays (disk_of store.old) (disk_of store.new) }
    ensures filled { IfOk result (λ how. FillsBy entry bytes.now (filled_by false) how (disk_of store.old) (disk_of store.new)) }
    ensures marks { IfOk result (λ how. MarksFilled entry.number false how store.old.marks store.new.marks) }
    ensures closed { OnErr result (ClosesEntry entry.number (disk_of store.old) (disk_of store.new)) }
{
    match store.fill(entry, bytes.as_slice(), false) {
        Ok(how) => Ok(how),
        Err(EntryError::NoMemory) => Err(NoMemory),
        Err(EntryError::NotOpen) => unreachable!(),
    }
}

/// Commits an entry that is open.
fn commit<D: Disk + Drop, V: Vouch>(
    store: &mut DiskCache<D, V>,
    entry: LruDiskCacheAddEntry,
    now: u64,
) -> Result<Written, NoMemory>
    requires { IsOpenAt entry (disk_of store.old) }
    ensures title { store.new.title ≡ store.old.title }
    ensures stays { Stays (disk_of store.old) (disk_of store.new) }
    ensures closed { ClosesEntry entry.number (disk_of store.old) (disk_of store.new) }
    ensures committed { IfOk result (λ how. CommitsEntry entry.number how (disk_of store.old) (disk_of store.new)) }
    ensures cause { IfOk result (λ how. CommitCause entry.number how (disk_of store.old) (disk_of store.new)) }
    ensures marks { IfOk result (λ how. MarksCommitted entry.number entry.key how store.old.marks store.new.marks (disk_of store.new)) }
{
    match store.commit(entry, now) {
        Ok(how) => Ok(how),
        Err(EntryError::NoMemory) => Err(NoMemory),
        Err(EntryError::NotOpen) => unreachable!(),
    }
}

/// Puts bytes under a key. What it opens it closes, whatever it comes to.
fn put_disk<D: Disk + Drop, V: Vouch>(
    store: &mut DiskCache<D, V>,
    key: &Text,
    bytes: &ByteText,
    now: u64,
) -> Result<Written, NoMemory>
    ensures keeps { KeepsAlone store.old store.new }
    ensures wrote { IfOk result (λ how. PutsFile key.now bytes.now how store.old store.new) }
    ensures kind { store.old.facts.kind ≡ IsDisk }
{
    store.keeps();
    let entry = match store.reserve(&Policy::Single, key, bytes.len() as u64, now)? {
        Reservation::Open(entry) => entry,
        Reservation::Refused(cause) => {
            store.keeps();
            return Ok(Written::Refused(cause));
        }
    };
    let filled = match fill(store, entry, bytes)? {
        Filling::Filled(entry) => entry,
        Filling::Refused(cause) => {
            store.keeps();
            return Ok(Written::Refused(cause));
        }
    };
    let how = commit(store, filled, now);
    store.keeps();
    how
}

/// Puts an entry of the preprocessor under a key.
fn put_pre_disk<D: Disk + Drop, V: Vouch>(
    store: &mut DiskCache<D, V>,
    key: &Text,
    bytes: &[u8],
    now: u64,
) -> Result<Written, NoMemory>
    ensures keeps { KeepsAlone store.old store.new }
    ensures wrote { IfOk result (λ how. PutsPreDisk key.now bytes.now how store.old store.new) }
    ensures kind { store.old.facts.kind ≡ IsDisk }
{
    store.keeps();
    store.put_pre(&Policy::Single, key, bytes, now)
}

impl<D: Disk + Drop, V: Vouch> Storage for DiskCache<D, V> {
    ghost state = { λ s. State.Alone s };

    fn get(&mut self, alloc: Global, key: &Text, now: u64) -> Result<Cache, StorageError> {
        let answer = look_disk(self, key, Mode::Whole, now)?;
        cache_in(alloc, answer)
    }

    fn get_with_raw(
        &mut self,
        alloc: Global,
        key: &Text,
        now: u64,
    ) -> Result<(Cache, Option<ByteText>), StorageError> {
        let answer = look_disk(self, key, Mode::Whole, now)?;
        both_in(alloc, answer)
    }

    fn get_raw(
        &mut self,
        _alloc: Global,
        key: &Text,
        now: u64,
    ) -> Result<Option<ByteText>, StorageError> {
        let answer = look_disk(self, key, Mode::Raw, now)?;
        bytes_in(answer)
    }

    fn get_preprocessor_cache_entry(
        &mut self,
        _alloc: Global,
        key: &Text,
        now: u64,
    ) -> Result<Option<ByteText>, StorageError> {
        let answer = look_disk(self, key, Mode::Pre, now)?;
        bytes_in(answer)
    }

    fn put(
        &mut self,
        alloc: Global,
        key: &Text,
        entry: CacheWrite,
        now: u64,
    ) -> Result<(), StorageError> {
        let bytes = ByteText::from_vec(entry.finish());
        Storage::put_raw(self, alloc, key, bytes, now)
    }

    fn put_raw(
        &mut self,
        _alloc: Global,
        key: &Text,
        bytes: ByteText,
        now: u64,
    ) -> Result<(), StorageError> {
        let how = put_disk(self, key, &bytes, now)?;
        ended(how)
    }

    fn put_preprocessor_cache_entry(
        &mut self,
        _alloc: Global,
        key: &Text,
        bytes: &[u8],
        now: u64,
    ) -> Result<(), StorageError> {
        let how = put_pre_disk(self, key, bytes, now)?;
        ended(how)
    }

    fn get_path(
        &mut self,
        _alloc: Global,
        key: &Text,
        now: u64,
    ) -> Result<GetPathResult, NoMemory> {
        let answer = look_disk(self, key, Mode::Path, now)?;
        Ok(path_in(answer))
    }

    fn check(&mut self, _alloc: Global) -> Result<CacheMode, StorageError> {
        self.keeps();
        Ok(self.mode())
    }

    fn location(&self, alloc: Global) -> Result<Text, NoMemory> {
        let text = DiskCache::location(self, alloc)?;
        Ok(text)
    }

    fn cache_type_name(&self) -> &str {
        DiskCache::cache_type_name(self)
    }

    fn current_size(&self) -> Option<u64> {
        self.keeps();
        self.cache().current_size()
    }

    fn max_size(&self) -> Option<u64> {
        self.keeps();
        Some(DiskCache::max_size(self))
    }

    fn multilevel_stats(&self, _alloc: Global) -> Result<Option<Items<LevelStats>>, NoMemory> {
        Ok(None)
    }

    fn preprocessor_cache_mode_config(&self) -> bool {
        DiskCache::use_preprocessor_cache_mode(self)
    }

    fn basedirs(&self) -> &[ByteText] {
        DiskCache::basedirs(self)
    }
}
