//! A store of files in the order of their use.
ghost use Rattle.std.specs.Prelude.{◌≡◌, ◌⊎◌, Bool, false, true, ℕ, ◌+◌, ◌-◌, ◌<◌, ◌≤◌, ◌&&◌, ◌↔◌, ◌∷◌, ◌++◌, [], Some, None, IfOk, OnOk, OnErr, IfErr, IsTrue, length, drop, is_some, bytes_eq};
ghost use Rattle.std.specs.Map.{lookup};
ghost use Rattle.sc_lru.specs.LruCache.{suffix_within, total};
ghost use Rattle.sc_entry.specs.Keys.{is_file_key as is_file_key_spec};
ghost use Rattle.sc_disk.specs.Disks.{DiskCause, Does, DoesPart, IsHeld, IsSize, has_place};
ghost use Rattle.sc_disk.specs.Calls.{Prepares, RefusesAdd, CommitCause, Commits, Places, RefusesCommit, RefusesPlace, Settles, Undoes, touched_by};
ghost use Rattle.sc_lru.specs.Order.{touched};
ghost use Rattle.sc_disk.specs.Store.{Store, Evicts, Needed, Fits, Alters, Opens, Closes, Closed, IsOpen, IsTidy, indexed, reserved, size_of, is_open, temporary_of};
ghost use Rattle.sc_disk.specs.Names.{is_temporary_path};
ghost use Rattle.sc_disk.specs.Refusals.{DiskRefusal};
ghost use Rattle.sc_disk.specs.declared.change.Change.TheVariants.{Made, Added, Touched, Moved, Gone};
ghost use Rattle.slab.specs.Slab.{HasRoomFor, get};

use crate::add_entry::LruDiskCacheAddEntry;
use crate::disk::{Disk, DiskError};
use crate::error::Error;
use crate::file_key::FileKey;
use crate::file_name::{is_file_key, temporary_path};
use crate::file_size::FileSize;
use crate::pending::Pending;
use sc_entry::{ByteText, NoMemory};
use sc_lru::{DefaultHasher, LruCache};
use slab::Slab;
use std::alloc::Global;
use std::marker::Model;

/// A store of files on a disk, in the order of their use. The indexed files and the sizes that open entries have declared
/// take at most its capacity together.
///
/// A clause sees it as its `index` (each key with its file's size, the least recently used first), its open entries by
/// number (`pending`), its `capacity` and the state of its `disk`.
#[derive(Drop)]
pub struct LruDiskCache<D: Disk> {
    pub(crate) alloc: Global,
    pub(crate) index: LruCache<FileKey, u64, DefaultHasher, FileSize>,
    pub(crate) pending: Slab<Pending>,
    pub(crate) held: u64,
    pub(crate) capacity: u64,
    pub(crate) disk: D,
}

impl<D: Disk> Model for LruDiskCache<D> {
    ghost use Rattle.sc_disk.specs.Codes.{store_code};
    ghost use Rattle.sc_disk.specs.Store.{Store, store, Keeps};

    ghost Value = { Store };

    ghost coded = { store_code };

    ghost view = { λ c. store c.index.entries c.index.spare c.pending c.capacity (D.state c.disk) };

    ghost invariant = { λ c. Keeps c.index.entries c.index.capacity c.pending.slots c.held c.capacity (D.state c.disk) };
}

impl<D: Disk> LruDiskCache<D> {
    /// The bytes of all indexed files.
    fn indexed(&self) -> u64
        ensures size { result ≡ indexed self.now }
        ensures within { indexed self.now + reserved self.now ≤ self.now.capacity }
    {
        self.index.size()
    }

    /// The bytes of all indexed files, and those that open entries have declared.
    pub fn size(&self) -> u64
        ensures size { result ≡ indexed self.now + reserved self.now }
        ensures within { result ≤ self.now.capacity }
    {
        let _bound = self.capacity;
        self.index.size() + self.held
    }

    /// The bytes that open entries have declared.
    pub fn reserved(&self) -> u64
        ensures { result ≡ reserved self.now }
    {
        let _bound = self.capacity;
        self.held
    }

    /// How many files are indexed.
    pub fn len(&self) -> usize
        ensures { result ≡ length self.now.index }
    {
        self.index.len()
    }

    pub fn is_empty(&self) -> bool
        ensures { IsTrue result ↔ (self.now.index ≡ []) }
    {
        self.index.is_empty()
    }

    /// The most bytes that the files may take.
    pub fn capacity(&self) -> u64
        ensures { result ≡ self.now.capacity }
    {
        self.capacity
    }

    /// Whether a file of this size may be stored at all.
    pub fn can_store(&self, size: u64) -> bool
        ensures { IsTrue result ↔ (size ≤ self.now.capacity) }
    {
        size <= self.capacity
    }

    /// Whether a key is indexed. One that is open alone isn't.
    pub fn contains_key(&self, key: &FileKey) -> bool
        ensures { result ≡ is_some (lookup (bytes_eq key.now) self.now.index) }
    {
        self.index.contains_key(key)
    }

    /// The path that the files stand under.
    pub fn path(&self) -> &ByteText
        ensures { result.now ≡ self.now.disk.root }
    {
        self.disk.root()
    }

    /// The disk of the files.
    pub fn disk(&self) -> &D
        ensures { D.state result.now ≡ self.now.disk }
    {
        &self.disk
    }

    /// Whether an entry is open in this store.
    pub fn is_open(&self, entry: &LruDiskCacheAddEntry) -> bool
        ensures { result ≡ is_open self.now entry.now }
    {
        match self.pending.get(entry.number) {
            Some(pending) => { pending.key == entry.key && entry.divided == self.disk.is_divided() }
            None => false,
        }
    }
}

impl<D: Disk> LruDiskCache<D> {
    // Removes the least recently used file, and then its pair. A refused removal leaves both.
    fn evict_one(&mut self) -> Result<(), DiskError>
        ensures ok { OnOk result (Evicts 1 self.old self.new) }
        ensures err { OnErr result (Evicts 0 self.old self.new) }
        ensures cause { DiskCause self.old.disk self.new.disk result }
    {
        let _distinct = self.index.len();
        let Some((key, _)) = self.index.peek_lru() else {
            return Ok(());
        };
        self.disk.remove(key.as_text())?;
        self.index.remove_lru();
        Ok(())
    }

    // Evicts until the indexed files take at most `limit`.
    fn evict_to(&mut self, limit: u64) -> Result<(), DiskError>
        ensures evicts { (n : ℕ) × Evicts n self.old self.new × Needed limit n self.old.index }
        ensures within { OnOk result (indexed self.new ≤ limit) }
        ensures cause { DiskCause self.old.disk self.new.disk result }
    {
        while self.indexed() > limit {
            self.evict_one()?;
        }
        Ok(())
    }

    // Makes a key the most recently used, if it is indexed.
    pub(crate) fn use_key(&mut self, key: &FileKey) -> bool
        ensures index { self.new.index ≡ touched (bytes_eq key.now) self.old.index }
        ensures found { result ≡ is_some (lookup (bytes_eq key.now) self.old.index) }
        ensures held { is_temporary_path key.now ≡ false → result ≡ true → IsHeld key.now self.new.disk }
        ensures pending { self.new.pending ≡ self.old.pending }
        ensures capacity { self.new.capacity ≡ self.old.capacity }
        ensures disk { self.new.disk ≡ self.old.disk }
    {
        let _distinct = self.index.len();
        self.index.get(key).is_some()
    }
}

impl<D: Disk> LruDiskCache<D> {
    /// The bytes of the capacity that no open entry has declared.
    fn unreserved(&self) -> u64
        ensures { result + reserved self.now ≡ self.now.capacity }
    {
        self.capacity - self.held
    }

    // Whether a text is a file key that the disk has a place for.
    fn is_key(&self, key: &FileKey) -> bool
        ensures both { result ≡ (is_file_key_spec key.now && has_place self.now.disk key.now) }
        ensures key { result ≡ true → is_file_key_spec key.now ≡ true }
        ensures placed { result ≡ true → has_place self.now.disk key.now ≡ true }
    {
        is_file_key(key.as_text()) && self.disk.has_place(key.as_text())
    }

    // Takes the memory of one more open entry.
    fn reserve_entry(&mut self) -> Result<(), NoMemory>
        ensures ok { OnOk result (HasRoomFor self.new.pending 1) }
        ensures index { self.new.index ≡ self.old.index }
        ensures slots { self.new.pending.slots ≡ self.old.pending.slots }
        ensures capacity { self.new.capacity ≡ self.old.capacity }
        ensures disk { self.new.disk ≡ self.old.disk }
    {
        self.pending.reserve(1)?;
        Ok(())
    }

    // Reserves room for an entry under the next number, and creates its temporary.
    fn open_entry(
        &mut self,
        key: &FileKey,
        size: u64,
        now: u64,
    ) -> Result<LruDiskCacheAddEntry, Error>
        requires key { is_temporary_path key.now ≡ false }
        requires placed { has_place self.old.disk key.now ≡ true }
        requires room { indexed self.old + (reserved self.old + size) ≤ self.old.capacity }
        requires slot { HasRoomFor self.old.pending 1 }
        ensures ok { IfOk result (λ e. Opens e key.now size now self.old self.new) }
        ensures err { OnErr result (Alters [] self.old self.new) }
        ensures cause { IfErr result (DiskRefusal self.old.disk.faults self.new.disk.faults) }
    {
        let _fits = self.capacity;
        let number = self.pending.vacant_key();
        let divided = self.disk.is_divided();
        let path = temporary_path(self.alloc, divided, key.as_text(), number)?;
        let reserved_key = key.clone()?;
        let key = key.clone()?;
        self.disk.create(&path, now)?;
        self.held += size;
        let number = self.pending.insert_reserved(Pending {
            key: reserved_key,
            size,
        });
        Ok(LruDiskCacheAddEntry {
            number,
            key,
            divided,
            path,
        })
    }

    // Takes an open entry out, and its reservation.
    pub(crate) fn close(&mut self, entry: &LruDiskCacheAddEntry) -> Pending
        requires { IsOpen self.old entry.now }
        ensures { Closes entry.now result self.old self.new }
    {
        let pending = self.pending.remove(entry.number);
        self.held -= pending.size;
        pending
    }

    // Removes the temporary of an entry that was closed.
    fn discard(&mut self, entry: &LruDiskCacheAddEntry) -> Result<(), DiskError>
        requires closed { get self.old.pending entry.now.number ≡ None }
        requires held { IsHeld (temporary_of entry.now) self.old.disk }
        ensures ok { OnOk result (Alters (Gone (temporary_of entry.now) ∷ []) self.old self.new) }
        ensures err { OnErr result (Alters [] self.old self.new) }
        ensures cause { DiskCause self.old.disk self.new.disk result }
    {
        let _numbers = self.pending.capacity();
        self.disk.remove(&entry.path)?;
        Ok(())
    }
}

impl<D: Disk> LruDiskCache<D> {
    /// Opens an entry for a key: evicts until its size fits beside what is indexed and reserved, creates its temporary, and
    /// reserves the size.
    ///
    /// A text that is no file key, or has no place on the disk, is refused first, then a size over the capacity, then one that
    /// doesn't fit beside the open reservations; these evict nothing. Where an eviction's removal fails, that file stays indexed.
    pub fn prepare_add(
        &mut self,
        key: &FileKey,
        size: u64,
        now: u64,
    ) -> Result<LruDiskCacheAddEntry, Error>
        ensures ok { IfOk result (λ e. (n : ℕ) × Prepares e key.now size now n self.old self.new) }
        ensures opened { IfOk result (λ e. IsOpen self.new e) }
        ensures err { IfErr result (λ refused. (n : ℕ) × RefusesAdd refused key.now size n self.old self.new) }
        ensures tidy { IsTidy self.old → IsTidy self.new }
    {
        if !self.is_key(key) {
            return Err(Error::BadKey);
        }
        if size > self.capacity {
            return Err(Error::FileTooLarge);
        }
        let unreserved = self.unreserved();
        if size > unreserved {
            return Err(Error::Reserved);
        }
        self.reserve_entry()?;
        self.evict_to(unreserved - size)?;
        let entry = self.open_entry(key, size, now)?;
        Ok(entry)
    }

    /// Adds bytes at the end of an open entry's temporary. A refused call may leave a front of them there.
    pub fn fill(&mut self, entry: &LruDiskCacheAddEntry, bytes: &[u8]) -> Result<(), Error>
        requires { IsOpen self.old entry.now }
        ensures opened { IsOpen self.new entry.now }
        ensures ok { OnOk result (Does (Added (temporary_of entry.now) bytes.now ∷ []) self.old.disk self.new.disk) }
        ensures err { OnErr result (DoesPart (temporary_of entry.now) bytes.now self.old.disk self.new.disk) }
        ensures cause { IfErr result (DiskRefusal self.old.disk.faults self.new.disk.faults) }
        ensures index { self.new.index ≡ self.old.index }
        ensures pending { self.new.pending ≡ self.old.pending }
        ensures capacity { self.new.capacity ≡ self.old.capacity }
        ensures tidy { IsTidy self.old → IsTidy self.new }
    {
        self.disk.append(&entry.path, bytes)?;
        Ok(())
    }

    /// Closes an entry, and removes its temporary. The entry is closed also by a refusal.
    pub fn abandon(&mut self, entry: LruDiskCacheAddEntry) -> Result<(), Error>
        requires { IsOpen self.old entry }
        ensures closed { Closed entry.number self.old self.new }
        ensures ok { OnOk result (Does (Gone (temporary_of entry) ∷ []) self.old.disk self.new.disk) }
        ensures err { OnErr result (Does [] self.old.disk self.new.disk) }
        ensures cause { IfErr result (DiskRefusal self.old.disk.faults self.new.disk.faults) }
        ensures index { self.new.index ≡ self.old.index }
        ensures capacity { self.new.capacity ≡ self.old.capacity }
        ensures tidy { OnOk result (IsTidy self.old → IsTidy self.new) }
    {
        let _pending = self.close(&entry);
        self.discard(&entry)?;
        Ok(())
    }
}

impl<D: Disk> LruDiskCache<D> {
    // The size of a temporary, where it fits beside what is reserved.
    fn measure(&mut self, entry: &LruDiskCacheAddEntry) -> Result<u64, Error>
        requires { IsHeld (temporary_of entry.now) self.old.disk }
        ensures size { IfOk result (λ r. IsSize (temporary_of entry.now) r self.old.disk) }
        ensures fits { IfOk result (λ r. r + reserved self.old ≤ self.old.capacity) }
        ensures cause { IfErr result (λ refused. CommitCause refused (temporary_of entry.now) (reserved self.old) self.old self.new.disk.faults) }
        ensures alters { Alters [] self.old self.new }
    {
        let capacity = self.capacity;
        let size = self.disk.len(&entry.path)?;
        if size > capacity {
            return Err(Error::FileTooLarge);
        }
        if size > capacity - self.held {
            return Err(Error::Reserved);
        }
        Ok(size)
    }

    // Takes the memory of one more pair.
    fn reserve_pair(&mut self) -> Result<(), NoMemory>
        ensures ok { OnOk result (0 < self.new.spare) }
        ensures alters { Alters [] self.old self.new }
    {
        self.index.reserve(1)?;
        Ok(())
    }

    // Gives a closed entry's temporary its moment and its key's path, and indexes it.
    fn settle(
        &mut self,
        entry: &LruDiskCacheAddEntry,
        key: FileKey,
        size: u64,
        now: u64,
    ) -> Result<(), Error>
        requires closed { get self.old.pending entry.now.number ≡ None }
        requires key { is_temporary_path key ≡ false }
        requires same_key { key ≡ entry.now.key }
        requires divided { entry.now.divided ≡ self.old.disk.divided }
        requires spare { 0 < self.old.spare }
        requires room { indexed self.old + (reserved self.old + size) ≤ self.old.capacity }
        requires size { IsSize (temporary_of entry.now) size self.old.disk }
        ensures ok { OnOk result (Settles entry.now key size now self.old self.new) }
        ensures err { OnErr result ((touches : Bool) × Alters (touched_by touches (temporary_of entry.now) now) self.old self.new) }
        ensures held { OnErr result (IsHeld (temporary_of entry.now) self.new.disk) }
        ensures cause { IfErr result (DiskRefusal self.old.disk.faults self.new.disk.faults) }
    {
        let _distinct = self.index.len();
        let _numbers = self.pending.capacity();
        self.disk.touch(&entry.path, now)?;
        self.disk.rename(&entry.path, key.as_text())?;
        let Ok(_) = self.index.insert(key, size) else {
            return Err(Error::NoMemory);
        };
        Ok(())
    }
}

impl<D: Disk> LruDiskCache<D> {
    // Evicts until a closed entry's temporary fits, and puts it in its key's place.
    fn place(
        &mut self,
        entry: &LruDiskCacheAddEntry,
        pending: Pending,
        now: u64,
    ) -> Result<(), Error>
        requires closed { get self.old.pending entry.now.number ≡ None }
        requires key { is_temporary_path pending.key ≡ false }
        requires same_key { pending.key ≡ entry.now.key }
        requires divided { entry.now.divided ≡ self.old.disk.divided }
        requires held { IsHeld (temporary_of entry.now) self.old.disk }
        requires room { indexed self.old + (reserved self.old + pending.size) ≤ self.old.capacity }
        ensures ok { OnOk result ((r : ℕ) × (n : ℕ) × Places entry.now pending r now n self.old self.new) }
        ensures err { IfErr result (λ refused. (n : ℕ) × (touches : Bool) × RefusesPlace refused entry.now pending now n touches self.old self.new) }
        ensures held { OnErr result (IsHeld (temporary_of entry.now) self.new.disk) }
    {
        let size = self.measure(entry)?;
        self.reserve_pair()?;
        let unreserved = self.unreserved();
        self.make_room(entry, size, unreserved - size.max(pending.size))?;
        self.settle(entry, pending.key, size, now)?;
        Ok(())
    }

    // Evicts until the indexed files take at most `limit`. A temporary keeps its size.
    fn make_room(
        &mut self,
        entry: &LruDiskCacheAddEntry,
        size: u64,
        limit: u64,
    ) -> Result<(), DiskError>
        requires { IsSize (temporary_of entry.now) size self.old.disk }
        ensures evicts { (n : ℕ) × Evicts n self.old self.new × Needed limit n self.old.index }
        ensures within { OnOk result (indexed self.new ≤ limit) }
        ensures size { IsSize (temporary_of entry.now) size self.new.disk }
        ensures cause { DiskCause self.old.disk self.new.disk result }
    {
        let _keys = self.capacity;
        self.evict_to(limit)
    }

    // Removes the temporary of an entry that isn't committed. Want of memory takes the place of the cause.
    pub(crate) fn undo(&mut self, entry: &LruDiskCacheAddEntry, refused: Error) -> Error
        requires closed { get self.old.pending entry.now.number ≡ None }
        requires held { IsHeld (temporary_of entry.now) self.old.disk }
        ensures { (removes : Bool) × Undoes refused result removes entry.now self.old self.new }
    {
        match self.discard(entry) {
            Ok(()) => refused,
            Err(DiskError::Fault) => refused,
            Err(DiskError::NoMemory) => Error::NoMemory,
        }
    }

    /// Puts an open entry's temporary in its key's place, and closes the entry, also by a refusal.
    ///
    /// The temporary is measured. Where it is over the capacity, or doesn't fit beside the other open reservations, it is
    /// refused. Else files are evicted while the indexed ones, the other reservations and the greater of the measured and the
    /// declared size take more than the capacity. A refused commit removes the temporary.
    pub fn commit(&mut self, entry: LruDiskCacheAddEntry, now: u64) -> Result<(), Error>
        requires { IsOpen self.old entry }
        ensures closed { Closed entry.number self.old self.new }
        ensures capacity { self.new.capacity ≡ self.old.capacity }
        ensures ok { OnOk result ((r : ℕ) × (n : ℕ) × Commits entry r now n self.old self.new) }
        ensures err { IfErr result (λ refused. (n : ℕ) × (touches : Bool) × (removes : Bool) × RefusesCommit refused entry now n touches removes self.old self.new) }
        ensures tidy { OnOk result (IsTidy self.old → IsTidy self.new) }
    {
        let pending = self.close(&entry);
        match self.place(&entry, pending, now) {
            Ok(()) => Ok(()),
            Err(refused) => Err(self.undo(&entry, refused)),
        }
    }
}
