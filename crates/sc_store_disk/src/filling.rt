//! Filling and committing entries of a disk store.
ghost use Rattle.std.specs.Prelude.{◌≡◌, ◌<◌, ℕ, true, false, is_some, Err, IfOk, IfErr, IfSome, OnErr};
ghost use Rattle.sc_store_disk.specs.DiskStores.{bare_disk, held_disk, opened_store};
ghost use Rattle.sc_store_disk.specs.Entries.{ClosesEntry, CommitCause, CommitsEntry, CommitsNothing, FillsBy, GrowsEntry, GrowsNothing, IsOpenAt, KeepsOpen, SameFiles};
ghost use Rattle.sc_store_disk.specs.Marked.{MarksCommitted, MarksFilled, SweptBy, marks_of};
ghost use Rattle.sc_store_disk.specs.Marks.{Begins, Forgets, SameMarks, filled_by};
ghost use Rattle.sc_store_disk.specs.Moving.{Stays};
ghost use Rattle.sc_disk.specs.Refusals.{DiskRefusal};
ghost use Rattle.sc_disk.specs.Store.{IsOpen};
ghost use Rattle.sc_disk.specs.declared.error.Error.TheVariants.{Io as IsDiskFault};
ghost use Rattle.sc_store_disk.specs.declared.filling.Filling.TheVariants.{Refused as IsRefused};
ghost use Rattle.sc_store_disk.specs.declared.filling.EntryError.TheVariants.{NotOpen as IsNotOpen};
ghost use Rattle.sc_model.specs.Asking.{same_maps};
ghost use Rattle.sc_model.specs.declared.level.Cause.TheVariants.{Io as IsIo};
ghost use Rattle.sc_entry.specs.declared.cache_mode.CacheMode.{CacheMode};

use crate::entry_cache::EntryCache;
use sc_disk::{Disk, Error, FileKey, LruDiskCacheAddEntry};
use sc_disk_pair::PairCache;
use sc_entry::NoMemory;
use sc_model::{Cause, Written};

/// How a fill ended.
#[derive(Drop)]
pub enum Filling {
    /// The entry is still open.
    Filled(LruDiskCacheAddEntry),
    Refused(Cause),
}

/// Why an entry is neither filled nor committed.
#[derive(Clone, Copy, Debug, Drop, PartialEq, Eq)]
pub enum EntryError {
    /// The store has no such open entry.
    NotOpen,
    NoMemory,
}

/// What a refused fill is told as.
fn refused_fill(refused: Error) -> Result<Filling, NoMemory>
    requires { (before now : ℕ) × DiskRefusal before now refused }
    ensures { IfOk result (λ how. (how ≡ IsRefused IsIo) × (refused ≡ IsDiskFault)) }
{
    match refused {
        Error::Io => Ok(Filling::Refused(Cause::Io)),
        Error::NoMemory => Err(NoMemory),
        Error::BadKey | Error::FileTooLarge | Error::Reserved | Error::FileNotInCache =>
            unreachable!(),
    }
}

/// Fills an open entry. A refusal closes it.
pub(crate) fn fill<D: Disk>(
    cache: &mut PairCache<D>,
    entry: LruDiskCacheAddEntry,
    bytes: &[u8],
) -> Result<Filling, NoMemory>
    requires { IsOpen cache.old.store entry }
    ensures stays { (mode : CacheMode) (capacity : ℕ) → Stays (opened_store mode capacity cache.old.store) (opened_store mode capacity cache.new.store) }
    ensures capacity { cache.new.store.capacity ≡ cache.old.store.capacity }
    ensures filled { IfOk result (λ how. (mode : CacheMode) (capacity : ℕ) → FillsBy entry bytes.now (λ fills. fills) how (opened_store mode capacity cache.old.store) (opened_store mode capacity cache.new.store)) }
    ensures closed { OnErr result ((mode : CacheMode) (capacity : ℕ) → ClosesEntry entry.number (opened_store mode capacity cache.old.store) (opened_store mode capacity cache.new.store)) }
    ensures kept { OnErr result ((mode : CacheMode) (capacity : ℕ) → same_maps (opened_store mode capacity cache.old.store).level (opened_store mode capacity cache.new.store).level) }
    ensures open { IfOk result (λ how. KeepsOpen how cache.new.store) }
{
    cache.keeps();
    match cache.fill(&entry, bytes) {
        Ok(()) => Ok(Filling::Filled(entry)),
        Err(refused) => {
            let _given_up = cache.abandon(entry);
            refused_fill(refused)
        }
    }
}

/// Puts an open entry's file in its place, and closes the entry, also by a refusal.
pub(crate) fn commit<D: Disk>(
    cache: &mut PairCache<D>,
    entry: LruDiskCacheAddEntry,
    now: u64,
) -> Result<Written, NoMemory>
    requires { IsOpen cache.old.store entry }
    ensures stays { (mode : CacheMode) (capacity : ℕ) → Stays (opened_store mode capacity cache.old.store) (opened_store mode capacity cache.new.store) }
    ensures capacity { cache.new.store.capacity ≡ cache.old.store.capacity }
    ensures closed { (mode : CacheMode) (capacity : ℕ) → ClosesEntry entry.number (opened_store mode capacity cache.old.store) (opened_store mode capacity cache.new.store) }
    ensures committed { IfOk result (λ how. (mode : CacheMode) (capacity : ℕ) → CommitsEntry entry.number how (opened_store mode capacity cache.old.store) (opened_store mode capacity cache.new.store)) }
    ensures cause { IfOk result (λ how. (mode : CacheMode) → CommitCause entry.number how (opened_store mode cache.old.store.capacity cache.old.store) (opened_store mode cache.old.store.capacity cache.new.store)) }
    ensures kept { OnErr result ((mode : CacheMode) (capacity : ℕ) → CommitsNothing entry.number (opened_store mode capacity cache.old.store) (opened_store mode capacity cache.new.store)) }
    ensures grown { IfOk result (λ how. (mode : CacheMode) → GrowsEntry entry.number how (opened_store mode cache.old.store.capacity cache.old.store) (opened_store mode cache.old.store.capacity cache.new.store)) }
    ensures not_grown { OnErr result ((mode : CacheMode) → GrowsNothing entry.number (opened_store mode cache.old.store.capacity cache.old.store) (opened_store mode cache.old.store.capacity cache.new.store)) }
{
    cache.keeps();
    match cache.commit(entry, now) {
        Ok(()) => Ok(Written::Done),
        Err(Error::FileTooLarge) => Ok(Written::Refused(Cause::FileTooLarge)),
        Err(Error::Reserved) => Ok(Written::Refused(Cause::Reserved)),
        Err(Error::Io) => Ok(Written::Refused(Cause::Io)),
        Err(Error::NoMemory) => Err(NoMemory),
        Err(Error::BadKey) | Err(Error::FileNotInCache) => unreachable!(),
    }
}

/// Closes an open entry, and removes its temporary.
fn give_up<D: Disk>(cache: &mut PairCache<D>, entry: LruDiskCacheAddEntry)
    requires { IsOpen cache.old.store entry }
    ensures stays { (mode : CacheMode) (capacity : ℕ) → Stays (opened_store mode capacity cache.old.store) (opened_store mode capacity cache.new.store) }
    ensures capacity { cache.new.store.capacity ≡ cache.old.store.capacity }
    ensures closed { (mode : CacheMode) (capacity : ℕ) → ClosesEntry entry.number (opened_store mode capacity cache.old.store) (opened_store mode capacity cache.new.store) }
    ensures kept { (mode : CacheMode) (capacity : ℕ) → same_maps (opened_store mode capacity cache.old.store).level (opened_store mode capacity cache.new.store).level }
{
    cache.keeps();
    let _removed = cache.abandon(entry);
}

impl<D: Disk> EntryCache<D> {
    /// Whether an entry is open in this store.
    pub fn is_open(&self, entry: &LruDiskCacheAddEntry) -> bool
        ensures opened { result ≡ true → IsOpenAt entry.now (held_disk self.now) }
        ensures other { result ≡ false → IsOpenAt entry.now (held_disk self.now) → ⊥ }
    {
        self.has_open(entry)
    }

    /// The same, in the words of the opened pair of folders.
    fn has_open(&self, entry: &LruDiskCacheAddEntry) -> bool
        ensures opened { result ≡ true → IsOpenAt entry.now (bare_disk self.now) }
        ensures other { result ≡ false → IsOpenAt entry.now (bare_disk self.now) → ⊥ }
        ensures lent { result ≡ true → IfSome self.now.pair.opened (λ c. IsOpen c.store entry.now) × (is_some self.now.pair.opened ≡ true) }
    {
        match self.pair.peek() {
            Some(cache) => {
                cache.keeps();
                cache.is_open(entry)
            }
            None => false,
        }
    }

    /// Fills an open entry, but for its mark.
    fn fill_entry(
        &mut self,
        entry: LruDiskCacheAddEntry,
        bytes: &[u8],
    ) -> Result<Filling, EntryError>
        ensures stays { Stays (bare_disk self.old) (bare_disk self.new) }
        ensures marks { marks_of self.new ≡ marks_of self.old }
        ensures filled { IfOk result (λ how. IsOpenAt entry (bare_disk self.old) × FillsBy entry bytes.now (λ fills. fills) how (bare_disk self.old) (bare_disk self.new)) }
        ensures closed { OnErr result (IsOpenAt entry (bare_disk self.old) → ClosesEntry entry.number (bare_disk self.old) (bare_disk self.new)) }
        ensures kept { OnErr result (same_maps (bare_disk self.old).level (bare_disk self.new).level) }
        ensures not_open { IfErr result (λ refused. refused ≡ IsNotOpen → (IsOpenAt entry (bare_disk self.old) → ⊥) × (self.new ≡ self.old)) }
        ensures open { (IsOpenAt entry (bare_disk self.old) → ⊥) → result ≡ Err IsNotOpen }
    {
        if !self.has_open(&entry) {
            return Err(EntryError::NotOpen);
        }
        let Some(cache) = self.pair.get() else {
            unreachable!()
        };
        match fill(cache, entry, bytes) {
            Ok(how) => Ok(how),
            Err(_) => Err(EntryError::NoMemory),
        }
    }

    /// Commits an open entry, but for its mark.
    fn commit_entry(&mut self, entry: LruDiskCacheAddEntry, now: u64) -> Result<Written, EntryError>
        ensures stays { Stays (bare_disk self.old) (bare_disk self.new) }
        ensures marks { marks_of self.new ≡ marks_of self.old }
        ensures closed { IsOpenAt entry (bare_disk self.old) → ClosesEntry entry.number (bare_disk self.old) (bare_disk self.new) }
        ensures committed { IfOk result (λ how. IsOpenAt entry (bare_disk self.old) × CommitsEntry entry.number how (bare_disk self.old) (bare_disk self.new)) }
        ensures cause { IfOk result (λ how. CommitCause entry.number how (bare_disk self.old) (bare_disk self.new)) }
        ensures kept { OnErr result (CommitsNothing entry.number (bare_disk self.old) (bare_disk self.new)) }
        ensures not_open { IfErr result (λ refused. refused ≡ IsNotOpen → (IsOpenAt entry (bare_disk self.old) → ⊥) × (self.new ≡ self.old)) }
        ensures open { (IsOpenAt entry (bare_disk self.old) → ⊥) → result ≡ Err IsNotOpen }
    {
        if !self.has_open(&entry) {
            return Err(EntryError::NotOpen);
        }
        let Some(cache) = self.pair.get() else {
            unreachable!()
        };
        match commit(cache, entry, now) {
            Ok(how) => Ok(how),
            Err(_) => Err(EntryError::NoMemory),
        }
    }

    /// Closes an open entry, and removes its temporary.
    fn give_up(&mut self, entry: LruDiskCacheAddEntry)
        requires open { IfSome self.old.pair.opened (λ c. IsOpen c.store entry) }
        requires lent { is_some self.old.pair.opened ≡ true }
        ensures stays { Stays (bare_disk self.old) (bare_disk self.new) }
        ensures marks { marks_of self.new ≡ marks_of self.old }
        ensures closed { ClosesEntry entry.number (bare_disk self.old) (bare_disk self.new) }
        ensures kept { same_maps (bare_disk self.old).level (bare_disk self.new).level }
    {
        let Some(cache) = self.pair.get() else {
            unreachable!()
        };
        give_up(cache, entry)
    }

    /// Adds bytes behind those that an open entry was filled with. The first fill marks the entry where a local run made its
    /// bytes, and every further one clears that mark. A refusal closes the entry, and so does want of memory.
    pub fn fill(
        &mut self,
        entry: LruDiskCacheAddEntry,
        bytes: &[u8],
        from_run: bool,
    ) -> Result<Filling, EntryError>
        ensures stays { Stays (held_disk self.old) (held_disk self.new) }
        ensures filled { IfOk result (λ how. IsOpenAt entry (held_disk self.old) × FillsBy entry bytes.now (filled_by from_run) how (held_disk self.old) (held_disk self.new)) }
        ensures closed { OnErr result (IsOpenAt entry (held_disk self.old) → ClosesEntry entry.number (held_disk self.old) (held_disk self.new)) }
        ensures kept { OnErr result (SameFiles (held_disk self.old).level (held_disk self.new).level) }
        ensures marks { IfOk result (λ how. MarksFilled entry.number from_run how (marks_of self.old) (marks_of self.new)) }
        ensures forgotten { OnErr result (IsOpenAt entry (held_disk self.old) → Forgets entry.number (marks_of self.old) (marks_of self.new)) }
        ensures not_open { IfErr result (λ refused. refused ≡ IsNotOpen → (IsOpenAt entry (held_disk self.old) → ⊥) × (self.new ≡ self.old)) }
        ensures open { (IsOpenAt entry (held_disk self.old) → ⊥) → result ≡ Err IsNotOpen }
    {
        self.bare_fill(entry, bytes, from_run)
    }

    /// The same, as the store tells it without its marks.
    fn bare_fill(
        &mut self,
        entry: LruDiskCacheAddEntry,
        bytes: &[u8],
        from_run: bool,
    ) -> Result<Filling, EntryError>
        ensures stays { Stays (bare_disk self.old) (bare_disk self.new) }
        ensures filled { IfOk result (λ how. IsOpenAt entry (bare_disk self.old) × FillsBy entry bytes.now (λ fills. fills) how (bare_disk self.old) (bare_disk self.new)) }
        ensures closed { OnErr result (IsOpenAt entry (bare_disk self.old) → ClosesEntry entry.number (bare_disk self.old) (bare_disk self.new)) }
        ensures kept { OnErr result (same_maps (bare_disk self.old).level (bare_disk self.new).level) }
        ensures marks { IfOk result (λ how. MarksFilled entry.number from_run how (marks_of self.old) (marks_of self.new)) }
        ensures forgotten { OnErr result (IsOpenAt entry (bare_disk self.old) → Forgets entry.number (marks_of self.old) (marks_of self.new)) }
        ensures marks_stay { OnErr result (SameMarks (marks_of self.old) (marks_of self.new)) }
        ensures not_open { IfErr result (λ refused. refused ≡ IsNotOpen → (IsOpenAt entry (bare_disk self.old) → ⊥) × (self.new ≡ self.old)) }
        ensures open { (IsOpenAt entry (bare_disk self.old) → ⊥) → result ≡ Err IsNotOpen }
    {
        if !self.has_open(&entry) {
            return Err(EntryError::NotOpen);
        }
        let number = entry.number();
        if self.marks.fill(number, from_run).is_err() {
            self.give_up(entry);
            self.marks.forget(number);
            return Err(EntryError::NoMemory);
        }
        match self.fill_entry(entry, bytes) {
            Ok(Filling::Filled(entry)) => Ok(Filling::Filled(entry)),
            Ok(Filling::Refused(cause)) => {
                self.marks.forget(number);
                Ok(Filling::Refused(cause))
            }
            Err(refused) => {
                self.marks.forget(number);
                Err(refused)
            }
        }
    }

    /// Makes ready to mark the path of an open entry: the path, and whether it got a mark for that.
    fn begin_mark(&mut self, entry: &LruDiskCacheAddEntry) -> Result<(FileKey, bool), NoMemory>
        ensures held { bare_disk self.new ≡ bare_disk self.old }
        ensures pair { self.new.pair ≡ self.old.pair }
        ensures began { IfOk result (λ ready. (ready.0 ≡ entry.now.key) × Begins entry.now.key entry.now.number ready.1 (marks_of self.old) (marks_of self.new)) }
        ensures err { OnErr result (marks_of self.new ≡ marks_of self.old) }
    {
        let path = entry.key().clone()?;
        let added = self.marks.begin(&path, entry.number())?;
        Ok((path, added))
    }

    /// Forgets the marks of files that were evicted, where there are many, but for that of this path.
    fn sweep(&mut self, keep: &FileKey)
        ensures held { bare_disk self.new ≡ bare_disk self.old }
        ensures pair { self.new.pair ≡ self.old.pair }
        ensures swept { SweptBy self.old.pair.opened keep.now (marks_of self.old) (marks_of self.new) }
    {
        if let Some(cache) = self.pair.peek() {
            self.marks.sweep(cache, keep);
        }
    }

    /// Puts an open entry's file in its key's place, and closes the entry, also by a refusal. The key gets the mark of the
    /// entry.
    pub fn commit(&mut self, entry: LruDiskCacheAddEntry, now: u64) -> Result<Written, EntryError>
        ensures stays { Stays (held_disk self.old) (held_disk self.new) }
        ensures closed { IsOpenAt entry (held_disk self.old) → ClosesEntry entry.number (held_disk self.old) (held_disk self.new) }
        ensures committed { IfOk result (λ how. IsOpenAt entry (held_disk self.old) × CommitsEntry entry.number how (held_disk self.old) (held_disk self.new)) }
        ensures cause { IfOk result (λ how. CommitCause entry.number how (held_disk self.old) (held_disk self.new)) }
        ensures kept { OnErr result (CommitsNothing entry.number (held_disk self.old) (held_disk self.new)) }
        ensures marks { IfOk result (λ how. MarksCommitted entry.number entry.key how (marks_of self.old) (marks_of self.new) (held_disk self.new)) }
        ensures forgotten { OnErr result (IsOpenAt entry (held_disk self.old) → Forgets entry.number (marks_of self.old) (marks_of self.new)) }
        ensures not_open { IfErr result (λ refused. refused ≡ IsNotOpen → (IsOpenAt entry (held_disk self.old) → ⊥) × (self.new ≡ self.old)) }
        ensures open { (IsOpenAt entry (held_disk self.old) → ⊥) → result ≡ Err IsNotOpen }
    {
        self.bare_commit(entry, now)
    }

    /// The same, as the store tells it without its marks.
    fn bare_commit(&mut self, entry: LruDiskCacheAddEntry, now: u64) -> Result<Written, EntryError>
        ensures stays { Stays (bare_disk self.old) (bare_disk self.new) }
        ensures closed { IsOpenAt entry (bare_disk self.old) → ClosesEntry entry.number (bare_disk self.old) (bare_disk self.new) }
        ensures committed { IfOk result (λ how. IsOpenAt entry (bare_disk self.old) × CommitsEntry entry.number how (bare_disk self.old) (bare_disk self.new)) }
        ensures cause { IfOk result (λ how. CommitCause entry.number how (bare_disk self.old) (bare_disk self.new)) }
        ensures kept { OnErr result (CommitsNothing entry.number (bare_disk self.old) (bare_disk self.new)) }
        ensures marks { IfOk result (λ how. MarksCommitted entry.number entry.key how (marks_of self.old) (marks_of self.new) (bare_disk self.new)) }
        ensures forgotten { OnErr result (IsOpenAt entry (bare_disk self.old) → Forgets entry.number (marks_of self.old) (marks_of self.new)) }
        ensures marks_stay { OnErr result (SameMarks (marks_of self.old) (marks_of self.new)) }
        ensures not_open { IfErr result (λ refused. refused ≡ IsNotOpen → (IsOpenAt entry (bare_disk self.old) → ⊥) × (self.new ≡ self.old)) }
        ensures open { (IsOpenAt entry (bare_disk self.old) → ⊥) → result ≡ Err IsNotOpen }
    {
        if !self.has_open(&entry) {
            return Err(EntryError::NotOpen);
        }
        let number = entry.number();
        let Ok((path, added)) = self.begin_mark(&entry) else {
            self.give_up(entry);
            self.marks.forget(number);
            return Err(EntryError::NoMemory);
        };
        match self.commit_entry(entry, now) {
            Ok(Written::Done) => {
                self.marks.settle(&path, number);
                self.sweep(&path);
                Ok(Written::Done)
            }
            Ok(Written::Refused(cause)) => {
                self.marks.undo(&path, number, added);
                Ok(Written::Refused(cause))
            }
            Err(refused) => {
                self.marks.undo(&path, number, added);
                Err(refused)
            }
        }
    }
}
