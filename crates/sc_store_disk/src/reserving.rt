//! Opening entries in a disk store.
ghost use Rattle.std.specs.Prelude.{◌≡◌, ℕ, [], true, is_some, Some, Ok, IfOk, OnErr};
ghost use Rattle.sc_store_disk.specs.DiskStores.{bare_disk, disk_facts, entry_path, held_disk, level_of, opened_store};
ghost use Rattle.sc_store_disk.specs.Marked.{MarksOpened, marks_of};
ghost use Rattle.sc_store_disk.specs.Moving.{EvictsFiles, EvictsFor, HasOpened, OpensBy, ReserveCause, SameEntries, Stays, room_causes, written_of};
ghost use Rattle.sc_store_disk.specs.declared.reserving.Reservation.TheVariants.{Refused as IsRefused};
ghost use Rattle.sc_entry.specs.Keys.{is_file_key};
ghost use Rattle.sc_entry.specs.declared.cache_mode.CacheMode.{CacheMode};
ghost use Rattle.sc_disk.specs.Store.{reserved};
ghost use Rattle.sc_model.specs.WriteCauses.{causes, early_cause as early};
ghost use Rattle.sc_model.specs.Writing.{Reserves};
ghost use Rattle.sc_model.specs.declared.level.Cause.{Cause as CauseOf};
ghost use Rattle.sc_model.specs.Plan.{reads_only};
ghost use Rattle.sc_model.specs.Script.{is_single as single};
ghost use Rattle.sc_disk_pair.specs.Parts.{in_part};
ghost use Rattle.sc_disk_pair.specs.declared.part.Part.TheVariants.{Main};

use crate::entry_cache::EntryCache;
use sc_disk::{Disk, Error, FileKey, LruDiskCacheAddEntry, is_store_key, make_key_path};
use sc_disk_pair::{PairCache, Part};
use sc_entry::{CacheMode, NoMemory, Text};
use sc_model::{Cause, Policy, Store};

/// How a reservation ended.
#[derive(Drop)]
pub enum Reservation {
    /// The entry that is open.
    Open(LruDiskCacheAddEntry),
    Refused(Cause),
}

/// Opens an entry in a part of an opened store.
pub(crate) fn prepare<D: Disk>(
    cache: &mut PairCache<D>,
    part: Part,
    path: &FileKey,
    size: u64,
    now: u64,
) -> Result<Reservation, NoMemory>
    requires { is_file_key path.now ≡ true }
    ensures stays { (mode : CacheMode) (capacity : ℕ) → Stays (opened_store mode capacity cache.old.store) (opened_store mode capacity cache.new.store) }
    ensures capacity { cache.new.store.capacity ≡ cache.old.store.capacity }
    ensures moved { IfOk result (λ how. is_some cache.old.store.disk.told ≡ true → Reserves cache.old.store.capacity (room_causes cache.old.store.capacity (reserved cache.old.store) size) (reserved cache.old.store) size (written_of how) (level_of true cache.old.store.index cache.old.store.disk) (level_of true cache.new.store.index cache.new.store.disk)) }
    ensures entry { IfOk result (λ how. (mode : CacheMode) (capacity : ℕ) → OpensBy (in_part part path.now) size how (opened_store mode capacity cache.old.store) (opened_store mode capacity cache.new.store)) }
    ensures kept { OnErr result ((mode : CacheMode) (capacity : ℕ) → SameEntries (opened_store mode capacity cache.old.store) (opened_store mode capacity cache.new.store)) }
    ensures evicts { OnErr result ((mode : CacheMode) → EvictsFiles size (opened_store mode cache.old.store.capacity cache.old.store) (opened_store mode cache.old.store.capacity cache.new.store)) }
    ensures cause { IfOk result (λ how. ReserveCause (room_causes cache.old.store.capacity (reserved cache.old.store) size) how (level_of true cache.old.store.index cache.old.store.disk) (level_of true cache.new.store.index cache.new.store.disk)) }
    ensures open { IfOk result (λ how. HasOpened how cache.new.store) }
{
    cache.keeps();
    match cache.prepare_add(part, path, size, now) {
        Ok(entry) => {
            cache.keeps();
            Ok(Reservation::Open(entry))
        }
        Err(Error::FileTooLarge) => Ok(Reservation::Refused(Cause::FileTooLarge)),
        Err(Error::Reserved) => Ok(Reservation::Refused(Cause::Reserved)),
        Err(Error::Io) => Ok(Reservation::Refused(Cause::Io)),
        Err(Error::NoMemory) => Err(NoMemory),
        Err(Error::BadKey) | Err(Error::FileNotInCache) => unreachable!(),
    }
}

fn is_single(policy: &Policy) -> bool
    ensures { result ≡ single policy.now }
{
    match policy {
        Policy::Single => true,
        Policy::Levels(_) => false,
    }
}

fn is_read_only(mode: CacheMode) -> bool
    ensures { result ≡ reads_only mode }
{
    match mode {
        CacheMode::ReadOnly => true,
        CacheMode::ReadWrite => false,
    }
}

/// Why a write is refused before the store is opened: the mode of a single store, then the key.
pub(crate) fn early_cause(policy: &Policy, configured: CacheMode, key: &Text) -> Option<Cause>
    ensures { result ≡ early policy.now (disk_facts configured 0 []) key.now }
{
    if is_single(policy) && is_read_only(configured) {
        return Some(Cause::ReadOnly(Store::Disk));
    }
    if is_store_key(key) {
        None
    } else {
        Some(Cause::BadKey)
    }
}

impl<D: Disk> EntryCache<D> {
    /// Opens an entry in the main part of the opened store.
    fn prepare(&mut self, path: &FileKey, size: u64, now: u64) -> Result<Reservation, NoMemory>
        requires lent { is_some self.old.pair.opened ≡ true }
        requires key { is_file_key path.now ≡ true }
        ensures stays { Stays (bare_disk self.old) (bare_disk self.new) }
        ensures marks { marks_of self.new ≡ marks_of self.old }
        ensures moved { IfOk result (λ how. (bare_disk self.old).told ≡ true → Reserves (bare_disk self.old).facts.capacity (room_causes (bare_disk self.old).facts.capacity (bare_disk self.old).reserved size) (bare_disk self.old).reserved size (written_of how) (bare_disk self.old).level (bare_disk self.new).level) }
        ensures entry { IfOk result (λ how. OpensBy (in_part Main path.now) size how (bare_disk self.old) (bare_disk self.new)) }
        ensures kept { OnErr result (SameEntries (bare_disk self.old) (bare_disk self.new)) }
        ensures evicts { OnErr result (EvictsFiles size (bare_disk self.old) (bare_disk self.new)) }
        ensures cause { IfOk result (λ how. ReserveCause (room_causes (bare_disk self.old).facts.capacity (bare_disk self.old).reserved size) how (bare_disk self.old).level (bare_disk self.new).level) }
        ensures opened { (bare_disk self.new).level.opened ≡ true }
    {
        let Some(cache) = self.pair.get() else {
            unreachable!()
        };
        prepare(cache, Part::Main, path, size, now)
    }
}

impl<D: Disk + Drop> EntryCache<D> {
    /// Opens an entry for a key, but for its mark.
    #[tactic(auto, using(crate::proofs::KeyPaths::entry_key))]
    fn reserve_entry(
        &mut self,
        policy: &Policy,
        key: &Text,
        size: u64,
        now: u64,
    ) -> Result<Reservation, NoMemory>
        ensures stays { Stays (bare_disk self.old) (bare_disk self.new) }
        ensures marks { marks_of self.new ≡ marks_of self.old }
        ensures moved { IfOk result (λ how. (bare_disk self.old).told ≡ true → Reserves (bare_disk self.old).facts.capacity (causes policy.now (bare_disk self.old).facts (bare_disk self.old).reserved key.now size) (bare_disk self.old).reserved size (written_of how) (bare_disk self.old).level (bare_disk self.new).level) }
        ensures entry { IfOk result (λ how. OpensBy (entry_path key.now) size how (bare_disk self.old) (bare_disk self.new)) }
        ensures kept { OnErr result (SameEntries (bare_disk self.old) (bare_disk self.new)) }
        ensures evicts { OnErr result (EvictsFiles size (bare_disk self.old) (bare_disk self.new)) }
        ensures cause { IfOk result (λ how. ReserveCause (causes policy.now (bare_disk self.old).facts (bare_disk self.old).reserved key.now size) how (bare_disk self.old).level (bare_disk self.new).level) }
        ensures early { (c : CauseOf) → early policy.now (bare_disk self.old).facts key.now ≡ Some c → (result ≡ Ok (IsRefused c)) × (self.new ≡ self.old) }
    {
        if let Some(cause) = early_cause(policy, self.mode, key) {
            return Ok(Reservation::Refused(cause));
        }
        let path = FileKey::new(make_key_path(self.alloc, key)?);
        if !self.open(now)? {
            return Ok(Reservation::Refused(Cause::Io));
        }
        self.prepare(&path, size, now)
    }

    /// Opens an entry for a key, of this size: files are evicted until it fits. The mode of a single store and then the key
    /// are looked at before the store is opened, the size after.
    pub fn reserve(
        &mut self,
        policy: &Policy,
        key: &Text,
        size: u64,
        now: u64,
    ) -> Result<Reservation, NoMemory>
        ensures stays { Stays (held_disk self.old) (held_disk self.new) }
        ensures marks { IfOk result (λ how. MarksOpened how (marks_of self.old) (marks_of self.new)) }
        ensures marks_stay { OnErr result (marks_of self.new ≡ marks_of self.old) }
        ensures moved { IfOk result (λ how. (held_disk self.old).told ≡ true → Reserves (held_disk self.old).facts.capacity (causes policy.now (held_disk self.old).facts (held_disk self.old).reserved key.now size) (held_disk self.old).reserved size (written_of how) (held_disk self.old).level (held_disk self.new).level) }
        ensures entry { IfOk result (λ how. OpensBy (entry_path key.now) size how (held_disk self.old) (held_disk self.new)) }
        ensures kept { OnErr result (SameEntries (held_disk self.old) (held_disk self.new)) }
        ensures evicts { OnErr result (EvictsFor size (held_disk self.old) (held_disk self.new)) }
        ensures cause { IfOk result (λ how. ReserveCause (causes policy.now (held_disk self.old).facts (held_disk self.old).reserved key.now size) how (held_disk self.old).level (held_disk self.new).level) }
        ensures early { (c : CauseOf) → early policy.now (held_disk self.old).facts key.now ≡ Some c → (result ≡ Ok (IsRefused c)) × (self.new ≡ self.old) }
    {
        self.bare_reserve(policy, key, size, now)
    }

    /// The same, as the store tells it without its marks.
    fn bare_reserve(
        &mut self,
        policy: &Policy,
        key: &Text,
        size: u64,
        now: u64,
    ) -> Result<Reservation, NoMemory>
        ensures stays { Stays (bare_disk self.old) (bare_disk self.new) }
        ensures marks { IfOk result (λ how. MarksOpened how (marks_of self.old) (marks_of self.new)) }
        ensures marks_stay { OnErr result (marks_of self.new ≡ marks_of self.old) }
        ensures moved { IfOk result (λ how. (bare_disk self.old).told ≡ true → Reserves (bare_disk self.old).facts.capacity (causes policy.now (bare_disk self.old).facts (bare_disk self.old).reserved key.now size) (bare_disk self.old).reserved size (written_of how) (bare_disk self.old).level (bare_disk self.new).level) }
        ensures entry { IfOk result (λ how. OpensBy (entry_path key.now) size how (bare_disk self.old) (bare_disk self.new)) }
        ensures kept { OnErr result (SameEntries (bare_disk self.old) (bare_disk self.new)) }
        ensures evicts { OnErr result (EvictsFiles size (bare_disk self.old) (bare_disk self.new)) }
        ensures cause { IfOk result (λ how. ReserveCause (causes policy.now (bare_disk self.old).facts (bare_disk self.old).reserved key.now size) how (bare_disk self.old).level (bare_disk self.new).level) }
        ensures early { (c : CauseOf) → early policy.now (bare_disk self.old).facts key.now ≡ Some c → (result ≡ Ok (IsRefused c)) × (self.new ≡ self.old) }
    {
        let how = self.reserve_entry(policy, key, size, now)?;
        if let Reservation::Open(entry) = &how {
            self.marks.forget(entry.number());
        }
        Ok(how)
    }
}
