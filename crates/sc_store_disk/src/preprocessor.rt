//! Putting preprocessor entries in a disk store.
ghost use Rattle.std.specs.Prelude.{◌≡◌, ℕ, length, true, is_some, Some, None, Ok, IfOk, OnErr};
ghost use Rattle.sc_store_disk.specs.DiskStores.{bare_disk, held_disk, opened_store};
ghost use Rattle.sc_store_disk.specs.Marked.{marks_of};
ghost use Rattle.sc_store_disk.specs.Moving.{EvictsFiles, EvictsFor, SameEntries, Stays};
ghost use Rattle.sc_store_disk.specs.Preprocessor.{PreCause, PutsPre, StoresKey, StoresPre};
ghost use Rattle.sc_entry.specs.Keys.{is_file_key};
ghost use Rattle.sc_entry.specs.declared.cache_mode.CacheMode.{CacheMode};
ghost use Rattle.sc_model.specs.WriteCauses.{early_cause as early};
ghost use Rattle.sc_model.specs.declared.event.Written.TheVariants.{Refused as IsNotWritten};
ghost use Rattle.sc_model.specs.declared.level.Cause.{Cause as CauseOf};

use crate::entry_cache::EntryCache;
use crate::filling::{Filling, commit, fill};
use crate::reserving::{Reservation, early_cause, prepare};
use sc_disk::{Disk, FileKey, normalize_key};
use sc_disk_pair::{PairCache, Part};
use sc_entry::{NoMemory, Text};
use sc_model::{Cause, Policy, Written};

/// Puts bytes at a path of the second part of an opened store. Nothing is reserved for them: files are evicted once they
/// were written and measured.
fn store<D: Disk>(
    cache: &mut PairCache<D>,
    path: &FileKey,
    bytes: &[u8],
    now: u64,
) -> Result<Written, NoMemory>
    requires { is_file_key path.now ≡ true }
    ensures stays { (mode : CacheMode) (capacity : ℕ) → Stays (opened_store mode capacity cache.old.store) (opened_store mode capacity cache.new.store) }
    ensures capacity { cache.new.store.capacity ≡ cache.old.store.capacity }
    ensures entries { (mode : CacheMode) (capacity : ℕ) → SameEntries (opened_store mode capacity cache.old.store) (opened_store mode capacity cache.new.store) }
    ensures stored { IfOk result (λ how. (mode : CacheMode) → StoresPre path.now bytes.now how (opened_store mode cache.old.store.capacity cache.old.store) (opened_store mode cache.old.store.capacity cache.new.store)) }
    ensures evicts { OnErr result ((mode : CacheMode) → EvictsFiles (length bytes.now) (opened_store mode cache.old.store.capacity cache.old.store) (opened_store mode cache.old.store.capacity cache.new.store)) }
    ensures cause { IfOk result (λ how. (mode : CacheMode) → PreCause None bytes.now how (opened_store mode cache.old.store.capacity cache.old.store) (opened_store mode cache.old.store.capacity cache.new.store)) }
{
    cache.keeps();
    let entry = match prepare(cache, Part::Pre, path, 0, now)? {
        Reservation::Open(entry) => entry,
        Reservation::Refused(cause) => return Ok(Written::Refused(cause)),
    };
    match fill(cache, entry, bytes)? {
        Filling::Filled(entry) => commit(cache, entry, now),
        Filling::Refused(cause) => Ok(Written::Refused(cause)),
    }
}

impl<D: Disk> EntryCache<D> {
    /// Puts bytes at a path of the second part of the opened store.
    fn store_pre(&mut self, path: &FileKey, bytes: &[u8], now: u64) -> Result<Written, NoMemory>
        requires lent { is_some self.old.pair.opened ≡ true }
        requires key { is_file_key path.now ≡ true }
        ensures stays { Stays (bare_disk self.old) (bare_disk self.new) }
        ensures marks { marks_of self.new ≡ marks_of self.old }
        ensures entries { SameEntries (bare_disk self.old) (bare_disk self.new) }
        ensures stored { IfOk result (λ how. StoresPre path.now bytes.now how (bare_disk self.old) (bare_disk self.new)) }
        ensures evicts { OnErr result (EvictsFiles (length bytes.now) (bare_disk self.old) (bare_disk self.new)) }
        ensures cause { IfOk result (λ how. PreCause None bytes.now how (bare_disk self.old) (bare_disk self.new)) }
    {
        let Some(cache) = self.pair.get() else {
            unreachable!()
        };
        store(cache, path, bytes, now)
    }
}

impl<D: Disk + Drop> EntryCache<D> {
    /// Puts a preprocessor entry under a key. The mode of a single store and then the key are looked at before the store is
    /// opened. The entry's size is not declared: it is measured once it was written, and files are evicted until it fits
    /// beside what open entries have declared.
    pub fn put_pre(
        &mut self,
        policy: &Policy,
        key: &Text,
        bytes: &[u8],
        now: u64,
    ) -> Result<Written, NoMemory>
        ensures stays { Stays (held_disk self.old) (held_disk self.new) }
        ensures marks { marks_of self.new ≡ marks_of self.old }
        ensures entries { SameEntries (held_disk self.old) (held_disk self.new) }
        ensures put { IfOk result (λ how. PutsPre policy.now key.now bytes.now how (held_disk self.old) (held_disk self.new)) }
        ensures evicts { OnErr result (EvictsFor (length bytes.now) (held_disk self.old) (held_disk self.new)) }
        ensures cause { IfOk result (λ how. PreCause (early policy.now (held_disk self.old).facts key.now) bytes.now how (held_disk self.old) (held_disk self.new)) }
        ensures early { (c : CauseOf) → early policy.now (held_disk self.old).facts key.now ≡ Some c → (result ≡ Ok (IsNotWritten c)) × (self.new ≡ self.old) }
    {
        self.bare_put_pre(policy, key, bytes, now)
    }

    /// The same, as the store tells it without its marks.
    #[tactic(auto, using(crate::proofs::KeyPaths::pre_key))]
    fn bare_put_pre(
        &mut self,
        policy: &Policy,
        key: &Text,
        bytes: &[u8],
        now: u64,
    ) -> Result<Written, NoMemory>
        ensures stays { Stays (bare_disk self.old) (bare_disk self.new) }
        ensures marks { marks_of self.new ≡ marks_of self.old }
        ensures entries { SameEntries (bare_disk self.old) (bare_disk self.new) }
        ensures put { IfOk result (λ how. StoresKey policy.now key.now bytes.now how (bare_disk self.old) (bare_disk self.new)) }
        ensures evicts { OnErr result (EvictsFiles (length bytes.now) (bare_disk self.old) (bare_disk self.new)) }
        ensures cause { IfOk result (λ how. PreCause (early policy.now (bare_disk self.old).facts key.now) bytes.now how (bare_disk self.old) (bare_disk self.new)) }
        ensures early { (c : CauseOf) → early policy.now (bare_disk self.old).facts key.now ≡ Some c → (result ≡ Ok (IsNotWritten c)) × (self.new ≡ self.old) }
    {
        if let Some(cause) = early_cause(policy, self.mode, key) {
            return Ok(Written::Refused(cause));
        }
        let path = FileKey::new(normalize_key(self.alloc, key)?);
        if !self.open(now)? {
            return Ok(Written::Refused(Cause::Io));
        }
        self.store_pre(&path, bytes, now)
    }
}
