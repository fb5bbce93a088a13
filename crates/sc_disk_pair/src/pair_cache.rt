//! Two folders as one store of files.
ghost use Rattle.std.specs.Prelude.{◌≡◌, ℕ, ◌+◌, ◌≤◌, ◌↔◌, Bool, List, ◌∷◌, [], IfOk, IfErr, OnOk, OnErr, IsTrue, is_some, true, bytes_eq, length};
ghost use Rattle.std.specs.Io.Cursor.{cursor_inner, cursor_position};
ghost use Rattle.std.specs.Map.{lookup};
ghost use Rattle.sc_entry.specs.Causes.{IfTold};
ghost use Rattle.sc_entry.specs.Keys.{is_file_key};
ghost use Rattle.sc_disk.specs.Calls.{Commits, Gets, Prepares, RefusesAdd, RefusesCommit, Removes};
ghost use Rattle.sc_disk.specs.Disks.{Adopts, AdoptsPart, Does, DoesPart, HasOutside, files_now};
ghost use Rattle.sc_disk.specs.Inserting.{Inserts, RefusesInsert};
ghost use Rattle.sc_disk.specs.Opening.{IsReopened, RefusesOpening, Reopens};
ghost use Rattle.sc_disk.specs.Refusals.{AddCause, DiskRefusal, GetCause, RemoveCause};
ghost use Rattle.sc_disk.specs.Store.{Alters, Closed, IsOpen, IsTidy, SameEntries, indexed, is_open, reserved, temporary_of};
ghost use Rattle.sc_disk.specs.declared.change.Change.TheVariants.{Added, Gone};
ghost use Rattle.sc_disk_pair.specs.Pairs.{Drops, Evicts, Files, RefusesRead, Uses, index_of, root_of};
ghost use Rattle.sc_disk_pair.specs.Parts.{in_part};
ghost use Rattle.sc_disk_pair.specs.Twos.{joined_state, joins, joint_told};

use crate::part::Part;
use crate::paths;
use crate::two::Two;
use sc_disk::{Disk, Error, FileKey, LruDiskCache, LruDiskCacheAddEntry, OpenError};
use sc_entry::{ByteText, NoMemory};
use std::alloc::Global;
use std::io::Cursor;

/// Two folders as one store of files: one list by use over the keys of both parts, and one capacity for the files and the
/// open entries of both.
///
/// A clause sees the store of both as `store`, in which a part's key is `in_part part key`; `index_of part` are the keys of
/// a part alone.
#[derive(Drop)]
pub struct PairCache<D: Disk> {
    pub(crate) alloc: Global,
    pub(crate) store: LruDiskCache<Two<D>>,
    pre_root: ByteText,
}

/// A part's key as one of both parts: the part's letter, `/`, the key. No two keys of parts are the same one, and it is a
/// file key exactly where the part's key is one.
pub fn part_key(alloc: Global, part: Part, key: &FileKey) -> Result<FileKey, NoMemory>
    ensures key { IfOk result (λ both. both ≡ in_part part key.now) }
    ensures one { (p : Part) (k : List ℕ) → in_part p k ≡ in_part part key.now → (p ≡ part) × (k ≡ key.now) }
    ensures good { is_file_key (in_part part key.now) ≡ is_file_key key.now }
{
    let path = paths::in_part(alloc, part, key.as_text())?;
    Ok(FileKey::new(path))
}

impl<D: Disk> PairCache<D> {
    /// Opens a store on two disks: removes the temporaries of both and the files over the capacity `size`, and indexes the
    /// others in the order of their moments, for equal ones the main part's first, then of their paths. The first ones go
    /// where all take more than the capacity. A refusal hands both disks back.
    pub fn new(
        alloc: Global,
        main: D,
        pre: D,
        size: u64,
        now: u64,
    ) -> Result<PairCache<D>, OpenError<Two<D>>>
        ensures reopened { IfOk result (λ c. IfTold (joint_told (D.state main).told (D.state pre).told) (λ r. IsReopened size (files_now r) c.store.index)) }
        ensures ok { IfOk result (λ c. Reopens size c.store.index (joined_state (joins (D.state main) (D.state pre))) c.store.disk) }
        ensures pre_root { IfOk result (λ c. c.pre_root ≡ (D.state pre).root) }
        ensures capacity { IfOk result (λ c. c.store.capacity ≡ size) }
        ensures pending { IfOk result (λ c. c.store.pending.slots ≡ []) }
        ensures tidy { IfOk result (λ c. IsTidy c.store) }
        ensures err { IfErr result (λ refused. RefusesOpening size (joined_state (joins (D.state main) (D.state pre))) (joined_state refused.disk)) }
        ensures cause { IfErr result (λ refused. DiskRefusal (joined_state (joins (D.state main) (D.state pre))).faults (joined_state refused.disk).faults refused.error) }
    {
        PairCache::open(alloc, Two::new(alloc, main, pre), size, now)
    }

    /// Opens a store on two disks that were joined, as `new` does.
    pub fn open(
        alloc: Global,
        disks: Two<D>,
        size: u64,
        now: u64,
    ) -> Result<PairCache<D>, OpenError<Two<D>>>
        ensures reopened { IfOk result (λ c. IfTold disks.told (λ r. IsReopened size (files_now r) c.store.index)) }
        ensures ok { IfOk result (λ c. Reopens size c.store.index (joined_state disks) c.store.disk) }
        ensures pre_root { IfOk result (λ c. c.pre_root ≡ disks.pre.root) }
        ensures capacity { IfOk result (λ c. c.store.capacity ≡ size) }
        ensures pending { IfOk result (λ c. c.store.pending.slots ≡ []) }
        ensures tidy { IfOk result (λ c. IsTidy c.store) }
        ensures err { IfErr result (λ refused. RefusesOpening size (joined_state disks) (joined_state refused.disk)) }
        ensures cause { IfErr result (λ refused. DiskRefusal (joined_state disks).faults (joined_state refused.disk).faults refused.error) }
    {
        let Ok(pre_root) = disks.disk(Part::Pre).root().try_clone() else {
            return Err(OpenError {
                error: Error::NoMemory,
                disk: disks,
            });
        };
        match LruDiskCache::new(alloc, disks, size, now) {
            Ok(store) => Ok(PairCache {
                alloc,
                store,
                pre_root,
            }),
            Err(refused) => Err(refused),
        }
    }
}

impl<D: Disk> PairCache<D> {
    /// The bytes of all indexed files of both parts, and those that open entries have declared.
    pub fn size(&self) -> u64
        ensures size { result ≡ indexed self.now.store + reserved self.now.store }
        ensures within { result ≤ self.now.store.capacity }
    {
        self.store.size()
    }

    /// The bytes that open entries of both parts have declared.
    pub fn reserved(&self) -> u64
        ensures { result ≡ reserved self.now.store }
    {
        self.store.reserved()
    }

    /// How many files of both parts are indexed.
    pub fn len(&self) -> usize
        ensures { result ≡ length self.now.store.index }
    {
        self.store.len()
    }

    pub fn is_empty(&self) -> bool
        ensures { IsTrue result ↔ (self.now.store.index ≡ []) }
    {
        self.store.is_empty()
    }

    /// The most bytes that the files of both parts may take together.
    pub fn capacity(&self) -> u64
        ensures { result ≡ self.now.store.capacity }
    {
        self.store.capacity()
    }

    /// Whether a file of this size may be stored at all.
    pub fn can_store(&self, size: u64) -> bool
        ensures { IsTrue result ↔ (size ≤ self.now.store.capacity) }
    {
        self.store.can_store(size)
    }

    /// The path that a part's files stand under.
    pub fn path(&self, part: Part) -> &ByteText
        ensures { result.now ≡ root_of part self.now.store.disk.root self.now.pre_root }
    {
        match part {
            Part::Main => self.store.path(),
            Part::Pre => &self.pre_root,
        }
    }

    /// Both disks, as one.
    pub fn disks(&self) -> &Two<D>
        ensures { joined_state result.now ≡ self.now.store.disk }
    {
        self.store.disk()
    }

    /// Whether an entry is open in this store.
    pub fn is_open(&self, entry: &LruDiskCacheAddEntry) -> bool
        ensures test { result ≡ is_open self.now.store entry.now }
        ensures opened { result ≡ true → IsOpen self.now.store entry.now }
    {
        self.store.is_open(entry)
    }

    /// Whether a key of both parts, as `part_key` makes them, is indexed. One that is open alone isn't.
    pub fn contains(&self, both: &FileKey) -> bool
        ensures { result ≡ is_some (lookup (bytes_eq both.now) self.now.store.index) }
    {
        self.store.contains_key(both)
    }

    /// Whether a key of a part is indexed. One that is open alone isn't.
    pub fn contains_key(&self, part: Part, key: &FileKey) -> Result<bool, NoMemory>
        ensures { IfOk result (λ found. found ≡ is_some (lookup (bytes_eq key.now) (index_of part self.now.store.index))) }
    {
        let both = part_key(self.alloc, part, key)?;
        Ok(self.store.contains_key(&both))
    }
}

impl<D: Disk> PairCache<D> {
    /// Opens an entry for a part's key: evicts files of both parts until its size fits beside what is indexed and reserved,
    /// creates its temporary on the part's disk, and reserves the size. What it refuses, and in which order, is what
    /// `LruDiskCache` does.
    pub fn prepare_add(
        &mut self,
        part: Part,
        key: &FileKey,
        size: u64,
        now: u64,
    ) -> Result<LruDiskCacheAddEntry, Error>
        ensures ok { IfOk result (λ e. (n : ℕ) × Prepares e (in_part part key.now) size now n self.old.store self.new.store) }
        ensures opened { IfOk result (λ e. IsOpen self.new.store e) }
        ensures err { IfErr result (λ refused. (n : ℕ) × RefusesAdd refused (in_part part key.now) size n self.old.store self.new.store) }
        ensures cause { IfErr result (AddCause (is_file_key key.now) size (reserved self.old.store) self.old.store.capacity self.old.store.disk.faults self.new.store.disk.faults) }
        ensures evicts { (p : Part) → Evicts p self.old.store self.new.store }
        ensures tidy { IsTidy self.old.store → IsTidy self.new.store }
        ensures pre_root { self.new.pre_root ≡ self.old.pre_root }
    {
        let Ok(both) = part_key(self.alloc, part, key) else {
            return Err(Error::NoMemory);
        };
        let _placed = self.store.disk();
        self.store.prepare_add(&both, size, now)
    }

    /// Adds bytes at the end of an open entry's temporary. A refused call may leave a front of them there.
    pub fn fill(&mut self, entry: &LruDiskCacheAddEntry, bytes: &[u8]) -> Result<(), Error>
        requires { IsOpen self.old.store entry.now }
        ensures opened { IsOpen self.new.store entry.now }
        ensures ok { OnOk result (Does (Added (temporary_of entry.now) bytes.now ∷ []) self.old.store.disk self.new.store.disk) }
        ensures err { OnErr result (DoesPart (temporary_of entry.now) bytes.now self.old.store.disk self.new.store.disk) }
        ensures cause { IfErr result (DiskRefusal self.old.store.disk.faults self.new.store.disk.faults) }
        ensures index { self.new.store.index ≡ self.old.store.index }
        ensures pending { self.new.store.pending ≡ self.old.store.pending }
        ensures capacity { self.new.store.capacity ≡ self.old.store.capacity }
        ensures tidy { IsTidy self.old.store → IsTidy self.new.store }
        ensures pre_root { self.new.pre_root ≡ self.old.pre_root }
    {
        self.store.fill(entry, bytes)
    }

    /// Puts an open entry's temporary in its key's place, and closes the entry, also by a refusal, as `LruDiskCache` does.
    /// Files of both parts are evicted for it.
    pub fn commit(&mut self, entry: LruDiskCacheAddEntry, now: u64) -> Result<(), Error>
        requires { IsOpen self.old.store entry }
        ensures closed { Closed entry.number self.old.store self.new.store }
        ensures capacity { self.new.store.capacity ≡ self.old.store.capacity }
        ensures ok { OnOk result ((r : ℕ) × (n : ℕ) × Commits entry r now n self.old.store self.new.store) }
        ensures files { OnOk result ((part : Part) (key : List ℕ) → entry.key ≡ in_part part key → (r : ℕ) × Files part key r self.old.store self.new.store) }
        ensures err { IfErr result (λ refused. (n : ℕ) × (touches : Bool) × (removes : Bool) × RefusesCommit refused entry now n touches removes self.old.store self.new.store) }
        ensures evicts { OnErr result ((p : Part) → Evicts p self.old.store self.new.store) }
        ensures tidy { OnOk result (IsTidy self.old.store → IsTidy self.new.store) }
        ensures pre_root { self.new.pre_root ≡ self.old.pre_root }
    {
        let _divided = self.store.disk();
        self.store.commit(entry, now)
    }

    /// Closes an entry, and removes its temporary. The entry is closed also by a refusal.
    pub fn abandon(&mut self, entry: LruDiskCacheAddEntry) -> Result<(), Error>
        requires { IsOpen self.old.store entry }
        ensures closed { Closed entry.number self.old.store self.new.store }
        ensures ok { OnOk result (Does (Gone (temporary_of entry) ∷ []) self.old.store.disk self.new.store.disk) }
        ensures err { OnErr result (Does [] self.old.store.disk self.new.store.disk) }
        ensures cause { IfErr result (DiskRefusal self.old.store.disk.faults self.new.store.disk.faults) }
        ensures index { self.new.store.index ≡ self.old.store.index }
        ensures capacity { self.new.store.capacity ≡ self.old.store.capacity }
        ensures tidy { OnOk result (IsTidy self.old.store → IsTidy self.new.store) }
        ensures pre_root { self.new.pre_root ≡ self.old.pre_root }
    {
        self.store.abandon(entry)
    }
}

impl<D: Disk> PairCache<D> {
    /// Stores bytes under a part's key, as `LruDiskCache` does. Files of both parts are evicted for it.
    pub fn insert_bytes(
        &mut self,
        part: Part,
        key: &FileKey,
        bytes: &[u8],
        now: u64,
    ) -> Result<(), Error>
        ensures ok { OnOk result ((number : ℕ) × (n : ℕ) × (r : ℕ) × (m : ℕ) × Inserts (in_part part key.now) (bytes.now ∷ []) (length bytes.now) now number n r m self.old.store self.new.store) }
        ensures files { OnOk result ((r : ℕ) × Files part key.now r self.old.store self.new.store) }
        ensures err { IfErr result (λ refused. RefusesInsert refused (in_part part key.now) (length bytes.now) now (λ e. DoesPart (temporary_of e) bytes.now) (λ e. Does (Added (temporary_of e) bytes.now ∷ [])) self.old.store self.new.store) }
        ensures entries { SameEntries self.old.store self.new.store }
        ensures reserved { reserved self.new.store ≡ reserved self.old.store }
        ensures capacity { self.new.store.capacity ≡ self.old.store.capacity }
        ensures tidy { OnOk result (IsTidy self.old.store → IsTidy self.new.store) }
        ensures pre_root { self.new.pre_root ≡ self.old.pre_root }
    {
        let Ok(both) = part_key(self.alloc, part, key) else {
            return Err(Error::NoMemory);
        };
        let _divided = self.store.disk();
        self.store.insert_bytes(&both, bytes, now)
    }

    /// Stores the bytes of an outside file under a part's key, as `LruDiskCache` does. Files of both parts are evicted for
    /// it.
    pub fn insert_file(
        &mut self,
        part: Part,
        key: &FileKey,
        outside: &ByteText,
        now: u64,
    ) -> Result<(), Error>
        ensures ok { OnOk result ((bytes : List ℕ) × HasOutside outside.now bytes self.old.store.disk × (number : ℕ) × (n : ℕ) × (r : ℕ) × (m : ℕ) × Inserts (in_part part key.now) (bytes ∷ []) 0 now number n r m self.old.store self.new.store) }
        ensures files { OnOk result ((r : ℕ) × Files part key.now r self.old.store self.new.store) }
        ensures err { IfErr result (λ refused. RefusesInsert refused (in_part part key.now) 0 now (λ e. AdoptsPart outside.now (temporary_of e)) (λ e. Adopts outside.now (temporary_of e)) self.old.store self.new.store) }
        ensures entries { SameEntries self.old.store self.new.store }
        ensures reserved { reserved self.new.store ≡ reserved self.old.store }
        ensures capacity { self.new.store.capacity ≡ self.old.store.capacity }
        ensures tidy { OnOk result (IsTidy self.old.store → IsTidy self.new.store) }
        ensures pre_root { self.new.pre_root ≡ self.old.pre_root }
    {
        let Ok(both) = part_key(self.alloc, part, key) else {
            return Err(Error::NoMemory);
        };
        let _divided = self.store.disk();
        self.store.insert_file(&both, outside, now)
    }
}

impl<D: Disk> PairCache<D> {
    /// The bytes of a part's key's file. The key becomes the most recently used of both parts, and its file gets this
    /// moment.
    pub fn get_file(
        &mut self,
        part: Part,
        key: &FileKey,
        now: u64,
    ) -> Result<Cursor<Vec<u8>>, Error>
        ensures ok { IfOk result (λ file. Gets (in_part part key.now) (cursor_inner file).items now self.old.store self.new.store) }
        ensures files { OnOk result (Uses part key.now self.old.store self.new.store) }
        ensures start { IfOk result (λ file. cursor_position file ≡ 0) }
        ensures err { IfErr result (λ refused. (touches : Bool) × RefusesRead refused (in_part part key.now) now touches self.old.store self.new.store) }
        ensures cause { IfErr result (GetCause (is_file_key key.now) (is_some (lookup (bytes_eq key.now) (index_of part self.old.store.index))) self.old.store.disk.faults self.new.store.disk.faults) }
        ensures tidy { IsTidy self.old.store → IsTidy self.new.store }
        ensures pre_root { self.new.pre_root ≡ self.old.pre_root }
    {
        let Ok(both) = part_key(self.alloc, part, key) else {
            return Err(Error::NoMemory);
        };
        self.store.get_file(&both, now)
    }

    /// What `get_file` answers.
    pub fn get(&mut self, part: Part, key: &FileKey, now: u64) -> Result<Cursor<Vec<u8>>, Error>
        ensures ok { IfOk result (λ file. Gets (in_part part key.now) (cursor_inner file).items now self.old.store self.new.store) }
        ensures files { OnOk result (Uses part key.now self.old.store self.new.store) }
        ensures start { IfOk result (λ file. cursor_position file ≡ 0) }
        ensures err { IfErr result (λ refused. (touches : Bool) × RefusesRead refused (in_part part key.now) now touches self.old.store self.new.store) }
        ensures cause { IfErr result (GetCause (is_file_key key.now) (is_some (lookup (bytes_eq key.now) (index_of part self.old.store.index))) self.old.store.disk.faults self.new.store.disk.faults) }
        ensures tidy { IsTidy self.old.store → IsTidy self.new.store }
        ensures pre_root { self.new.pre_root ≡ self.old.pre_root }
    {
        self.get_file(part, key, now)
    }

    /// Removes a part's key's file, and then its pair. An absent key is no refusal.
    pub fn remove(&mut self, part: Part, key: &FileKey) -> Result<(), Error>
        ensures ok { OnOk result (Removes (in_part part key.now) self.old.store self.new.store) }
        ensures files { OnOk result (Drops part key.now self.old.store self.new.store) }
        ensures err { OnErr result (Alters [] self.old.store self.new.store) }
        ensures cause { IfErr result (RemoveCause (is_file_key key.now) self.old.store.disk.faults self.new.store.disk.faults) }
        ensures tidy { IsTidy self.old.store → IsTidy self.new.store }
        ensures pre_root { self.new.pre_root ≡ self.old.pre_root }
    {
        let Ok(both) = part_key(self.alloc, part, key) else {
            return Err(Error::NoMemory);
        };
        self.store.remove(&both)
    }
}
