//! The opening of a store of files.
ghost use Rattle.std.specs.Prelude.{◌≡◌, ℕ, ◌-◌, ◌≤◌, ◌++◌, List, [], true, bytes_eq, IfOk, IfErr, OnOk, OnErr};
ghost use Rattle.std.specs.List.{AllByRecursion, IsDistinct};
ghost use Rattle.std.specs.Map.{keys_of};
ghost use Rattle.sc_entry.specs.Causes.{IfTold};
ghost use Rattle.sc_lru.specs.LruCache.{total};
ghost use Rattle.sc_disk.specs.Disks.{ArePlaced, DiskCause, Does, files_now};
ghost use Rattle.sc_disk.specs.Opening.{Admits, Drops, Follows, HavePlaces, IsReopened, RefusesOpening, Reopens, dropped_of, is_kept, kept_of, pairs_of, paths_of};
ghost use Rattle.sc_disk.specs.Refusals.{DiskRefusal};
ghost use Rattle.sc_disk.specs.Store.{AreKeys, IsTidy, Needed, firsts, gone, size_of};

use crate::disk::{Disk, DiskError, Listed};
use crate::error::Error;
use crate::file_key::FileKey;
use crate::file_name::is_temporary_path;
use crate::file_size::FileSize;
use crate::lru_disk_cache::LruDiskCache;
use sc_lru::{DefaultHasher, LruCache};
use slab::Slab;
use std::alloc::Global;

type Index = LruCache<FileKey, u64, DefaultHasher, FileSize>;

/// Why a store isn't opened. The disk is handed back.
#[derive(Drop)]
pub struct OpenError<D> {
    pub error: Error,
    pub disk: D,
}

/// Whether an opening keeps a file: it is no temporary, and not over the capacity by itself.
pub fn is_kept(file: &Listed, capacity: u64) -> bool
    ensures { result ≡ is_kept capacity file.now }
{
    !is_temporary_path(&file.path) && file.size <= capacity
}

// Removes the temporaries and the files over the capacity, and gives the others, in the same order.
fn keep_files<D: Disk>(
    disk: &mut D,
    alloc: Global,
    capacity: u64,
    all: Vec<Listed>,
) -> Result<Vec<Listed>, Error>
    requires { ArePlaced all.items (D.state disk.old) }
    ensures kept { IfOk result (λ kept. kept.items ≡ kept_of capacity all.items) }
    ensures ok { OnOk result (Does (gone (paths_of (dropped_of capacity all.items))) (D.state disk.old) (D.state disk.new)) }
    ensures err { OnErr result ((removed : List (List ℕ)) × (rest : List (List ℕ)) × (removed ++ rest ≡ paths_of (dropped_of capacity all.items)) × Does (gone removed) (D.state disk.old) (D.state disk.new)) }
    ensures cause { IfErr result (DiskRefusal (D.state disk.old).faults (D.state disk.new).faults) }
{
    let mut kept = Vec::new(alloc);
    for file in all {
        if is_kept(&file, capacity) {
            kept.push(file)?;
        } else {
            disk.remove(&file.path)?;
        }
    }
    Ok(kept)
}

// Removes the least recently used file, and then its pair.
fn evict_first<D: Disk>(disk: &mut D, index: &mut Index) -> Result<(), DiskError>
    requires { HavePlaces index.old.entries (D.state disk.old) }
    ensures ok { OnOk result (Drops 1 index.old.entries index.new.entries (D.state disk.old) (D.state disk.new)) }
    ensures err { OnErr result (Drops 0 index.old.entries index.new.entries (D.state disk.old) (D.state disk.new)) }
    ensures capacity { index.new.capacity ≡ index.old.capacity }
    ensures cause { DiskCause (D.state disk.old) (D.state disk.new) result }
{
    let Some((key, _)) = index.peek_lru() else {
        return Ok(());
    };
    disk.remove(key.as_text())?;
    index.remove_lru();
    Ok(())
}

// Evicts until the indexed files take at most `limit`.
fn evict_until<D: Disk>(disk: &mut D, index: &mut Index, limit: u64) -> Result<(), DiskError>
    requires { HavePlaces index.old.entries (D.state disk.old) }
    ensures drops { (n : ℕ) × Drops n index.old.entries index.new.entries (D.state disk.old) (D.state disk.new) × Needed limit n index.old.entries }
    ensures within { OnOk result (total size_of index.new.entries ≤ limit) }
    ensures capacity { index.new.capacity ≡ index.old.capacity }
    ensures cause { DiskCause (D.state disk.old) (D.state disk.new) result }
{
    while index.size() > limit {
        evict_first(disk, index)?;
    }
    Ok(())
}

// Indexes a file behind the others, and evicts until they fit beside it.
fn admit<D: Disk>(disk: &mut D, index: &mut Index, file: Listed) -> Result<(), Error>
    requires size { file.size ≤ index.old.capacity }
    requires placed { HavePlaces index.old.entries (D.state disk.old) }
    ensures ok { OnOk result ((n : ℕ) × Admits file index.old.capacity n index.old.entries index.new.entries (D.state disk.old) (D.state disk.new)) }
    ensures err { OnErr result ((n : ℕ) × Needed (index.old.capacity - file.size) n index.old.entries × Does (gone (firsts n index.old.entries)) (D.state disk.old) (D.state disk.new)) }
    ensures capacity { index.new.capacity ≡ index.old.capacity }
    ensures cause { IfErr result (DiskRefusal (D.state disk.old).faults (D.state disk.new).faults) }
{
    let limit = index.capacity() - file.size;
    evict_until(disk, index, limit)?;
    index.insert(FileKey::new(file.path), file.size)?;
    Ok(())
}

// Indexes files in this order, and evicts the first ones where all take more than the capacity.
fn index_files<D: Disk>(
    disk: &mut D,
    alloc: Global,
    capacity: u64,
    files: Vec<Listed>,
) -> Result<Index, Error>
    requires kept { AllByRecursion (λ e. is_kept capacity e ≡ true) files.items }
    requires placed { ArePlaced files.items (D.state disk.old) }
    ensures ok { IfOk result (λ index. (removed : List (List ℕ)) × Does (gone removed) (D.state disk.old) (D.state disk.new) × (IsDistinct bytes_eq (keys_of (pairs_of files.items)) → (n : ℕ) × Follows capacity n files.items index.entries removed)) }
    ensures err { OnErr result ((removed : List (List ℕ)) × Does (gone removed) (D.state disk.old) (D.state disk.new) × (IsDistinct bytes_eq (keys_of (pairs_of files.items)) → (n : ℕ) × Needed capacity n (pairs_of files.items) × (removed ≡ firsts n (pairs_of files.items)))) }
    ensures keys { IfOk result (λ index. AreKeys index.entries) }
    ensures capacity { IfOk result (λ index. index.capacity ≡ capacity) }
    ensures cause { IfErr result (DiskRefusal (D.state disk.old).faults (D.state disk.new).faults) }
{
    let mut index = LruCache::with_meter(alloc, capacity, FileSize);
    for file in files {
        admit(disk, &mut index, file)?;
    }
    Ok(index)
}

// The index of a disk's files, once the others are removed.
fn open_files<D: Disk>(disk: &mut D, alloc: Global, capacity: u64) -> Result<Index, Error>
    ensures ok { IfOk result (λ index. Reopens capacity index.entries (D.state disk.old) (D.state disk.new)) }
    ensures err { OnErr result (RefusesOpening capacity (D.state disk.old) (D.state disk.new)) }
    ensures within { IfOk result (λ index. total size_of index.entries ≤ capacity) }
    ensures keys { IfOk result (λ index. AreKeys index.entries) }
    ensures capacity { IfOk result (λ index. index.capacity ≡ capacity) }
    ensures cause { IfErr result (DiskRefusal (D.state disk.old).faults (D.state disk.new).faults) }
{
    let all = disk.list()?.into_vec();
    let mut files = keep_files(disk, alloc, capacity, all)?;
    files.sort()?;
    let index = index_files(disk, alloc, capacity, files)?;
    let _within = index.size();
    Ok(index)
}

impl<D: Disk> LruDiskCache<D> {
    /// Opens a store on a disk: removes the temporaries and the files over the capacity `size`, and indexes the others in
    /// the order of their moments, then of their paths. The first ones go where all take more than the capacity. A refusal
    /// hands the disk back.
    pub fn new(
        alloc: Global,
        disk: D,
        size: u64,
        _now: u64,
    ) -> Result<LruDiskCache<D>, OpenError<D>>
        ensures reopened { IfOk result (λ c. IfTold (D.state disk).told (λ r. IsReopened size (files_now r) c.index)) }
        ensures ok { IfOk result (λ c. Reopens size c.index (D.state disk) c.disk) }
        ensures capacity { IfOk result (λ c. c.capacity ≡ size) }
        ensures pending { IfOk result (λ c. c.pending.slots ≡ []) }
        ensures tidy { IfOk result IsTidy }
        ensures err { IfErr result (λ refused. RefusesOpening size (D.state disk) (D.state refused.disk)) }
        ensures cause { IfErr result (λ refused. DiskRefusal (D.state disk).faults (D.state refused.disk).faults refused.error) }
    {
        let mut disk = disk;
        match open_files(&mut disk, alloc, size) {
            Ok(index) => Ok(LruDiskCache {
                alloc,
                index,
                pending: Slab::new(alloc),
                held: 0,
                capacity: size,
                disk,
            }),
            Err(error) => Err(OpenError { error, disk }),
        }
    }
}
