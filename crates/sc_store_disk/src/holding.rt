//! How much a disk store holds, also before it is opened.
ghost use Rattle.std.specs.Prelude.{◌≡◌, ◌+◌, None, true, length, IfOk};
ghost use Rattle.sc_disk.specs.Opening.{pairs_of};
ghost use Rattle.sc_disk.specs.Store.{size_of};
ghost use Rattle.sc_store_disk.specs.DiskStores.{bare_disk, count_of, held_disk};
ghost use Rattle.sc_store_disk.specs.Reopened.{IsReopenedSize};
ghost use Rattle.sc_lru.specs.LruCache.{suffix_within, total};
ghost use Rattle.sc_model.specs.Evicting.{part_size};

use crate::entry_cache::EntryCache;
use sc_disk::{Listed, MemDisk, is_kept};
use sc_disk_pair::Part;
use sc_entry::NoMemory;

/// How much a disk store holds.
#[derive(Clone, Copy, Debug, Drop, PartialEq, Eq)]
pub struct HeldSize {
    /// What its files and its open entries take.
    pub bytes: u64,
    /// How many files of both folders it has.
    pub files: usize,
}

impl EntryCache<MemDisk> {
    /// How many bytes its files and open entries take, and how many files there are. Of a store that isn't opened, of the
    /// files that an opening would keep.
    pub fn held_size(&self) -> Result<HeldSize, NoMemory>
        ensures bytes { (held_disk self.now).told ≡ true → IfOk result (λ n. n.bytes ≡ part_size (held_disk self.now).level + (held_disk self.now).reserved) }
        ensures files { (held_disk self.now).told ≡ true → IfOk result (λ n. n.files ≡ count_of (held_disk self.now).level.main + count_of (held_disk self.now).level.pre) }
    {
        match self.pair.peek() {
            Some(cache) => {
                cache.keeps();
                Ok(HeldSize {
                    bytes: cache.size(),
                    files: cache.len(),
                })
            }
            None => self.unopened_size(),
        }
    }

    // The size of a store that isn't opened.
    fn unopened_size(&self) -> Result<HeldSize, NoMemory>
        requires { self.now.pair.opened ≡ None }
        ensures bytes { (bare_disk self.now).told ≡ true → IfOk result (λ n. n.bytes ≡ part_size (bare_disk self.now).level + (bare_disk self.now).reserved) }
        ensures files { (bare_disk self.now).told ≡ true → IfOk result (λ n. n.files ≡ count_of (bare_disk self.now).level.main + count_of (bare_disk self.now).level.pre) }
    {
        let Some(disks) = self.pair.disks() else {
            unreachable!()
        };
        // Says that the files that both tell as one are those of each.
        let _joint = disks.disk(Part::Main);
        let all = disks.files()?.into_vec();
        let size = reopened_size(self.pair.capacity(), all)?;
        Ok(size)
    }
}

// How much of these files an opening keeps.
fn reopened_size(capacity: u64, all: Vec<Listed>) -> Result<HeldSize, NoMemory>
    ensures { IfOk result (λ n. IsReopenedSize capacity all.items n) }
{
    let mut files = all;
    files.retain(|file| is_kept(file, capacity));
    files.sort()?;
    Ok(newest_within(capacity, files))
}

// How much the longest end of a list of files takes that fits.
fn newest_within(capacity: u64, files: Vec<Listed>) -> HeldSize
    ensures bytes { result.bytes ≡ total size_of (suffix_within size_of capacity (pairs_of files.items)) }
    ensures files { result.files ≡ length (suffix_within size_of capacity (pairs_of files.items)) }
{
    let mut files = files;
    let mut held = HeldSize { bytes: 0, files: 0 };
    while let Some(file) = files.pop() {
        if file.size > capacity - held.bytes {
            return held;
        }
        held.bytes += file.size;
        held.files += 1;
    }
    held
}
