//! What every store of files keeps.
ghost use Rattle.std.specs.Prelude.{◌<◌, ◌^◌, bytes_eq, length};
ghost use Rattle.std.specs.List.{IsDistinct};
ghost use Rattle.std.specs.Map.{keys_of};
ghost use Rattle.sc_disk.specs.Sound.{IsSound};

use crate::disk::Disk;
use crate::lru_disk_cache::LruDiskCache;

impl<D: Disk> LruDiskCache<D> {
    /// What the store keeps, after each call and also after a refusal: it takes at most its capacity, its files are the
    /// indexed ones beside the temporaries of open entries, no key is indexed twice, and entries' numbers are `u64`s.
    pub fn keeps(&self)
        ensures sound { IsSound self.now }
        ensures distinct { IsDistinct bytes_eq (keys_of self.now.index) }
        ensures numbers { length self.now.pending.slots < 2 ^ 64 }
    {
        let _distinct = self.index.len();
        let _numbers = self.pending.capacity();
        let _keys = self.capacity;
    }
}
