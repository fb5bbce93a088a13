//! What every store of two folders keeps.
ghost use Rattle.std.specs.Prelude.{◌≡◌, ◌<◌, ◌^◌, ℕ, List, true, bytes_eq, length};
ghost use Rattle.std.specs.List.{IsDistinct};
ghost use Rattle.std.specs.Map.{keys_of};
ghost use Rattle.sc_entry.specs.Causes.{IfTold};
ghost use Rattle.sc_disk.specs.Disks.{files_now, has_place};
ghost use Rattle.sc_disk.specs.Sound.{IsSound};
ghost use Rattle.sc_disk_pair.specs.Parts.{ArePlaced, in_part};

use crate::pair_cache::PairCache;
use crate::part::Part;
use sc_disk::Disk;

impl<D: Disk> PairCache<D> {
    /// What the store keeps, after each call and also after a refusal: it takes at most its capacity, its files are the
    /// indexed ones beside the temporaries of open entries, no key is indexed twice, entries' numbers are `u64`s, each file
    /// is of one of the parts, and there is a place for every path of a part.
    pub fn keeps(&self)
        ensures sound { IsSound self.now.store }
        ensures distinct { IsDistinct bytes_eq (keys_of self.now.store.index) }
        ensures numbers { length self.now.store.pending.slots < 2 ^ 64 }
        ensures divided { self.now.store.disk.divided ≡ true }
        ensures placed { IfTold self.now.store.disk.told (λ r. ArePlaced (files_now r)) }
        ensures places { (part : Part) → (key : List ℕ) → has_place self.now.store.disk (in_part part key) ≡ true }
    {
        self.store.keeps();
        let disks = self.disks();
        let _joint = disks.disk(Part::Main);
    }
}
