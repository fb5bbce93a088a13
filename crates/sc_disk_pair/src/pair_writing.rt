//! The call of a store of two folders that stores what its caller writes.
ghost use Rattle.std.specs.Prelude.{◌≡◌, ℕ, IfErr, OnOk};
ghost use Rattle.sc_disk.specs.Store.{IsTidy, SameEntries, reserved};
ghost use Rattle.sc_disk.specs.Writing.{RefusesWriting, StoresWritten};
ghost use Rattle.sc_disk_pair.specs.Pairs.{Files};
ghost use Rattle.sc_disk_pair.specs.Parts.{in_part};

use crate::pair_cache::{PairCache, part_key};
use crate::part::Part;
use sc_disk::{Disk, Error, FileKey, FileWriter, InsertError};

impl<D: Disk> PairCache<D> {
    /// Stores what `f` writes under a part's key, as `LruDiskCache` does. Files of both parts are evicted for it.
    pub fn insert_with<F: FileWriter>(
        &mut self,
        part: Part,
        key: &FileKey,
        f: F,
        now: u64,
    ) -> Result<(), InsertError<F::Refusal>>
        ensures ok { OnOk result (StoresWritten (F.wrote f) (in_part part key.now) now self.old.store self.new.store) }
        ensures files { OnOk result ((r : ℕ) × Files part key.now r self.old.store self.new.store) }
        ensures err { IfErr result (λ told. RefusesWriting (F.wrote f) told (in_part part key.now) now self.old.store self.new.store) }
        ensures entries { SameEntries self.old.store self.new.store }
        ensures reserved { reserved self.new.store ≡ reserved self.old.store }
        ensures capacity { self.new.store.capacity ≡ self.old.store.capacity }
        ensures tidy { OnOk result (IsTidy self.old.store → IsTidy self.new.store) }
        ensures pre_root { self.new.pre_root ≡ self.old.pre_root }
    {
        let Ok(both) = part_key(self.alloc, part, key) else {
            return Err(InsertError::Store(Error::NoMemory));
        };
        let _divided = self.store.disk();
        self.store.insert_with(&both, f, now)
    }
}
