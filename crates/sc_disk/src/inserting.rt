//! Calls of a store of files that store a whole file.
ghost use Rattle.std.specs.Prelude.{◌≡◌, ℕ, Bool, ◌∷◌, [], List, IfErr, OnOk, OnErr, length};
ghost use Rattle.sc_disk.specs.Disks.{Adopts, AdoptsPart, Does, DoesPart, HasOutside};
ghost use Rattle.sc_disk.specs.Inserting.{GivesUp, Inserts, Only, RefusesInsert};
ghost use Rattle.sc_disk.specs.Refusals.{DiskRefusal};
ghost use Rattle.sc_disk.specs.Store.{IsOpen, IsTidy, SameEntries, reserved, temporary_of};
ghost use Rattle.sc_disk.specs.declared.change.Change.TheVariants.{Added};

use crate::add_entry::LruDiskCacheAddEntry;
use crate::disk::Disk;
use crate::error::Error;
use crate::file_key::FileKey;
use crate::lru_disk_cache::LruDiskCache;
use sc_entry::ByteText;

impl<D: Disk> LruDiskCache<D> {
    // Closes an entry after a refusal, and removes its temporary. Want of memory takes the place of the cause.
    fn give_up(&mut self, entry: LruDiskCacheAddEntry, refused: Error) -> Error
        requires { IsOpen self.old entry }
        ensures { (removes : Bool) × GivesUp refused result removes entry self.old self.new }
    {
        let _pending = self.close(&entry);
        self.undo(&entry, refused)
    }

    // Adds the bytes of an outside file at the end of an open entry's temporary.
    fn adopt(&mut self, entry: &LruDiskCacheAddEntry, outside: &ByteText) -> Result<(), Error>
        requires { IsOpen self.old entry.now }
        ensures ok { OnOk result (Only (Adopts outside.now (temporary_of entry.now)) self.old self.new) }
        ensures err { OnErr result (Only (AdoptsPart outside.now (temporary_of entry.now)) self.old self.new) }
        ensures opened { IsOpen self.new entry.now }
        ensures cause { IfErr result (DiskRefusal self.old.disk.faults self.new.disk.faults) }
        ensures tidy { IsTidy self.old → IsTidy self.new }
    {
        self.disk.adopt(outside, &entry.path)?;
        Ok(())
    }

    /// Stores bytes under a key: opens an entry for their number, fills it and commits it. The entry is closed also by a
    /// refusal, which removes its temporary.
    pub fn insert_bytes(&mut self, key: &FileKey, bytes: &[u8], now: u64) -> Result<(), Error>
        ensures ok { OnOk result ((number : ℕ) × (n : ℕ) × (r : ℕ) × (m : ℕ) × Inserts key.now (bytes.now ∷ []) (length bytes.now) now number n r m self.old self.new) }
        ensures err { IfErr result (λ refused. RefusesInsert refused key.now (length bytes.now) now (λ e. DoesPart (temporary_of e) bytes.now) (λ e. Does (Added (temporary_of e) bytes.now ∷ [])) self.old self.new) }
        ensures entries { SameEntries self.old self.new }
        ensures reserved { reserved self.new ≡ reserved self.old }
        ensures capacity { self.new.capacity ≡ self.old.capacity }
        ensures tidy { OnOk result (IsTidy self.old → IsTidy self.new) }
    {
        let entry = self.prepare_add(key, bytes.len() as u64, now)?;
        match self.fill(&entry, bytes) {
            Ok(()) => self.commit(entry, now),
            Err(refused) => Err(self.give_up(entry, refused)),
        }
    }

    /// Stores the bytes of an outside file under a key, which declares none: opens an entry, adopts the file and commits the
    /// entry. The outside file stays. The entry is closed also by a refusal, which removes its temporary.
    pub fn insert_file(&mut self, key: &FileKey, outside: &ByteText, now: u64) -> Result<(), Error>
        ensures ok { OnOk result ((bytes : List ℕ) × HasOutside outside.now bytes self.old.disk × (number : ℕ) × (n : ℕ) × (r : ℕ) × (m : ℕ) × Inserts key.now (bytes ∷ []) 0 now number n r m self.old self.new) }
        ensures err { IfErr result (λ refused. RefusesInsert refused key.now 0 now (λ e. AdoptsPart outside.now (temporary_of e)) (λ e. Adopts outside.now (temporary_of e)) self.old self.new) }
        ensures entries { SameEntries self.old self.new }
        ensures reserved { reserved self.new ≡ reserved self.old }
        ensures capacity { self.new.capacity ≡ self.old.capacity }
        ensures tidy { OnOk result (IsTidy self.old → IsTidy self.new) }
    {
        let entry = self.prepare_add(key, 0, now)?;
        match self.adopt(&entry, outside) {
            Ok(()) => self.commit(entry, now),
            Err(refused) => Err(self.give_up(entry, refused)),
        }
    }
}
