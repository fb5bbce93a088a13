//! The call of a store of files that stores what its caller writes.
ghost use Rattle.std.specs.Prelude.{◌≡◌, ◌⊎◌, ℕ, Bool, List, Result, IfErr, OnOk};
ghost use Rattle.sc_disk.specs.Inserting.{Fills};
ghost use Rattle.sc_disk.specs.Store.{IsOpen, IsTidy, SameEntries, reserved};
ghost use Rattle.sc_disk.specs.Writing.{LetsGo, RefusesWriting, StoresWritten};

use crate::add_entry::LruDiskCacheAddEntry;
use crate::disk::Disk;
use crate::entry_file::EntryFile;
use crate::error::Error;
use crate::file_key::FileKey;
use crate::lru_disk_cache::LruDiskCache;

/// Who writes a file that a store stores. It fills the file's open entry, and does nothing else to the store.
pub trait FileWriter: Drop {
    /// Why it doesn't write the file.
    type Refusal: Drop;

    /// What it answers, and the pieces that it wrote, of which the newest stands first.
    ghost wrote: { Self → Result (Unit {0}) Self.Refusal → List (List ℕ) → Type 0 };

    /// Writes the file. What was written before a refusal goes with the entry.
    fn write<D: Disk>(self, file: &mut EntryFile<'_, D>) -> Result<(), Self::Refusal>
        requires { IsOpen file.old.store.now file.old.opened.now }
        ensures same_store { file.new.store.ghost_name ≡ file.old.store.ghost_name }
        ensures fills { (pieces : List (List ℕ)) × wrote self result pieces × Fills file.old.opened.now pieces file.old.store.now file.new.store.now };
}

/// Why a file isn't stored that its caller writes.
#[derive(Clone, Copy, Debug, Drop, PartialEq, Eq)]
pub enum InsertError<E> {
    /// The store refused.
    Store(Error),
    /// Who writes the file refused.
    Writer(E),
}

impl<D: Disk> LruDiskCache<D> {
    // Lends an open entry's writer.
    fn write_with<F: FileWriter>(
        &mut self,
        entry: &LruDiskCacheAddEntry,
        f: F,
    ) -> Result<(), F::Refusal>
        requires { IsOpen self.old entry.now }
        ensures { (pieces : List (List ℕ)) × F.wrote f result pieces × Fills entry.now pieces self.old self.new }
    {
        let mut file = self.as_file_mut(entry);
        f.write(&mut file)
    }

    // Closes an entry whose writer refused, and removes its temporary. Want of memory takes the place of the refusal.
    fn let_go<E: Drop>(&mut self, entry: LruDiskCacheAddEntry, refused: E) -> InsertError<E>
        requires { IsOpen self.old entry }
        ensures { (removes : Bool) × LetsGo refused result removes entry self.old self.new }
    {
        match self.abandon(entry) {
            Err(Error::NoMemory) => InsertError::Store(Error::NoMemory),
            _ => InsertError::Writer(refused),
        }
    }

    /// Stores what `f` writes under a key, which declares no size: opens an entry, lends its writer to `f`, and commits it.
    /// What `f` refuses for is handed back. The entry is closed also by a refusal, which removes its temporary.
    pub fn insert_with<F: FileWriter>(
        &mut self,
        key: &FileKey,
        f: F,
        now: u64,
    ) -> Result<(), InsertError<F::Refusal>>
        ensures ok { OnOk result (StoresWritten (F.wrote f) key.now now self.old self.new) }
        ensures err { IfErr result (λ told. RefusesWriting (F.wrote f) told key.now now self.old self.new) }
        ensures entries { SameEntries self.old self.new }
        ensures reserved { reserved self.new ≡ reserved self.old }
        ensures capacity { self.new.capacity ≡ self.old.capacity }
        ensures tidy { OnOk result (IsTidy self.old → IsTidy self.new) }
    {
        let entry = match self.prepare_add(key, 0, now) {
            Ok(entry) => entry,
            Err(refused) => return Err(InsertError::Store(refused)),
        };
        match self.write_with(&entry, f) {
            Ok(()) => match self.commit(entry, now) {
                Ok(()) => Ok(()),
                Err(refused) => Err(InsertError::Store(refused)),
            },
            Err(refused) => Err(self.let_go(entry, refused)),
        }
    }
}
