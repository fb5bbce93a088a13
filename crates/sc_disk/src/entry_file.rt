//! The writer of an open entry.
ghost use Rattle.std.specs.Prelude.{◌≡◌, ◌∷◌, [], IfErr, OnOk, OnErr};
ghost use Rattle.sc_disk.specs.Disks.{DoesPart};
ghost use Rattle.sc_disk.specs.Inserting.{Fills, Only};
ghost use Rattle.sc_disk.specs.Store.{temporary_of};
ghost use Rattle.sc_disk.specs.Refusals.{DiskRefusal};
ghost use Rattle.sc_disk.specs.Store.{IsOpen, IsTidy};

use crate::add_entry::LruDiskCacheAddEntry;
use crate::disk::Disk;
use crate::error::Error;
use crate::lru_disk_cache::LruDiskCache;

/// The writer of an open entry of a store: what is written goes to the end of the entry's temporary.
///
/// It has no model, so that a contract can follow the loan: a clause sees the store as `store.now`, and the entry as
/// `opened.now`.
#[derive(Drop)]
pub struct EntryFile<'a, D: Disk> {
    store: &'a mut LruDiskCache<D>,
    opened: &'a LruDiskCacheAddEntry,
}

impl<D: Disk> LruDiskCache<D> {
    /// The writer of an open entry. It adds to the end of the entry's temporary, as `fill` does.
    pub fn as_file_mut<'a>(&'a mut self, entry: &'a LruDiskCacheAddEntry) -> EntryFile<'a, D>
        requires { IsOpen self.old entry.now }
        ensures same_store { result.store.ghost_name ≡ self.entry.ghost_name }
        ensures store { result.store.now ≡ self.old }
        ensures opened { result.opened.now ≡ entry.now }
    {
        EntryFile {
            store: self,
            opened: entry,
        }
    }
}

impl<'a, D: Disk> EntryFile<'a, D> {
    /// Adds bytes at the end of the entry's temporary. A refused call may leave a front of them there.
    pub fn write_all(&mut self, bytes: &[u8]) -> Result<(), Error>
        requires { IsOpen self.old.store.now self.old.opened.now }
        ensures same_store { self.new.store.ghost_name ≡ self.old.store.ghost_name }
        ensures opened { self.new.opened.now ≡ self.old.opened.now }
        ensures is_open { IsOpen self.new.store.now self.new.opened.now }
        ensures ok { OnOk result (Fills self.old.opened.now (bytes.now ∷ []) self.old.store.now self.new.store.now) }
        ensures err { OnErr result (Only (DoesPart (temporary_of self.old.opened.now) bytes.now) self.old.store.now self.new.store.now) }
        ensures cause { IfErr result (DiskRefusal self.old.store.now.disk.faults self.new.store.now.disk.faults) }
        ensures tidy { IsTidy self.old.store.now → IsTidy self.new.store.now }
    {
        self.store.fill(self.opened, bytes)?;
        Ok(())
    }
}
