//! Opening a disk store when it is first needed.
ghost use Rattle.std.specs.Prelude.{◌≡◌, true, false, is_some, IfOk};
ghost use Rattle.sc_store_disk.specs.DiskStores.{bare_disk};
ghost use Rattle.sc_store_disk.specs.Marked.{marks_of};
ghost use Rattle.sc_store_disk.specs.Moving.{Steady};
ghost use Rattle.sc_entry.specs.Causes.{Rose};

use crate::entry_cache::EntryCache;
use sc_disk::{Disk, Error};
use sc_entry::NoMemory;

impl<D: Disk + Drop> EntryCache<D> {
    /// Opens the store, unless it is opened. False where its disks refuse.
    pub(crate) fn open(&mut self, now: u64) -> Result<bool, NoMemory>
        ensures steady { Steady (bare_disk self.old) (bare_disk self.new) }
        ensures marks { marks_of self.new ≡ marks_of self.old }
        ensures opened { IfOk result (λ ok. ok ≡ true → is_some self.new.pair.opened ≡ true) }
        ensures fault { IfOk result (λ ok. ok ≡ false → Rose (bare_disk self.old).level.faults (bare_disk self.new).level.faults × ((bare_disk self.new).level.opened ≡ false)) }
    {
        if self.pair.is_opened() {
            return Ok(true);
        }
        match self.pair.get_or_init(now) {
            Ok(()) => Ok(true),
            Err(Error::Io) => Ok(false),
            Err(_) => Err(NoMemory),
        }
    }
}
