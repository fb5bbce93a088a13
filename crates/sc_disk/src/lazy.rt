//! A store of files that is opened when it is first needed.
ghost use Rattle.std.specs.Prelude.{◌≡◌, true, false, ◌||◌, is_some, Some, None, IfErr, IfSome, OnOk};
ghost use Rattle.std.specs.Option.{option_copied_mut};
ghost use Rattle.sc_disk.specs.Lazy.{IsOpened};
ghost use Rattle.sc_disk.specs.Opening.{RefusesOpening};
ghost use Rattle.sc_disk.specs.Refusals.{DiskRefusal};

use crate::disk::Disk;
use crate::error::Error;
use crate::lru_disk_cache::LruDiskCache;
use sc_entry::ByteText;
use std::alloc::Global;

/// A store of files that is opened when it is first needed. A refused opening leaves its disk, so the next use opens it anew.
///
/// A clause sees the store as `opened` once it is opened, and its disk as `disk` until then.
#[derive(Drop)]
pub struct LazyDiskCache<D: Disk> {
    alloc: Global,
    max_size: u64,
    disk: Option<D>,
    opened: Option<LruDiskCache<D>>,
    ghost one: { (is_some disk || is_some opened) ≡ true },
}

impl<D: Disk> LazyDiskCache<D> {
    /// A store of this capacity in bytes on a disk, which isn't opened yet.
    pub fn new(alloc: Global, disk: D, max_size: u64) -> LazyDiskCache<D>
        ensures disk { result.disk ≡ Some disk }
        ensures max_size { result.max_size ≡ max_size }
    {
        LazyDiskCache {
            alloc,
            max_size,
            disk: Some(disk),
            opened: None,
        }
    }

    /// Whether the store is opened.
    pub fn is_opened(&self) -> bool
        ensures opened { result ≡ is_some self.now.opened }
        ensures disk { result ≡ false → is_some self.now.disk ≡ true }
    {
        self.opened.is_some()
    }
}

impl<D: Disk + Drop> LazyDiskCache<D> {
    /// Opens the store, unless it is opened; `get` lends it then. A refusal leaves its disk.
    pub fn get_or_init(&mut self, now: u64) -> Result<(), Error>
        ensures opened { OnOk result (is_some self.new.opened ≡ true) }
        ensures same { is_some self.old.opened ≡ true → OnOk result (self.new.opened ≡ self.old.opened) }
        ensures ok { OnOk result ((was : D) → self.old.opened ≡ None → self.old.disk ≡ Some was → IfSome self.new.opened (λ c. IsOpened self.old.max_size (D.state was) c)) }
        ensures err { IfErr result (λ refused. (was : D) × (left : D) × (self.old.disk ≡ Some was) × (self.new.disk ≡ Some left) × RefusesOpening self.old.max_size (D.state was) (D.state left) × DiskRefusal (D.state was).faults (D.state left).faults refused) }
        ensures max_size { self.new.max_size ≡ self.old.max_size }
    {
        if self.opened.is_some() {
            return Ok(());
        }
        let Some(disk) = self.disk.take() else {
            unreachable!()
        };
        match LruDiskCache::new(self.alloc, disk, self.max_size, now) {
            Ok(cache) => {
                self.opened = Some(cache);
                Ok(())
            }
            Err(refused) => {
                self.disk = Some(refused.disk);
                Err(refused.error)
            }
        }
    }
}

impl<D: Disk> LazyDiskCache<D> {
    ghost use Rattle.std.specs.Borrow.{sem};
    ghost use Rattle.sc_disk.specs.LazyLends.{lends_opened};

    /// The store, once it is opened.
    pub fn get(&mut self) -> Option<&mut LruDiskCache<D>>
        ensures* writes_back { sem 𝓛 (lends_opened D.row D.Disk self.entry result) }
        ensures value { option_copied_mut result ≡ self.old.opened }
    {
        self.opened.as_mut()
    }

    /// The most bytes that the files may take.
    pub fn capacity(&self) -> u64
        ensures { result ≡ self.now.max_size }
    {
        self.max_size
    }

    /// The path that the files stand under.
    pub fn path(&self) -> &ByteText
        ensures opened { IfSome self.now.opened (λ c. result.now ≡ c.disk.root) }
        ensures disk { self.now.opened ≡ None → IfSome self.now.disk (λ d. result.now ≡ (D.state d).root) }
    {
        match &self.opened {
            Some(cache) => cache.path(),
            None => self.unopened(),
        }
    }

    // The path of the disk, while the store isn't opened.
    fn unopened(&self) -> &ByteText
        requires { self.now.opened ≡ None }
        ensures { IfSome self.now.disk (λ d. result.now ≡ (D.state d).root) }
    {
        match &self.disk {
            Some(disk) => disk.root(),
            None => unreachable!(),
        }
    }
}
