//! What does not change of a disk store.
ghost use Rattle.std.specs.Prelude.{◌≡◌, ◌+◌, ◌≤◌, false, codes};
ghost use Rattle.sc_store_disk.specs.DiskStores.{held_disk, indexed_bytes, unopened_store};
ghost use Rattle.sc_store_disk.specs.Marked.{marks_of};
ghost use Rattle.sc_store_disk.specs.Marks.{no_marks};
ghost use Rattle.sc_model.specs.Evicting.{part_size};
ghost use Rattle.sc_model.specs.Levels.{KeepsMarks};
ghost use Rattle.sc_model.specs.declared.level.LevelKind.TheVariants.{Disk as IsDisk};
ghost use Rattle.sc_disk_pair.specs.Twos.{joined_state, joins};

use crate::entry_cache::EntryCache;
use crate::marks::Marks;
use sc_disk::Disk;
use sc_disk_pair::{LazyPair, Part};
use sc_entry::{ByteText, CacheMode};
use std::alloc::Global;

impl<D: Disk> EntryCache<D> {
    /// A store on two disks, of entries and of preprocessor entries, whose files take at most `max_size` bytes together.
    /// It isn't opened yet.
    pub fn new(alloc: Global, main: D, pre: D, max_size: u64, mode: CacheMode) -> EntryCache<D>
        ensures held { held_disk result ≡ unopened_store mode max_size (joined_state (joins (D.state main) (D.state pre))) }
        ensures marks { marks_of result ≡ no_marks }
    {
        EntryCache {
            alloc,
            pair: LazyPair::new(alloc, main, pre, max_size),
            mode,
            marks: Marks::new(alloc),
        }
    }

    /// What every disk store keeps, after each call and also after a refusal: the bytes of the files of both folders that it
    /// indexes and those that open entries have declared are at most its capacity, whether or not its disks tell what they
    /// hold. The bytes of both maps and those that are declared are at most its capacity too. No path is marked at which no file
    /// stands.
    pub fn keeps(&self)
        ensures kind { (held_disk self.now).facts.kind ≡ IsDisk }
        ensures bare { (held_disk self.now).facts.wrapped ≡ false }
        ensures bound { indexed_bytes self.now + (held_disk self.now).reserved ≤ (held_disk self.now).facts.capacity }
        ensures marks { KeepsMarks (held_disk self.now).level (held_disk self.now).level }
        ensures within { part_size (held_disk self.now).level + (held_disk self.now).reserved ≤ (held_disk self.now).facts.capacity }
    {
        let _limit = self.mode;
        if let Some(cache) = self.pair.peek() {
            cache.keeps();
        }
    }

    /// The path that the files of the main part stand under.
    pub fn path(&self) -> &ByteText
        ensures { result.now ≡ (held_disk self.now).facts.root }
    {
        let _opened = self.pair.is_opened();
        self.pair.path(Part::Main)
    }

    /// The most bytes that the files of both folders may take.
    pub fn max_size(&self) -> u64
        ensures { result ≡ (held_disk self.now).facts.capacity }
    {
        self.pair.capacity()
    }

    /// The bytes that open entries have declared.
    pub fn reserved(&self) -> u64
        ensures { result ≡ (held_disk self.now).reserved }
    {
        let _limit = self.mode;
        match self.pair.peek() {
            Some(cache) => cache.reserved(),
            None => 0,
        }
    }

    /// What type of store it is, in a word.
    pub fn cache_type_name(&self) -> &str
        ensures { result.now ≡ codes "disk" }
    {
        "disk"
    }

    /// The mode that the store was made with.
    pub fn configured(&self) -> CacheMode
        ensures { result ≡ (held_disk self.now).facts.configured }
    {
        self.mode
    }

    /// The mode that holds: the one that the store was made with.
    pub fn mode(&self) -> CacheMode
        ensures { result ≡ (held_disk self.now).facts.mode }
    {
        self.mode
    }
}
