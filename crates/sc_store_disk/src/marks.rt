//! Marks of the files that a local run made.
ghost use Rattle.std.specs.Prelude.{◌≡◌, ℕ, List, None, IfOk, OnOk, OnErr, bytes_eq, false, true};
ghost use Rattle.sc_store_disk.specs.Marks as spec;
ghost use Rattle.sc_store_disk.specs.Marks.{Begins, Fills, Forgets, OtherFills, Sets, Settles, Sweeps, fills_of};

use indexmap::{IndexMap, IndexSet};
use sc_disk::{Disk, FileKey};
use sc_disk_pair::PairCache;
use sc_entry::NoMemory;
use std::alloc::Global;
use std::marker::Model;

/// Which files of a store a local run made, as far as the store was told, and the same of each open entry that was filled.
/// They are kept in memory alone.
#[derive(Drop)]
pub struct Marks {
    files: IndexSet<FileKey>,
    entries: IndexMap<usize, bool>,
}

impl Model for Marks {
    ghost use Rattle.sc_store_disk.specs.Marks.{Marks as Told, marks_code};

    ghost Value = { Told };

    ghost coded = { marks_code };

    ghost view = { λ m. record { files = m.files.keys; entries = m.entries.entries } };
}

/// The mark of an entry once it is filled: the first fill marks it where its flag says so, and every further one clears that.
fn after_fill(before: Option<bool>, from_run: bool) -> bool
    ensures { result ≡ spec.after_fill before from_run }
{
    match before {
        None => from_run,
        Some(_) => false,
    }
}

/// The mark of an entry. One that wasn't filled has none.
fn mark_of(fills: Option<bool>) -> bool
    ensures { result ≡ spec.mark_of fills }
{
    match fills {
        None => false,
        Some(marked) => marked,
    }
}

impl Marks {
    /// None, which allocates nothing until the first mark.
    pub fn new(alloc: Global) -> Marks
        ensures { result ≡ spec.no_marks }
    {
        Marks {
            files: IndexSet::new(alloc),
            entries: IndexMap::new(alloc),
        }
    }

    /// Whether the file at a path is marked.
    pub fn is_marked(&self, path: &FileKey) -> bool
        ensures { result ≡ spec.is_marked self.now path.now }
    {
        self.files.contains(path)
    }

    /// Marks a path.
    pub fn mark(&mut self, path: &FileKey) -> Result<(), NoMemory>
        ensures marked { OnOk result (Sets path.now true self.old self.new) }
        ensures err { OnErr result (self.new ≡ self.old) }
    {
        let copy = path.clone()?;
        let Ok(_) = self.files.insert(copy) else {
            return Err(NoMemory);
        };
        Ok(())
    }

    /// Takes a path's mark, where it has one.
    pub fn clear(&mut self, path: &FileKey)
        ensures { Sets path.now false self.old self.new }
    {
        let _was = self.files.swap_remove(path);
    }

    /// Takes an entry as one that wasn't filled.
    pub(crate) fn forget(&mut self, number: usize)
        ensures { Forgets number self.old self.new }
    {
        let _was = self.entries.swap_remove(&number);
    }

    /// Notes that an entry is filled, and whether a local run made the bytes.
    pub(crate) fn fill(&mut self, number: usize, from_run: bool) -> Result<(), NoMemory>
        ensures filled { OnOk result (Fills number from_run self.old self.new) }
        ensures err { OnErr result (self.new ≡ self.old) }
    {
        let before = self.fills(number);
        let marked = after_fill(before, from_run);
        let Ok(_) = self.entries.insert(number, marked) else {
            return Err(NoMemory);
        };
        Ok(())
    }

    /// Whether an open entry is marked, where it was filled.
    fn fills(&self, number: usize) -> Option<bool>
        ensures { result ≡ fills_of self.now number }
    {
        self.entries.get(&number).copied()
    }

    /// Marks a path, where the entry that is to be committed there is marked and the path isn't yet: memory may be wanting
    /// for that, and is not after the commit. Whether a mark was added.
    pub(crate) fn begin(&mut self, path: &FileKey, number: usize) -> Result<bool, NoMemory>
        ensures began { IfOk result (λ added. Begins path.now number added self.old self.new) }
        ensures err { OnErr result (self.new ≡ self.old) }
    {
        if !mark_of(self.fills(number)) || self.is_marked(path) {
            return Ok(false);
        }
        let copy = path.clone()?;
        let Ok(_) = self.files.insert(copy) else {
            return Err(NoMemory);
        };
        Ok(true)
    }

    /// Gives a path the mark of the entry that was committed there, once `begin` was done. The entry is closed.
    pub(crate) fn settle(&mut self, path: &FileKey, number: usize)
        requires { spec.mark_of (fills_of self.old number) ≡ true → spec.is_marked self.old path.now ≡ true }
        ensures { Settles path.now number self.old self.new }
    {
        let marked = mark_of(self.fills(number));
        let _was = self.entries.swap_remove(&number);
        if !marked {
            let _was = self.files.swap_remove(path);
        }
    }

    /// Takes a mark that `begin` added back, since its entry was not committed. The entry is closed.
    pub(crate) fn undo(&mut self, path: &FileKey, number: usize, added: bool)
        ensures none { fills_of self.new number ≡ None }
        ensures entries { OtherFills number self.old self.new }
        ensures kept { added ≡ false → self.new.files ≡ self.old.files }
        ensures removed { added ≡ true → spec.is_marked self.new path.now ≡ false }
        ensures others { (q : List ℕ) → bytes_eq path.now q ≡ false → spec.is_marked self.new q ≡ spec.is_marked self.old q }
    {
        let _was = self.entries.swap_remove(&number);
        if added {
            let _was = self.files.swap_remove(path);
        }
    }

    /// Whether so many paths are marked beside so many indexed ones that a part of them is worth a sweep.
    fn is_crowded(&self, indexed: usize) -> bool {
        self.files.len() / 2 > indexed.saturating_add(32)
    }

    /// Forgets the mark of the path at an index, where the path is neither indexed in the store nor the one to keep.
    fn sweep_at<D: Disk>(&mut self, cache: &PairCache<D>, keep: &FileKey, at: usize)
        ensures { Sweeps cache.now.store.index keep.now self.old self.new }
    {
        let Some(path) = self.files.get_index(at) else {
            return;
        };
        if cache.contains(path) || path == keep {
            return;
        }
        let _gone = self.files.swap_remove_index(at);
    }

    /// Forgets the marks of paths that aren't indexed in the store, but for this one, once there are so many of them that
    /// each costs nothing.
    pub(crate) fn sweep<D: Disk>(&mut self, cache: &PairCache<D>, keep: &FileKey)
        ensures { Sweeps cache.now.store.index keep.now self.old self.new }
    {
        if !self.is_crowded(cache.len()) {
            return;
        }
        let mut at = self.files.len();
        while at > 0 {
            at -= 1;
            self.sweep_at(cache, keep, at);
        }
    }
}
