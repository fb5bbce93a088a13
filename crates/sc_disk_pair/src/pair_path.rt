//! Paths of the files of a store of two folders.
ghost use Rattle.std.specs.Prelude.{◌≡◌, ◌-◌, ◌==◌, ℕ, List, IfOk, OnErr, bytes_eq, length, slice_index_or};
ghost use Rattle.std.specs.Map.{lookup};
ghost use Rattle.sc_disk.specs.Paths.{abs_path};
ghost use Rattle.sc_disk.specs.Store.{IsTidy};
ghost use Rattle.sc_disk_pair.specs.Pairs.{FindsPath, root_of};

use crate::pair_cache::{PairCache, part_key};
use crate::part::Part;
use sc_disk::{Disk, FileKey};
use sc_entry::{ByteText, NoMemory};
use std::alloc::Global;

// Whether a path can follow a root at once.
fn ends_in_slash(root: &[u8]) -> bool
    ensures { result ≡ (slice_index_or root.now (length root.now - 1) 47 == 47) }
{
    root.is_empty() || root[root.len() - 1] == b'/'
}

// Where a key's file stands under a root.
fn path_under(alloc: Global, root: &ByteText, key: &FileKey) -> Result<ByteText, NoMemory>
    ensures { IfOk result (λ path. path ≡ abs_path root.now key.now) }
{
    let mut path = ByteText::from_slice(alloc, root.as_slice())?;
    if !ends_in_slash(root.as_slice()) {
        path.push(b'/')?;
    }
    path.append(key.as_text().as_bytes())?;
    Ok(path)
}

impl<D: Disk> PairCache<D> {
    /// Where a part's key's file stands: the root of its disk, then the key. The key becomes the most recently used of both
    /// parts in memory alone: its file keeps its moment. A text that is no file key, or isn't indexed, has none.
    pub fn get_abs_path(&mut self, part: Part, key: &FileKey) -> Result<Option<ByteText>, NoMemory>
        ensures path { IfOk result (λ path. FindsPath part key.now (root_of part self.old.store.disk.root self.old.pre_root) path self.old.store self.new.store) }
        ensures err { OnErr result (self.new.store.index ≡ self.old.store.index) }
        ensures sizes { (q : List ℕ) → lookup (bytes_eq q) self.new.store.index ≡ lookup (bytes_eq q) self.old.store.index }
        ensures pending { self.new.store.pending ≡ self.old.store.pending }
        ensures capacity { self.new.store.capacity ≡ self.old.store.capacity }
        ensures disk { self.new.store.disk ≡ self.old.store.disk }
        ensures tidy { IsTidy self.old.store → IsTidy self.new.store }
        ensures pre_root { self.new.pre_root ≡ self.old.pre_root }
    {
        self.keeps();
        let both = part_key(self.alloc, part, key)?;
        let path = path_under(self.alloc, self.path(part), key)?;
        match self.store.get_abs_path(&both)? {
            Some(_) => Ok(Some(path)),
            None => Ok(None),
        }
    }
}
