//! Paths of the files of a store.
ghost use Rattle.std.specs.Prelude.{◌≡◌, ◌-◌, ◌==◌, IfOk, OnErr, length, slice_index_or};
ghost use Rattle.sc_disk.specs.Paths.{FindsPath, abs_path, has_path};
ghost use Rattle.sc_disk.specs.Store.{IsTidy};

use crate::disk::Disk;
use crate::file_key::FileKey;
use crate::file_name::is_file_key;
use crate::lru_disk_cache::LruDiskCache;
use sc_entry::{ByteText, NoMemory};

/// Whether a path can follow a root at once.
fn is_root(root: &[u8]) -> bool
    ensures { result ≡ (slice_index_or root.now (length root.now - 1) 47 == 47) }
{
    root.is_empty() || root[root.len() - 1] == b'/'
}

impl<D: Disk> LruDiskCache<D> {
    fn has_path(&self, key: &FileKey) -> bool
        ensures { result ≡ has_path key.now self.now.index }
    {
        is_file_key(key.as_text()) && self.contains_key(key)
    }

    fn abs_path(&self, key: &FileKey) -> Result<ByteText, NoMemory>
        ensures { IfOk result (λ path. path ≡ abs_path self.now.disk.root key.now) }
    {
        let root = self.disk.root().as_slice();
        let mut path = ByteText::from_slice(self.alloc, root)?;
        if !is_root(root) {
            path.push(b'/')?;
        }
        path.append(key.as_text().as_bytes())?;
        Ok(path)
    }

    /// Where a key's file stands: the disk's root, then the key. The key becomes the most recently used in memory alone: its
    /// file keeps its moment. A text that is no file key, or isn't indexed, has none.
    pub fn get_abs_path(&mut self, key: &FileKey) -> Result<Option<ByteText>, NoMemory>
        ensures path { IfOk result (λ path. FindsPath key.now path self.old self.new) }
        ensures err { OnErr result (self.new.index ≡ self.old.index) }
        ensures pending { self.new.pending ≡ self.old.pending }
        ensures capacity { self.new.capacity ≡ self.old.capacity }
        ensures disk { self.new.disk ≡ self.old.disk }
        ensures tidy { IsTidy self.old → IsTidy self.new }
    {
        if !self.has_path(key) {
            return Ok(None);
        }
        let path = self.abs_path(key)?;
        self.use_key(key);
        Ok(Some(path))
    }
}
