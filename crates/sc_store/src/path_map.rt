ghost use Rattle.std.specs.Prelude.{◌≡◌, length, OnOk, OnErr};
ghost use Rattle.std.specs.Option.{option_copied};
ghost use Rattle.sc_model.specs.Levels.{no_files, find_file, put_file};
ghost use Rattle.sc_store.specs.Paths.{entries_of, told_size};

use sc_entry::{ByteText, NoMemory, Text};
use std::alloc::Global;
use std::collections::BTreeMap;
use std::marker::Model;

/// Bytes by path. Contracts see it as a finite map.
#[derive(Drop)]
pub struct PathMap {
    by_path: BTreeMap<Text, ByteText>,
}

impl Model for PathMap {
    ghost use Rattle.sc_model.specs.Levels.{Files};
    ghost use Rattle.sc_store.specs.Paths.{files_code, files_of};

    ghost Value = { Files };

    ghost coded = { files_code };

    ghost view = { λ m. files_of m.by_path.entries };
}

impl PathMap {
    /// Nothing stands at any path.
    pub fn new(alloc: Global) -> PathMap
        ensures { result ≡ no_files }
    {
        PathMap {
            by_path: BTreeMap::new(alloc),
        }
    }

    /// The bytes at a path.
    pub fn get(&self, path: &Text) -> Option<&ByteText>
        ensures { option_copied result ≡ find_file self.now path.now }
    {
        self.by_path.get(path)
    }

    /// How many paths there are.
    pub fn len(&self) -> usize
        ensures { result ≡ length (entries_of self.now) }
    {
        self.by_path.len()
    }

    /// All bytes together; the sum stops at the end of `u64`.
    pub fn size(&self) -> u64
        ensures { result ≡ told_size self.now }
    {
        let mut size: u64 = 0;
        for (_, bytes) in self.by_path.iter() {
            size = size.saturating_add(bytes.len() as u64);
        }
        size
    }

    /// Puts bytes at a path, in place of those that stood there.
    pub fn put(&mut self, path: Text, bytes: ByteText) -> Result<(), NoMemory>
        ensures ok { OnOk result (self.new ≡ put_file self.old path bytes) }
        ensures err { OnErr result (self.new ≡ self.old) }
    {
        self.by_path.insert(path, bytes)?;
        Ok(())
    }
}
