//! The files of a disk in memory.
ghost use Rattle.std.specs.Prelude.{◌≡◌, IfOk, OnOk, OnErr};
ghost use Rattle.std.specs.Option.{option_copied};
ghost use Rattle.std.specs.FinMap as map;
ghost use Rattle.sc_disk.specs.Disks.{no_disk_files, disk_file_at, listing, with_disk_file};

use crate::disk::Listed;
use crate::disk_file::DiskFile;
use sc_entry::{Items, NoMemory, Text};
use std::alloc::Global;
use std::collections::BTreeMap;
use std::marker::Model;

/// Files by path. Contracts see them as a finite map.
#[derive(Drop)]
pub(crate) struct FileTable {
    alloc: Global,
    by_path: BTreeMap<Text, DiskFile>,
}

impl Model for FileTable {
    ghost use Rattle.sc_disk.specs.Disks.{DiskFiles};
    ghost use Rattle.sc_disk.specs.Memory.{disk_files_code, disk_files_of};

    ghost Value = { DiskFiles };

    ghost coded = { disk_files_code };

    ghost view = { λ t. disk_files_of t.by_path.entries };
}

impl FileTable {
    /// No file stands anywhere.
    pub(crate) fn new(alloc: Global) -> FileTable
        ensures { result ≡ no_disk_files }
    {
        FileTable {
            alloc,
            by_path: BTreeMap::new(alloc),
        }
    }

    /// A path's file.
    pub(crate) fn get(&self, path: &Text) -> Option<&DiskFile>
        ensures { option_copied result ≡ disk_file_at self.now path.now }
    {
        self.by_path.get(path)
    }

    /// All files, their paths ascending by their bytes.
    pub(crate) fn list(&self) -> Result<Items<Listed>, NoMemory>
        ensures { IfOk result (λ all. all ≡ listing self.now) }
    {
        let mut all = Vec::new(self.alloc);
        for (path, file) in self.by_path.iter() {
            all.push(Listed {
                path: path.clone()?,
                size: file.bytes.len() as u64,
                moment: file.moment,
            })?;
        }
        Ok(Items::from_vec(all))
    }

    /// Puts a file at a path, in place of any that stood there.
    pub(crate) fn put(&mut self, path: Text, file: DiskFile) -> Result<(), NoMemory>
        ensures ok { OnOk result (self.new ≡ map.insert self.old path file) }
        ensures err { OnErr result (self.new ≡ self.old) }
    {
        self.by_path.insert(path, file)?;
        Ok(())
    }

    /// Takes a path's file away, if one stands there.
    pub(crate) fn remove(&mut self, path: &Text)
        ensures { self.new ≡ map.remove self.old path.now }
    {
        self.by_path.remove(path);
    }

    /// Moves a file to another path, in place of any that stood there. Without a file there nothing moves.
    pub(crate) fn rename(&mut self, from: &Text, to: Text) -> Result<(), NoMemory>
        ensures ok { OnOk result (self.new ≡ with_disk_file (map.remove self.old from.now) to (disk_file_at self.old from.now)) }
        ensures err { OnErr result (self.new ≡ self.old) }
    {
        let Some(file) = self.get(from) else {
            return Ok(());
        };
        if *from == to {
            return Ok(());
        }
        let file = file.clone()?;
        self.put(to, file)?;
        self.remove(from);
        Ok(())
    }
}
