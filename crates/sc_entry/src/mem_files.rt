ghost use Rattle.std.specs.Prelude.{◌≡◌, ◌≤◌, ◌↔◌, ◌⊎◌, true, [], Option, Some, None, Err, IfOk, OnOk, OnErr};
ghost use Rattle.sc_entry.specs.FileMaps.{FileMap, file_map_of, file_at, ReadsFile, Places, FileCause};
ghost use Rattle.sc_entry.specs.Causes.{Told};
ghost use Rattle.sc_entry.specs.Failing.{fails_at, one_more};
ghost use Rattle.sc_entry.specs.declared.file_error.FileError.TheVariants as file_errors;

use crate::byte_text::ByteText;
use crate::calls::Calls;
use crate::file_error::FileError;
use crate::files::{FileContent, Files};
use std::alloc::Global;
use std::collections::BTreeMap;

/// Files in memory. They refuse the calls whose numbers are to fail, and reads of absent files, and nothing else.
#[derive(Drop)]
pub struct MemFiles {
    alloc: Global,
    by_path: BTreeMap<ByteText, FileContent>,
    calls: Calls,
}

impl MemFiles {
    /// No file stands anywhere.
    pub fn new(alloc: Global, calls: Calls) -> MemFiles
        ensures held { result.by_path.entries ≡ [] }
        ensures calls { result.calls ≡ calls }
    {
        MemFiles {
            alloc,
            by_path: BTreeMap::new(alloc),
            calls,
        }
    }
}

impl Files for MemFiles {
    ghost held = { λ f. Some (file_map_of f.by_path.entries) };

    ghost fault_count = { λ f. f.calls.faults };

    fn faults(&self) -> u64 {
        self.calls.faults()
    }

    fn read(&mut self, path: &ByteText) -> Result<FileContent, FileError>
        ensures told { IfOk result (ReadsFile (Some (file_map_of self.old.by_path.entries)) path.now) }
        ensures same { ◌≡◌ {A = Option FileMap} (Some (file_map_of self.new.by_path.entries)) (Some (file_map_of self.old.by_path.entries)) }
        ensures later { self.old.calls.faults ≤ self.new.calls.faults }
        ensures cause { FileCause self.old.calls.faults self.new.calls.faults result }

        // It refuses exactly the listed calls, and those for an absent file.
        ensures made { self.new.calls.made ≡ one_more self.old.calls.made }
        ensures listed { (fails_at self.old.calls self.new.calls.made ≡ true) → result ≡ Err file_errors.FileFault }
        ensures absent { (file_at (file_map_of self.old.by_path.entries) path.now ≡ None) → result ≡ Err file_errors.FileFault }
        ensures only { (result ≡ Err file_errors.FileFault) → (fails_at self.old.calls self.new.calls.made ≡ true) ⊎ (file_at (file_map_of self.old.by_path.entries) path.now ≡ None) }
    {
        if self.calls.fails_next() {
            return Err(FileError::FileFault);
        }
        match self.by_path.get(path) {
            Some(content) => {
                let content = content.clone()?;
                Ok(content)
            }
            None => {
                self.calls.refuse();
                Err(FileError::FileFault)
            }
        }
    }

    fn place(&mut self, path: &ByteText, bytes: &[u8], mode: Option<u32>) -> Result<(), FileError>
        ensures told { OnOk result (Told (Places path.now (record { bytes = bytes.now; mode = mode })) (Some (file_map_of self.old.by_path.entries)) (Some (file_map_of self.new.by_path.entries))) }
        ensures refused { OnErr result (◌≡◌ {A = Option FileMap} (Some (file_map_of self.new.by_path.entries)) (Some (file_map_of self.old.by_path.entries))) }
        ensures later { self.old.calls.faults ≤ self.new.calls.faults }
        ensures cause { FileCause self.old.calls.faults self.new.calls.faults result }

        // It refuses exactly the listed calls.
        ensures made { self.new.calls.made ≡ one_more self.old.calls.made }
        ensures listed { (result ≡ Err file_errors.FileFault) ↔ (fails_at self.old.calls self.new.calls.made ≡ true) }
    {
        if self.calls.fails_next() {
            return Err(FileError::FileFault);
        }
        let content = FileContent {
            bytes: ByteText::from_slice(self.alloc, bytes)?,
            mode,
        };
        let path = path.clone()?;
        self.by_path.insert(path, content)?;
        Ok(())
    }
}
