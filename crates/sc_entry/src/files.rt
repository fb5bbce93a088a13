ghost use Rattle.std.specs.Prelude.{◌≡◌, ◌≤◌, ℕ, Option, IfOk, OnOk, OnErr};
ghost use Rattle.sc_entry.specs.Causes.{Told};
ghost use Rattle.sc_entry.specs.FileMaps.{FileMap, ReadsFile, Places, FileCause};

use crate::byte_text::ByteText;
use crate::file_error::FileError;
use std::alloc::AllocError;

/// What stands at a path.
#[derive(Debug, Drop)]
pub struct FileContent {
    pub bytes: ByteText,
    /// The file's permission bits, where they are known.
    pub mode: Option<u32>,
}

impl Clone for FileContent {
    ghost is_clone = { λ original copy. copy ≡ original };

    fn clone(&self) -> Result<FileContent, AllocError> {
        Ok(FileContent {
            bytes: self.bytes.clone()?,
            mode: self.mode,
        })
    }
}

/// Files that are read and placed by their paths.
pub trait Files {
    /// What stands at each path, where they tell it. No call changes whether they tell.
    ghost held: { Self → Option FileMap };

    /// How often they refused.
    ghost fault_count: { Self → ℕ };

    /// How often they refused. The count never falls.
    fn faults(&self) -> u64
        ensures { result ≡ fault_count self.now };

    /// What stands at a path.
    fn read(&mut self, path: &ByteText) -> Result<FileContent, FileError>
        ensures told { IfOk result (ReadsFile (held self.old) path.now) }
        ensures same { held self.new ≡ held self.old }
        ensures later { fault_count self.old ≤ fault_count self.new }
        ensures cause { FileCause (fault_count self.old) (fault_count self.new) result };

    /// Puts a file at a path, in place of what stood there.
    fn place(&mut self, path: &ByteText, bytes: &[u8], mode: Option<u32>) -> Result<(), FileError>
        ensures told { OnOk result (Told (Places path.now (record { bytes = bytes.now; mode = mode })) (held self.old) (held self.new)) }
        ensures refused { OnErr result (held self.new ≡ held self.old) }
        ensures later { fault_count self.old ≤ fault_count self.new }
        ensures cause { FileCause (fault_count self.old) (fault_count self.new) result };
}
