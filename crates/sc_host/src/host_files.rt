//! Files of the host: the edge to the outside. They tell nothing, and count each refusal.
ghost use Rattle.std.specs.Prelude.{◌≡◌, ◌≤◌, None};
ghost use Rattle.sc_entry.specs.Failing.{one_more};
ghost use Rattle.sc_entry.specs.declared.file_error.FileError.TheVariants as file_errors;

use crate::host_paths::host_path;
use crate::whole_file::read_whole;
use sc_entry::{ByteText, FileContent, FileError, Files};
use std::fs::Permissions;
use std::os::unix::fs::{MetadataExt, PermissionsExt};
use std::{fs, io};

/// The bits of a mode that are kept: permissions, and the three above them.
const MODE_BITS: u32 = 0o7777;

/// Files of the host. A path that isn't UTF-8 is refused.
#[derive(Drop)]
pub struct HostFiles<R> {
    rt: R,
    faults: u64,
}

impl<R> HostFiles<R> {
    pub fn new(rt: R) -> HostFiles<R>
        ensures { result.faults ≡ 0 }
    {
        HostFiles { rt, faults: 0 }
    }

    /// Counts a fault.
    fn refuse(&mut self) -> FileError
        ensures fault { result ≡ file_errors.FileFault }
        ensures count { self.new.faults ≡ one_more self.old.faults }
        ensures later { self.old.faults ≤ self.new.faults }
    {
        self.faults = self.faults.saturating_add(1);
        FileError::FileFault
    }
}

fn read_file<R: AllocGlobal + fs::Files + Clone + Drop>(
    rt: &R,
    path: &ByteText,
) -> io::Result<FileContent> {
    let (bytes, metadata) = read_whole(rt, host_path(path)?)?;
    Ok(FileContent {
        bytes,
        mode: Some(metadata.mode() & MODE_BITS),
    })
}

fn place_file<R: AllocGlobal + fs::Files + Clone + Drop>(
    rt: &R,
    path: &ByteText,
    bytes: &[u8],
    mode: Option<u32>,
) -> io::Result<()> {
    let path = host_path(path)?;
    fs::write(rt, path, bytes)?;
    if let Some(mode) = mode {
        fs::set_permissions(rt, path, Permissions::from_mode(mode & MODE_BITS))?;
    }
    Ok(())
}

impl<R: AllocGlobal + fs::Files + Clone + Drop> Files for HostFiles<R> {
    ghost held = { λ _. None };

    ghost fault_count = { λ f. f.faults };

    fn faults(&self) -> u64 {
        self.faults
    }

    fn read(&mut self, path: &ByteText) -> Result<FileContent, FileError> {
        match read_file(&self.rt, path) {
            Ok(content) => Ok(content),
            Err(_) => Err(self.refuse()),
        }
    }

    fn place(&mut self, path: &ByteText, bytes: &[u8], mode: Option<u32>) -> Result<(), FileError> {
        match place_file(&self.rt, path, bytes, mode) {
            Ok(()) => Ok(()),
            Err(_) => Err(self.refuse()),
        }
    }
}
