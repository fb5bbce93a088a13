//! A folder of the host: the edge to the outside. It tells nothing, and counts each refusal.
ghost use Rattle.std.specs.Prelude.{◌≡◌, ◌≤◌};
ghost use Rattle.sc_entry.specs.Failing.{one_more};
ghost use Rattle.sc_disk.specs.Disks.{untold_disk};
ghost use Rattle.sc_disk.specs.declared.disk.DiskError.TheVariants as disk_errors;

use crate::host_paths::host_path;
use crate::whole_file::read_whole;
use sc_disk::{Disk, DiskError, Listed};
use sc_entry::{ByteText, Items, Text};
use std::alloc::Global;
use std::fs::{FileTimes, OpenFile, OpenOptions};
use std::io::{ErrorKind, Write};
use std::time::{Duration, SystemTime};
use std::{fs, io};

/// The folder of a store's preprocessor entries, in that of its other files.
const PREPROCESSOR: &str = "preprocessor";

/// The files of a folder of the host. A path that isn't UTF-8 is refused, and a file whose name isn't is left out and
/// counted.
#[derive(Drop)]
pub struct HostDisk<R> {
    rt: R,
    root: ByteText,
    is_main: bool,
    faults: u64,
}

impl<R> HostDisk<R> {
    /// All files of a folder.
    pub fn new(rt: R, root: ByteText) -> HostDisk<R>
        ensures root { result.root ≡ root }
        ensures faults { result.faults ≡ 0 }
    {
        HostDisk {
            rt,
            root,
            is_main: false,
            faults: 0,
        }
    }

    /// The files of a folder, without those in its folder `preprocessor`.
    pub fn main(rt: R, root: ByteText) -> HostDisk<R>
        ensures root { result.root ≡ root }
        ensures faults { result.faults ≡ 0 }
    {
        HostDisk {
            rt,
            root,
            is_main: true,
            faults: 0,
        }
    }

    /// Counts a fault.
    fn refuse(&mut self) -> DiskError
        ensures fault { result ≡ disk_errors.Fault }
        ensures count { self.new.faults ≡ one_more self.old.faults }
        ensures later { self.old.faults ≤ self.new.faults }
        ensures root { self.new.root ≡ self.old.root }
    {
        self.faults = self.faults.saturating_add(1);
        DiskError::Fault
    }
}

/// The host's path of a path under a root; of the root itself where that is empty.
fn path_of<R: AllocGlobal>(rt: &R, root: &ByteText, path: &str) -> io::Result<String> {
    let mut all = String::from_str(rt.alloc(), host_path(root)?)?;
    if !path.is_empty() {
        all.push('/')?;
        all.push_str(path)?;
    }
    Ok(all)
}

/// The path of a name in a folder, by their paths under the root.
fn under(alloc: Global, folder: &str, name: &str) -> io::Result<String> {
    let mut path = String::with_capacity(alloc, folder.len() + 1 + name.len())?;
    if !folder.is_empty() {
        path.push_str(folder)?;
        path.push('/')?;
    }
    path.push_str(name)?;
    Ok(path)
}

/// When a file was last changed, in nanoseconds since 1970.
fn moment_of(metadata: &fs::Metadata) -> io::Result<u64> {
    match metadata.modified()?.duration_since(SystemTime::UNIX_EPOCH) {
        Ok(since) => Ok(u64::try_from(since.as_nanos()).unwrap_or(u64::MAX)),
        Err(_) => Ok(0),
    }
}

/// Makes the folders that a file stands in.
fn make_folders<R: fs::Files>(rt: &R, path: &str) -> io::Result<()> {
    match path.rsplit_once('/') {
        Some((folder, _)) => fs::create_dir_all(rt, folder),
        None => Ok(()),
    }
}

fn create_file<R: AllocGlobal + fs::Files>(
    rt: &R,
    root: &ByteText,
    path: &Text,
    now: u64,
) -> io::Result<()> {
    let path = path_of(rt, root, path.as_str())?;
    make_folders(rt, path.as_str())?;
    let file = fs::create(rt, path.as_str())?;
    set_moment(&file, now)
}

fn set_moment<F: OpenFile>(file: &F, now: u64) -> io::Result<()> {
    let Some(moment) = SystemTime::UNIX_EPOCH.checked_add(Duration::from_nanos(now)) else {
        return Err(io::Error::from(ErrorKind::InvalidInput));
    };
    file.set_times(FileTimes::new().set_modified(moment))
}

fn touch_file<R: AllocGlobal + fs::Files>(
    rt: &R,
    root: &ByteText,
    path: &Text,
    now: u64,
) -> io::Result<()> {
    let path = path_of(rt, root, path.as_str())?;
    let mut options = OpenOptions::new();
    let file = options.append(true).open(rt, path.as_str())?;
    set_moment(&file, now)
}

fn append_file<R: AllocGlobal + fs::Files>(
    rt: &R,
    root: &ByteText,
    path: &Text,
    bytes: &[u8],
) -> io::Result<()> {
    let path = path_of(rt, root, path.as_str())?;
    let mut options = OpenOptions::new();
    let mut file = options.append(true).open(rt, path.as_str())?;
    file.write_all(bytes)
}

fn adopt_file<R: AllocGlobal + fs::Files>(
    rt: &R,
    root: &ByteText,
    outside: &ByteText,
    path: &Text,
) -> io::Result<()> {
    let (bytes, _) = read_whole(rt, host_path(outside)?)?;
    append_file(rt, root, path, bytes.as_slice())
}

fn file_len<R: AllocGlobal + fs::Files>(rt: &R, root: &ByteText, path: &Text) -> io::Result<u64> {
    let path = path_of(rt, root, path.as_str())?;
    Ok(fs::metadata(rt, path.as_str())?.len())
}

fn read_file<R: AllocGlobal + fs::Files>(
    rt: &R,
    root: &ByteText,
    path: &Text,
) -> io::Result<ByteText> {
    let path = path_of(rt, root, path.as_str())?;
    let (bytes, _) = read_whole(rt, path.as_str())?;
    Ok(bytes)
}

fn rename_file<R: AllocGlobal + fs::Files>(
    rt: &R,
    root: &ByteText,
    from: &Text,
    to: &Text,
) -> io::Result<()> {
    let from = path_of(rt, root, from.as_str())?;
    let to = path_of(rt, root, to.as_str())?;
    make_folders(rt, to.as_str())?;
    fs::rename(rt, from.as_str(), to.as_str())
}

fn remove_file<R: AllocGlobal + fs::Files>(rt: &R, root: &ByteText, path: &Text) -> io::Result<()> {
    let path = path_of(rt, root, path.as_str())?;
    match fs::remove_file(rt, path.as_str()) {
        Ok(()) => Ok(()),
        Err(error) if error.kind() == ErrorKind::NotFound => Ok(()),
        Err(error) => Err(error),
    }
}

/// What stands in a folder.
#[derive(Drop)]
struct Found {
    files: Vec<Listed>,
    /// Its folders, by their paths under the root.
    folders: Vec<String>,
    /// How many names aren't UTF-8.
    unnamed: u64,
}

/// What stands in a folder.
fn find_in<R: AllocGlobal + fs::Files + Clone + Drop>(
    rt: &R,
    root: &ByteText,
    folder: &str,
    is_main: bool,
) -> io::Result<Found> {
    let alloc = rt.alloc();
    let mut found = Found {
        files: Vec::new(alloc),
        folders: Vec::new(alloc),
        unnamed: 0,
    };
    for entry in fs::read_dir(rt, path_of(rt, root, folder)?.as_str())? {
        let entry = match entry {
            Ok(entry) => entry,
            Err(error) if error.kind() == ErrorKind::InvalidFilename => {
                found.unnamed = found.unnamed.saturating_add(1);
                continue;
            }
            Err(error) => return Err(error),
        };
        let path = under(alloc, folder, entry.file_name())?;
        let metadata = entry.metadata()?;
        if metadata.is_dir() {
            if !(is_main && path.as_str() == PREPROCESSOR) {
                found.folders.push(path)?;
            }
        } else if metadata.is_file() {
            let moment = moment_of(&metadata)?;
            found.files.push(Listed {
                moment,
                path: Text::from_string(path),
                size: metadata.len(),
            })?;
        }
    }
    Ok(found)
}

/// All files under a folder, their paths ascending by their bytes, and how many names aren't UTF-8.
fn find_files<R: AllocGlobal + fs::Files + Clone + Drop>(
    rt: &R,
    root: &ByteText,
    is_main: bool,
) -> io::Result<(Vec<Listed>, u64)> {
    let alloc = rt.alloc();
    fs::create_dir_all(rt, host_path(root)?)?;
    let mut files = Vec::new(alloc);
    let mut unnamed: u64 = 0;
    let mut left = Vec::new(alloc);
    left.push(String::new(alloc))?;
    for _ in 0..u64::MAX {
        let Some(folder) = left.pop() else {
            break;
        };
        let mut found = find_in(rt, root, folder.as_str(), is_main)?;
        // The names of one folder are few and stand close, so sorting them costs less than sorting all at the end.
        found.files.sort_unstable_by(|a, b| a.path.cmp(&b.path));
        for file in found.files {
            files.push(file)?;
        }
        found.folders.sort_unstable_by(|a, b| b.cmp(a));
        for folder in found.folders {
            left.push(folder)?;
        }
        unnamed = unnamed.saturating_add(found.unnamed);
    }
    // Where no folder has both files and folders, they are in order by now.
    if !files.is_sorted_by(|a: &Listed, b| a.path <= b.path) {
        files.sort_by(|a, b| a.path.cmp(&b.path))?;
    }
    Ok((files, unnamed))
}

impl<R: AllocGlobal + fs::Files + Clone + Drop> Disk for HostDisk<R> {
    ghost state = { λ d. untold_disk d.root d.faults };

    fn faults(&self) -> u64 {
        self.faults
    }

    fn root(&self) -> &ByteText {
        &self.root
    }

    fn is_divided(&self) -> bool {
        false
    }

    fn has_place(&self, _path: &Text) -> bool {
        let _undivided = &self.root;
        true
    }

    fn list(&mut self) -> Result<Items<Listed>, DiskError> {
        match find_files(&self.rt, &self.root, self.is_main) {
            Ok((files, unnamed)) => {
                self.faults = self.faults.saturating_add(unnamed);
                Ok(Items::from_vec(files))
            }
            Err(_) => Err(self.refuse()),
        }
    }

    fn create(&mut self, path: &Text, now: u64) -> Result<(), DiskError> {
        match create_file(&self.rt, &self.root, path, now) {
            Ok(()) => Ok(()),
            Err(_) => Err(self.refuse()),
        }
    }

    fn append(&mut self, path: &Text, bytes: &[u8]) -> Result<(), DiskError> {
        match append_file(&self.rt, &self.root, path, bytes) {
            Ok(()) => Ok(()),
            Err(_) => Err(self.refuse()),
        }
    }

    fn adopt(&mut self, outside: &ByteText, path: &Text) -> Result<(), DiskError> {
        match adopt_file(&self.rt, &self.root, outside, path) {
            Ok(()) => Ok(()),
            Err(_) => Err(self.refuse()),
        }
    }

    fn len(&mut self, path: &Text) -> Result<u64, DiskError> {
        match file_len(&self.rt, &self.root, path) {
            Ok(len) => Ok(len),
            Err(_) => Err(self.refuse()),
        }
    }

    fn read(&mut self, path: &Text) -> Result<ByteText, DiskError> {
        match read_file(&self.rt, &self.root, path) {
            Ok(bytes) => Ok(bytes),
            Err(_) => Err(self.refuse()),
        }
    }

    fn rename(&mut self, from: &Text, to: &Text) -> Result<(), DiskError> {
        match rename_file(&self.rt, &self.root, from, to) {
            Ok(()) => Ok(()),
            Err(_) => Err(self.refuse()),
        }
    }

    fn remove(&mut self, path: &Text) -> Result<(), DiskError> {
        match remove_file(&self.rt, &self.root, path) {
            Ok(()) => Ok(()),
            Err(_) => Err(self.refuse()),
        }
    }

    fn touch(&mut self, path: &Text, now: u64) -> Result<(), DiskError> {
        match touch_file(&self.rt, &self.root, path, now) {
            Ok(()) => Ok(()),
            Err(_) => Err(self.refuse()),
        }
    }
}
