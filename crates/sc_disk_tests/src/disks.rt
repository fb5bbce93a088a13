//! Disks in memory, and keys.
use sc_disk::{FileKey, MemDisk};
use sc_entry::{ByteText, Calls, Items, NoMemory, Text};
use std::alloc::Global;
use std::collections::BTreeMap;
use std::test::Fail;

/// An empty disk in memory under a root, beside these outside files, which refuses the calls of these numbers.
pub(crate) fn disk_beside(
    alloc: Global,
    root: &[u8],
    outside: BTreeMap<ByteText, ByteText>,
    failing: &[u64],
) -> Result<MemDisk, Fail> {
    let calls = Calls::failing_at(alloc, Items::from_vec(failing.to_vec(alloc)?))?;
    let root = ByteText::from_slice(alloc, root)?;
    Ok(MemDisk::new(alloc, root, outside, calls))
}

/// An empty disk in memory under a root, which refuses the calls of these numbers.
pub(crate) fn disk_of(alloc: Global, root: &[u8], failing: &[u64]) -> Result<MemDisk, Fail> {
    disk_beside(alloc, root, BTreeMap::new(alloc), failing)
}

/// The length of the file that a disk holds at a path, if any stands there.
pub(crate) fn len_at(alloc: Global, disk: &MemDisk, path: &str) -> Result<Option<usize>, NoMemory> {
    let path = Text::from_str(alloc, path)?;
    match disk.get(&path) {
        Some(file) => Ok(Some(file.bytes.len())),
        None => Ok(None),
    }
}

pub(crate) fn key_of(alloc: Global, text: &str) -> Result<FileKey, NoMemory> {
    Ok(FileKey::new(Text::from_str(alloc, text)?))
}
