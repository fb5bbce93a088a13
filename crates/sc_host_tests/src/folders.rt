//! A folder of the host.
use sc_disk::Disk;
use sc_entry::{ByteText, Text};
use sc_host::HostDisk;
use std::alloc::Global;
use std::test::Fail;

/// Makes a file of these bytes at a moment.
fn make<D: Disk>(disk: &mut D, path: &Text, bytes: &[u8], moment: u64) -> Result<(), Fail> {
    disk.create(path, moment)?;
    disk.append(path, bytes)?;
    Ok(())
}

/// Whether a file has these bytes.
fn reads<D: Disk>(disk: &mut D, path: &Text, bytes: &[u8]) -> Result<bool, Fail> {
    let found = disk.read(path)?;
    Ok(found.as_slice() == bytes)
}

/// Whether a disk lists one file alone, at this path with this moment.
fn lists_one<D: Disk>(disk: &mut D, path: &str, moment: u64) -> Result<bool, Fail> {
    let all = disk.list()?;
    let mut same = all.len() == 1;
    for file in all.as_slice() {
        same = same && file.moment == moment && file.path.as_str() == path;
    }
    Ok(same)
}

fn moves_a_file<D: Disk>(alloc: Global, disk: &mut D) -> Result<bool, Fail> {
    let empty = disk.list()?.is_empty();
    let temporary = Text::from_str(alloc, ".sccachetmp0")?;
    let path = Text::from_str(alloc, "a/b/key")?;
    make(disk, &temporary, b"AB", 5)?;
    disk.touch(&temporary, 7_000_000_000)?;
    disk.rename(&temporary, &path)?;
    Ok(empty && disk.len(&path)? == 2 && reads(disk, &path, b"AB")?)
}

fn hides_the_preprocessor<D: Disk>(alloc: Global, disk: &mut D) -> Result<bool, Fail> {
    let hidden = Text::from_str(alloc, "preprocessor/x")?;
    disk.create(&hidden, 8)?;
    lists_one(disk, "a/b/key", 7_000_000_000)
}

/// A file is made, filled, moved into a folder that isn't there yet, and read; what stands in `preprocessor` isn't listed.
#[test]
fn ample_host_disk(rt: HostRuntime) -> Result<(), Fail> {
    let alloc = rt.alloc();
    let mut disk = HostDisk::main(rt.clone()?, ByteText::from_slice(alloc, b"folder")?);
    assert!(rt; moves_a_file(alloc, &mut disk)? && hides_the_preprocessor(alloc, &mut disk)?);
    Ok(())
}

fn adopts<D: Disk>(alloc: Global, disk: &mut D) -> Result<bool, Fail> {
    let (one, two) = (Text::from_str(alloc, "one")?, Text::from_str(alloc, "two")?);
    let outside = ByteText::from_slice(alloc, b"other/one")?;
    make(disk, &one, b"XYZ", 1)?;
    disk.create(&two, 2)?;
    disk.adopt(&outside, &two)?;
    Ok(reads(disk, &two, b"XYZ")? && disk.len(&one)? == 3)
}

fn counts_a_refusal<D: Disk>(alloc: Global, disk: &mut D) -> Result<bool, Fail> {
    let one = Text::from_str(alloc, "one")?;
    disk.remove(&one)?;
    disk.remove(&one)?;
    let none = disk.faults() == 0;
    Ok(none && disk.read(&one).is_err() && disk.faults() == 1)
}

/// An outside file is adopted and stays, an absent file counts as removed, and a refusal is counted.
#[test]
fn ample_adopt(rt: HostRuntime) -> Result<(), Fail> {
    let alloc = rt.alloc();
    let mut disk = HostDisk::new(rt.clone()?, ByteText::from_slice(alloc, b"other")?);
    assert!(rt; adopts(alloc, &mut disk)? && counts_a_refusal(alloc, &mut disk)?);
    Ok(())
}
