//! The folders of a store.
use sc_disk::Disk;
use sc_entry::{ByteText, NoMemory};
use sc_host_folders::{FolderError, store_folders};
use std::alloc::Global;
use std::fs;
use std::fs::Files;
use std::test::Fail;

/// Why a store has no folders; nothing where it has them.
fn refusal<R: Files + Copy + Drop>(
    alloc: Global,
    rt: R,
    folder: &[u8],
) -> Result<Option<FolderError>, NoMemory> {
    let folder = ByteText::from_slice(alloc, folder)?;
    match store_folders(rt, &folder) {
        Ok(_) => Ok(None),
        Err(error) => Ok(Some(error)),
    }
}

/// Both folders are made, and those that they stand in; once they are there, that is good too.
#[test]
fn made(rt: HostRuntime) -> Result<(), Fail> {
    let alloc = rt.alloc();
    assert!(rt; refusal(alloc, rt, b"new/store")?.is_none());
    assert!(rt; fs::metadata(&rt, "new/store/preprocessor")?.is_dir());
    assert!(rt; refusal(alloc, rt, b"new/store")?.is_none());
    Ok(())
}

/// How many files a disk lists.
fn files_in<D: Disk>(disk: &mut D) -> Result<usize, Fail> {
    Ok(disk.list()?.len())
}

/// A preprocessor entry is listed by its own disk alone, whose root is the folder `preprocessor`.
#[test]
fn apart(rt: HostRuntime) -> Result<(), Fail> {
    let folder = ByteText::from_slice(rt.alloc(), b"apart")?;
    let mut folders = store_folders(rt, &folder)?;
    fs::write(&rt, "apart/preprocessor/key", b"P")?;
    assert!(rt; files_in(&mut folders.main)? == 0);
    assert!(rt; files_in(&mut folders.pre)? == 1);
    assert!(rt; folders.pre.root().as_slice() == b"apart/preprocessor".as_slice());
    Ok(())
}

/// A folder within a file, at a file's place, and with a name that isn't UTF-8 can't be made.
#[test]
fn not_made(rt: HostRuntime) -> Result<(), Fail> {
    fs::write(&rt, "plain", b"")?;
    for folder in [
        b"plain/store".as_slice(),
        b"plain".as_slice(),
        b"store\xff".as_slice(),
    ] {
        assert!(rt; refusal(rt.alloc(), rt, folder)? == Some(FolderError::NotMade));
    }
    Ok(())
}
