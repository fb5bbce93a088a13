//! A store of two folders.
use crate::disks::{disk_of, key_of};
use sc_disk::{Error, MemDisk, OpenError};
use sc_disk_pair::{PairCache, Part, Two};
use sc_entry::NoMemory;
use std::alloc::Global;
use std::process::Abort;
use std::test::Fail;

type Store = PairCache<MemDisk>;

fn opened(answer: Result<Store, OpenError<Two<MemDisk>>>) -> Result<Store, Fail> {
    match answer {
        Ok(store) => Ok(store),
        Err(refused) => Err(Fail::new(refused.error)),
    }
}

/// A store on two empty disks.
fn store_of(alloc: Global, size: u64) -> Result<Store, Fail> {
    let main = disk_of(alloc, b"/main", &[])?;
    let pre = disk_of(alloc, b"/pre", &[])?;
    opened(PairCache::new(alloc, main, pre, size, 0))
}

/// Stores ten bytes.
fn insert(alloc: Global, store: &mut Store, part: Part, key: &str, now: u64) -> Result<(), Error> {
    let key = key_of(alloc, key)?;
    store.insert_bytes(part, &key, b"0123456789", now)
}

fn has(alloc: Global, store: &Store, part: Part, key: &str) -> Result<bool, NoMemory> {
    let key = key_of(alloc, key)?;
    store.contains_key(part, &key)
}

/// How many bytes a read gives.
fn read(alloc: Global, store: &mut Store, part: Part, key: &str) -> Result<usize, Error> {
    let key = key_of(alloc, key)?;
    match store.get(part, &key, 9) {
        Ok(file) => Ok(file.into_inner().len()),
        Err(refused) => Err(refused),
    }
}

fn older_goes(rt: &impl Abort, alloc: Global, store: &mut Store) -> Result<(), Fail> {
    insert(alloc, store, Part::Pre, "file1", 1)?;
    insert(alloc, store, Part::Main, "file1", 2)?;
    insert(alloc, store, Part::Main, "file2", 3)?;
    assert_eq!(rt; store.size(), 20);
    assert_eq!(rt; store.len(), 2);
    assert!(rt; !has(alloc, store, Part::Pre, "file1")?);
    assert_eq!(rt; read(alloc, store, Part::Main, "file1")?, 10);
    insert(alloc, store, Part::Pre, "file2", 4)?;
    assert!(rt; has(alloc, store, Part::Main, "file1")?);
    assert!(rt; !has(alloc, store, Part::Main, "file2")?);
    assert!(rt; has(alloc, store, Part::Pre, "file2")?);
    Ok(())
}

/// The older of the two parts' first keys goes, whichever part it is of.
#[test]
fn first_of_both_goes(rt: HostRuntime) -> Result<(), Fail> {
    let mut store = store_of(rt.alloc(), 25)?;
    older_goes(&rt, rt.alloc(), &mut store)
}
