//! What a stop leaves of a store, and what a store is that is opened on it.
use crate::disks::{disk_of, key_of};
use sc_disk::{Change, Disk, DiskError, Error, LruDiskCache, LruDiskCacheAddEntry, MemDisk};
use sc_entry::Text;
use std::alloc::{AllocError, Global};
use std::process::Abort;
use std::test::Fail;

type Store = LruDiskCache<MemDisk>;

fn empty_disk(alloc: Global) -> Result<MemDisk, Fail> {
    disk_of(alloc, b"/r", &[])
}

fn opened(alloc: Global, disk: MemDisk) -> Result<Store, Fail> {
    match LruDiskCache::new(alloc, disk, 25, 0) {
        Ok(store) => Ok(store),
        Err(refused) => Err(Fail::new(refused.error)),
    }
}

/// Does a change anew; of an append as many bytes as `bytes` says.
fn redo(disk: &mut MemDisk, change: &Change, bytes: usize) -> Result<(), DiskError> {
    match change {
        Change::Made(path, now) => disk.create(path, *now),
        Change::Added(path, more) => disk.append(path, more.as_slice().get(..bytes).unwrap_or(b"")),
        Change::Touched(path, now) => disk.touch(path, *now),
        Change::Moved(from, to) => disk.rename(from, to),
        Change::Gone(path) => disk.remove(path),
    }
}

fn added(change: &Change) -> usize {
    match change {
        Change::Added(_, more) => more.len(),
        _ => 0,
    }
}

/// Does so many of a disk's changes anew, and half of an append more where it is torn.
fn redo_first(
    disk: &mut MemDisk,
    whole: &MemDisk,
    changes: usize,
    torn: bool,
) -> Result<(), DiskError> {
    for (n, change) in whole.changes().iter().rev().enumerate() {
        if n < changes {
            redo(disk, change, added(change))?;
        }
        if n == changes && torn && added(change) > 0 {
            redo(disk, change, added(change) / 2)?;
        }
    }
    Ok(())
}

/// What a stop leaves of a disk: the files after so many of its changes, and after half of the bytes of an append more where
/// it is torn.
fn left_by(alloc: Global, whole: &MemDisk, changes: usize, torn: bool) -> Result<MemDisk, Fail> {
    let mut disk = empty_disk(alloc)?;
    redo_first(&mut disk, whole, changes, torn)?;
    Ok(disk)
}

/// Adds a file's path and its bytes.
fn describe(text: &mut String, path: &str, bytes: &[u8]) -> Result<(), AllocError> {
    text.push_str(path)?;
    text.push('=')?;
    for byte in bytes {
        text.push(*byte as char)?;
    }
    text.push(' ')
}

/// Adds the path and the bytes of a disk's file.
fn describe_file(text: &mut String, disk: &mut MemDisk, path: &Text) -> Result<(), Fail> {
    let bytes = disk.read(path)?;
    describe(text, path.as_str(), bytes.as_slice())?;
    Ok(())
}

/// All files of a disk, as `a=BYTES b=BYTES `.
fn files(alloc: Global, disk: &mut MemDisk) -> Result<String, Fail> {
    let mut text = String::new(alloc);
    let all = disk.list()?;
    for file in all.as_slice() {
        describe_file(&mut text, disk, &file.path)?;
    }
    Ok(text)
}

/// Opens an entry of ten bytes.
fn open_entry(
    alloc: Global,
    store: &mut Store,
    key: &str,
    now: u64,
) -> Result<LruDiskCacheAddEntry, Error> {
    let key = key_of(alloc, key)?;
    store.prepare_add(&key, 10, now)
}

fn fill(store: &mut Store, entry: &LruDiskCacheAddEntry, bytes: &[u8]) -> Result<(), Error> {
    if store.is_open(entry) {
        store.fill(entry, bytes)?;
    }
    Ok(())
}

fn commit(store: &mut Store, entry: LruDiskCacheAddEntry, now: u64) -> Result<(), Error> {
    if store.is_open(&entry) {
        store.commit(entry, now)?;
    }
    Ok(())
}

/// Fills the first of two entries, and the second with some of its bytes.
fn fill_both(
    store: &mut Store,
    first: &LruDiskCacheAddEntry,
    second: &LruDiskCacheAddEntry,
) -> Result<(), Error> {
    fill(store, first, b"0123456789")?;
    fill(store, second, b"4567")
}

/// Fills the first of two entries and commits it, while the second has some of its bytes.
fn commit_first(
    store: &mut Store,
    first: LruDiskCacheAddEntry,
    second: &LruDiskCacheAddEntry,
) -> Result<(), Error> {
    fill_both(store, &first, second)?;
    commit(store, first, 3)
}

fn commit_beside(
    alloc: Global,
    store: &mut Store,
    first: LruDiskCacheAddEntry,
) -> Result<LruDiskCacheAddEntry, Error> {
    let second = open_entry(alloc, store, "b", 2)?;
    commit_first(store, first, &second)?;
    Ok(second)
}

/// Two entries are open at once, each of ten bytes that are declared; the first is filled and committed.
fn commits_one(alloc: Global, store: &mut Store) -> Result<LruDiskCacheAddEntry, Error> {
    let first = open_entry(alloc, store, "a", 1)?;
    commit_beside(alloc, store, first)
}

fn insert(
    alloc: Global,
    store: &mut Store,
    key: &str,
    bytes: &[u8],
    now: u64,
) -> Result<(), Error> {
    let key = key_of(alloc, key)?;
    store.insert_bytes(&key, bytes, now)
}

fn remove(alloc: Global, store: &mut Store, key: &str) -> Result<(), Error> {
    let key = key_of(alloc, key)?;
    store.remove(&key)
}

/// A file is stored for which another is evicted, and then the second entry is committed.
fn evicts(alloc: Global, store: &mut Store) -> Result<(), Error> {
    let second = commits_one(alloc, store)?;
    insert(alloc, store, "c", b"abcdefghij", 4)?;
    commit(store, second, 5)
}

/// The second entry is committed, while a file was evicted for another; a file is replaced, and one is removed.
fn story(alloc: Global, store: &mut Store) -> Result<(), Error> {
    evicts(alloc, store)?;
    insert(alloc, store, "b", b"klmnop", 6)?;
    remove(alloc, store, "c")
}

/// All files of a store's disk.
fn held_files(alloc: Global, store: &Store) -> Result<String, Fail> {
    let changes = store.disk().changes().len();
    let mut disk = left_by(alloc, store.disk(), changes, false)?;
    files(alloc, &mut disk)
}

fn holds(
    rt: &impl Abort,
    alloc: Global,
    store: &Store,
    expected: &str,
    size: u64,
) -> Result<(), Fail> {
    assert_eq!(rt; held_files(alloc, store)?.as_str(), expected);
    assert_eq!(rt; store.size(), size);
    Ok(())
}

/// Opens a store on what a stop left of a disk, and compares its disk's files with these, and its size with theirs.
fn reopens(
    rt: &impl Abort,
    alloc: Global,
    left: MemDisk,
    expected: &str,
    size: u64,
) -> Result<(), Fail> {
    let again = opened(alloc, left)?;
    holds(rt, alloc, &again, expected, size)
}

/// The store that is opened on what is left after so many changes holds these files.
fn leaves(
    rt: &impl Abort,
    alloc: Global,
    store: &Store,
    changes: usize,
    expected: &str,
    size: u64,
) -> Result<(), Fail> {
    let left = left_by(alloc, store.disk(), changes, false)?;
    reopens(rt, alloc, left, expected, size)?;
    let torn = left_by(alloc, store.disk(), changes, true)?;
    reopens(rt, alloc, torn, expected, size)
}

/// The files and their bytes together, once a store is opened after so many changes of the story.
const TABLE: &[(&str, u64)] = &[
    ("", 0),
    ("", 0),
    ("", 0),
    ("", 0),
    ("", 0),
    ("", 0),
    ("a=0123456789 ", 10),
    ("", 0),
    ("", 0),
    ("", 0),
    ("", 0),
    ("c=abcdefghij ", 10),
    ("c=abcdefghij ", 10),
    ("b=4567 c=abcdefghij ", 14),
    ("b=4567 c=abcdefghij ", 14),
    ("b=4567 c=abcdefghij ", 14),
    ("b=4567 c=abcdefghij ", 14),
    ("b=klmnop c=abcdefghij ", 16),
    ("b=klmnop ", 6),
];

fn leaves_whole_files(rt: &impl Abort, alloc: Global, store: &mut Store) -> Result<(), Fail> {
    story(alloc, store)?;
    assert_eq!(rt; store.disk().changes().len(), 18);
    for (changes, (expected, size)) in TABLE.iter().enumerate() {
        leaves(rt, alloc, store, changes, expected, *size)?;
    }
    Ok(())
}

/// A stop after each change of the story, and inside each append, leaves whole files alone.
#[test]
fn stopped_at_each_change(rt: HostRuntime) -> Result<(), Fail> {
    let alloc = rt.alloc();
    let mut store = opened(alloc, empty_disk(alloc)?)?;
    leaves_whole_files(&rt, alloc, &mut store)
}
