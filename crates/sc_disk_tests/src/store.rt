//! A store of files on one disk. Which files go where it is full a script over the program shows, beside an own rule.
use crate::disks::{disk_beside, key_of, len_at};
use sc_disk::{
    Disk, EntryFile, Error, FileWriter, InsertError, LruDiskCache, MemDisk, OpenError,
    make_key_path, normalize_key,
};
use sc_entry::{ByteText, NoMemory, Text};
use std::alloc::Global;
use std::collections::BTreeMap;
use std::process::Abort;
use std::test::Fail;

type Store = LruDiskCache<MemDisk>;

/// An outside file `out` of four bytes.
fn outside_of(alloc: Global) -> Result<BTreeMap<ByteText, ByteText>, Fail> {
    let path = ByteText::from_slice(alloc, b"out")?;
    let bytes = ByteText::from_slice(alloc, b"wxyz")?;
    let mut outside = BTreeMap::new(alloc);
    outside.insert(path, bytes)?;
    Ok(outside)
}

/// A disk in memory beside the outside file, which refuses the calls of these numbers.
fn disk_of(alloc: Global, failing: &[u64]) -> Result<MemDisk, Fail> {
    disk_beside(alloc, b"/r", outside_of(alloc)?, failing)
}

fn opened(answer: Result<Store, OpenError<MemDisk>>) -> Result<Store, Fail> {
    match answer {
        Ok(store) => Ok(store),
        Err(refused) => Err(Fail::new(refused.error)),
    }
}

/// A store on an empty disk.
fn store_of(alloc: Global, capacity: u64, failing: &[u64]) -> Result<Store, Fail> {
    let disk = disk_of(alloc, failing)?;
    opened(LruDiskCache::new(alloc, disk, capacity, 0))
}

fn insert(
    alloc: Global,
    store: &mut Store,
    key: &str,
    bytes: &[u8],
    now: u64,
) -> Result<(), Error> {
    let key = key_of(alloc, key)?;
    store.insert_bytes(&key, bytes, now)
}

fn insert_outside(alloc: Global, store: &mut Store, key: &str) -> Result<(), Error> {
    let key = key_of(alloc, key)?;
    let outside = ByteText::from_slice(alloc, b"out")?;
    store.insert_file(&key, &outside, 8)
}

fn remove(alloc: Global, store: &mut Store, key: &str) -> Result<(), Error> {
    let key = key_of(alloc, key)?;
    store.remove(&key)
}

fn read(alloc: Global, store: &mut Store, key: &str) -> Result<Vec<u8>, Error> {
    let key = key_of(alloc, key)?;
    match store.get(&key, 4) {
        Ok(file) => Ok(file.into_inner()),
        Err(refused) => Err(refused),
    }
}

/// Whether these bytes are read under a key.
fn reads(alloc: Global, store: &mut Store, key: &str, expected: &[u8]) -> Result<bool, Error> {
    let bytes = read(alloc, store, key)?;
    Ok(bytes.as_slice() == expected)
}

#[test]
fn key_paths(rt: HostRuntime) -> Result<(), Fail> {
    let alloc = rt.alloc();
    let key = Text::from_str(alloc, "abcdef")?;
    assert_eq!(rt; make_key_path(alloc, &key)?.as_str(), "a/b/abcdef");
    assert_eq!(rt; normalize_key(alloc, &key)?.as_str(), "a/b/c/abcdef");
    Ok(())
}

/// Stores bytes that nothing was declared for.
fn commit_undeclared(
    alloc: Global,
    store: &mut Store,
    key: &str,
    bytes: &[u8],
) -> Result<(), Error> {
    let key = key_of(alloc, key)?;
    let entry = store.prepare_add(&key, 0, 1)?;
    store.fill(&entry, bytes)?;
    store.commit(entry, 1)
}

/// Opens an entry, and removes its temporary.
fn abandons(alloc: Global, store: &mut Store) -> Result<(), Error> {
    let key = key_of(alloc, "a/b")?;
    let entry = store.prepare_add(&key, 3, 7)?;
    store.abandon(entry)
}

/// Each kind of call of a store that was just opened, by 27 calls of its disk. The 22nd call fills an entry, which stays open
/// where that is refused, and the last one removes a temporary.
fn story(alloc: Global, store: &mut Store) -> Result<(), Error> {
    insert(alloc, store, "a/b", b"012345", 1)?;
    insert(alloc, store, "c", b"012345", 2)?;
    insert_outside(alloc, store, "a/b")?;
    read(alloc, store, "c")?;
    remove(alloc, store, "c")?;
    commit_undeclared(alloc, store, "c", b"0123456")?;
    abandons(alloc, store)
}

/// The story ends, by all of its calls.
fn ends_story(rt: &impl Abort, alloc: Global, store: &mut Store) -> Result<(), Fail> {
    story(alloc, store)?;
    assert!(rt; store.disk().calls() == 28 && store.size() == 7);
    Ok(())
}

/// Whether the story is refused once, and the store stays within its capacity.
fn is_refused_once(alloc: Global, store: &mut Store) -> bool {
    let answer = story(alloc, store);
    answer == Err(Error::Io) && store.disk().faults() == 1 && store.size() <= 10
}

/// The story is refused by the call of this number, and leaves a temporary by two of them alone.
fn refuses_story(
    rt: &impl Abort,
    alloc: Global,
    store: &mut Store,
    number: u64,
) -> Result<(), Fail> {
    let refused = is_refused_once(alloc, store);
    let left = len_at(alloc, store.disk(), ".sccachetmp0")?.is_some();
    let leaves = number == 22 || number == 28;
    assert!(rt; refused && left == leaves, "{number}");
    insert_outside(alloc, store, "d")?;
    Ok(())
}

/// The story of a store whose disk refuses the call of this number. It makes no 29th.
fn tells_story(rt: &impl Abort, alloc: Global, store: &mut Store, number: u64) -> Result<(), Fail> {
    if number == 29 {
        return ends_story(rt, alloc, store);
    }
    refuses_story(rt, alloc, store, number)
}

fn refuses_call(rt: &impl Abort, alloc: Global, number: u64) -> Result<(), Fail> {
    let mut store = store_of(alloc, 10, &[number])?;
    tells_story(rt, alloc, &mut store, number)
}

/// Whether a listing that is refused refuses the opening.
fn is_refused(alloc: Global) -> Result<bool, Fail> {
    let disk = disk_of(alloc, &[1])?;
    Ok(LruDiskCache::new(alloc, disk, 10, 0).is_err())
}

/// Whichever call of the disk is refused, the story is refused once, the store stays within its capacity, no temporary is
/// left but one whose removal was refused, and the outside file stays. Where none is, it ends by all of its calls.
#[test]
fn each_call_refused(rt: HostRuntime) -> Result<(), Fail> {
    for number in 2..30 {
        refuses_call(&rt, rt.alloc(), number)?;
    }
    assert!(rt; is_refused(rt.alloc())?);
    Ok(())
}

/// Writes a text in two pieces, or refuses after the first.
#[derive(Drop)]
struct TwoPieces {
    refuses: bool,
}

impl FileWriter for TwoPieces {
    type Refusal = Error;

    ghost wrote = { λ _ _ _. Unit {0} };

    fn write<D: Disk>(self, file: &mut EntryFile<'_, D>) -> Result<(), Error> {
        file.write_all(b"ab")?;
        if self.refuses {
            return Err(Error::BadKey);
        }
        file.write_all(b"cd")?;
        Ok(())
    }
}

fn write(alloc: Global, store: &mut Store, refuses: bool) -> Result<(), InsertError<Error>> {
    match key_of(alloc, "a") {
        Ok(key) => store.insert_with(&key, TwoPieces { refuses }, 1),
        Err(_) => Err(InsertError::Store(Error::NoMemory)),
    }
}

/// Whether a writer that refuses stores nothing.
fn refuses_writer(alloc: Global, store: &mut Store) -> bool {
    let refused = write(alloc, store, true);
    matches!(refused, Err(InsertError::Writer(Error::BadKey))) && store.size() == 0
}

/// A writer that refuses stores nothing, and one that doesn't stores both pieces.
fn writes(rt: &impl Abort, alloc: Global, store: &mut Store) -> Result<(), Fail> {
    let refused = refuses_writer(alloc, store);
    let written = write(alloc, store, false).is_ok();
    let whole = reads(alloc, store, "a", b"abcd")?;
    assert!(rt; refused && written && whole);
    Ok(())
}

/// What a writer writes stands under its key, and nothing does where it refuses.
#[test]
fn written_file(rt: HostRuntime) -> Result<(), Fail> {
    let mut store = store_of(rt.alloc(), 10, &[])?;
    writes(&rt, rt.alloc(), &mut store)
}
