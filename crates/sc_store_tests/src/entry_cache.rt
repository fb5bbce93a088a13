use sc_disk::{LruDiskCacheAddEntry, MemDisk};
use sc_entry::{ByteText, CacheMode, CacheWrite, Calls, NoMemory, Text};
use sc_model::{Answer, Mode, Policy, Written};
use sc_store_disk::{EntryCache, EntryError, Filling, Reservation};
use std::alloc::Global;
use std::collections::BTreeMap;
use std::test::Fail;

type Cache = EntryCache<MemDisk>;

/// An empty disk in memory.
fn disk_of(alloc: Global, root: &[u8]) -> Result<MemDisk, NoMemory> {
    let root = ByteText::from_slice(alloc, root)?;
    Ok(MemDisk::new(alloc, root, BTreeMap::new(alloc), Calls::new(alloc)))
}

/// A store of 100 bytes.
fn empty_cache(alloc: Global) -> Result<Cache, NoMemory> {
    let main = disk_of(alloc, b"/0")?;
    let pre = disk_of(alloc, b"/0p")?;
    Ok(EntryCache::new(alloc, main, pre, 100, CacheMode::ReadWrite))
}

/// Opens an entry for a key, of this size.
fn reserve(
    alloc: Global,
    cache: &mut Cache,
    key: &str,
    size: u64,
) -> Result<Reservation, NoMemory> {
    let key = Text::from_str(alloc, key)?;
    cache.reserve(&Policy::Single, &key, size, 1)
}

/// The entry of a reservation that was made.
fn opened(reservation: Reservation) -> Result<LruDiskCacheAddEntry, Fail> {
    match reservation {
        Reservation::Open(entry) => Ok(entry),
        Reservation::Refused(_) => Err(Fail::new("refused")),
    }
}

fn still_open(filled: Result<Filling, EntryError>) -> Result<LruDiskCacheAddEntry, Fail> {
    match filled {
        Ok(Filling::Filled(entry)) => Ok(entry),
        Ok(Filling::Refused(_)) => Err(Fail::new("not filled")),
        Err(_) => Err(Fail::new("refused")),
    }
}

/// Stores bytes under a key, in three steps.
fn store(alloc: Global, cache: &mut Cache, key: &str, bytes: &[u8]) -> Result<bool, Fail> {
    let reservation = reserve(alloc, cache, key, bytes.len() as u64)?;
    let entry = opened(reservation)?;
    let entry = still_open(cache.fill(entry, bytes, false))?;
    match cache.commit(entry, 2) {
        Ok(written) => Ok(matches!(written, Written::Done)),
        Err(_) => Err(Fail::new("refused")),
    }
}

/// How many bytes an answer hits, if it does.
fn bytes_in(answer: &Answer) -> Option<usize> {
    match answer {
        Answer::Hit(bytes, _) => Some(bytes.len()),
        _ => None,
    }
}

/// How many bytes a lookup under a key hits.
fn hit(alloc: Global, cache: &mut Cache, key: &str, mode: Mode) -> Result<Option<usize>, NoMemory> {
    let key = Text::from_str(alloc, key)?;
    let answer = cache.ask(&key, mode, 3)?;
    Ok(bytes_in(&answer))
}

fn entry_bytes(alloc: Global) -> Result<Vec<u8>, Fail> {
    let mut entry = CacheWrite::new(alloc)?;
    entry.put_stdout(b"hi")?;
    Ok(entry.finish())
}

/// Whether an entry of 25 bytes is found again.
fn stores_and_finds(alloc: Global, cache: &mut Cache) -> Result<bool, Fail> {
    let bytes = entry_bytes(alloc)?;
    Ok(store(alloc, cache, "abc", &bytes)? && hit(alloc, cache, "abc", Mode::Whole)? == Some(25))
}

/// Puts a preprocessor entry; whether it was done.
fn put_pre(alloc: Global, cache: &mut Cache, key: &str, bytes: &[u8]) -> Result<bool, NoMemory> {
    let key = Text::from_str(alloc, key)?;
    let written = cache.put_pre(&Policy::Single, &key, bytes, 4)?;
    Ok(matches!(written, Written::Done))
}

/// Whether a preprocessor entry of four bytes is found again.
fn keeps_preprocessor_entry(alloc: Global, cache: &mut Cache) -> Result<bool, Fail> {
    Ok(put_pre(alloc, cache, "abd", b"Pxyz")? && hit(alloc, cache, "abd", Mode::Pre)? == Some(4))
}

/// Whether the file of a key stands at this path.
fn stands_at(alloc: Global, cache: &mut Cache, key: &str, path: &[u8]) -> Result<bool, NoMemory> {
    let key = Text::from_str(alloc, key)?;
    match cache.ask(&key, Mode::Path, 6)? {
        Answer::Found(found) => Ok(found.as_slice() == path),
        _ => Ok(false),
    }
}

/// Whether a store holds so much.
fn holds(cache: &Cache, bytes: u64, files: usize) -> Result<bool, NoMemory> {
    let held = cache.held_size()?;
    Ok(held.bytes == bytes && held.files == files)
}

fn answers(alloc: Global, cache: &mut Cache) -> Result<bool, Fail> {
    Ok(
        stores_and_finds(alloc, cache)?
            && keeps_preprocessor_entry(alloc, cache)?
            && stands_at(alloc, cache, "abc", b"/0/a/b/abc")?
            && holds(cache, 29, 2)?,
    )
}

fn answers_each(alloc: Global) -> Result<bool, Fail> {
    let mut cache = empty_cache(alloc)?;
    answers(alloc, &mut cache)
}

#[test]
fn ample_calls(rt: HostRuntime) -> Result<(), Fail> {
    assert!(rt; answers_each(rt.alloc())?);
    Ok(())
}
