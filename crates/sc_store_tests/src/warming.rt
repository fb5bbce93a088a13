//! Warming a store over a folder of the host.
use sc_entry::{ByteText, CacheMode, Items, Text};
use sc_host::HostDisk;
use sc_host_folders::{StoreFolders, store_folders};
use sc_store::{DiskCache, MemRemote, RemoteStorage, Unvouched};
use sc_store_alone::Storage;
use sc_store_warm::{Warmed, warm};
use std::alloc::Global;
use std::test::Fail;

/// The entry of a standard output `hi`.
const ENTRY: &[u8] = b"SCE1\x01\x00\x06\x00stdout\x00\x02\x00\x00\x00\x00\x00\x00\x00hi";

/// A store in a folder of the host.
type InFolder = DiskCache<HostDisk<HostRuntime>, Unvouched>;

/// The store of 60 bytes in the folder `warmed`.
fn in_folder(rt: HostRuntime) -> Result<InFolder, Fail> {
    let folder = ByteText::from_slice(rt.alloc(), b"warmed")?;
    let Ok(folders) = store_folders(rt, &folder) else {
        return Err(Fail::new("no folders"));
    };
    let StoreFolders { main, pre } = folders;
    let basedirs = Items::new(rt.alloc());
    Ok(DiskCache::new(
        rt.alloc(),
        main,
        pre,
        60,
        true,
        CacheMode::ReadWrite,
        basedirs,
    ))
}

/// Adds the entry at a path.
fn add(alloc: Global, files: &mut Items<(Text, ByteText)>, path: &str) -> Result<(), Fail> {
    let path = Text::from_str(alloc, path)?;
    files.push((path, ByteText::from_slice(alloc, ENTRY)?))?;
    Ok(())
}

fn add_three(alloc: Global, files: &mut Items<(Text, ByteText)>) -> Result<(), Fail> {
    add(alloc, files, "a/a/a/aaa")?;
    add(alloc, files, "b/b/b/bbb")?;
    add(alloc, files, "c/c/c/ccc")
}

fn three_files(alloc: Global) -> Result<Items<(Text, ByteText)>, Fail> {
    let mut files = Items::new(alloc);
    add_three(alloc, &mut files)?;
    Ok(files)
}

/// A remote store of the entry under `aaa`, `bbb` and `ccc`.
fn source(alloc: Global) -> Result<RemoteStorage<MemRemote, Unvouched>, Fail> {
    let files = three_files(alloc)?;
    let remote = MemRemote::new(alloc, files, Items::new(alloc))?;
    let basedirs = Items::new(alloc);
    Ok(RemoteStorage::new(alloc, remote, basedirs, CacheMode::ReadWrite))
}

fn texts(alloc: Global, keys: &[&str]) -> Result<Vec<Text>, Fail> {
    let mut texts = Vec::new(alloc);
    for key in keys {
        texts.push(Text::from_str(alloc, key)?)?;
    }
    Ok(texts)
}

fn is_copied(warmed: &Warmed) -> bool {
    match warmed {
        Warmed::Copied(size) => *size == 25,
        Warmed::Absent => false,
        Warmed::Torn => false,
        Warmed::FromRefused(_) => false,
        Warmed::ToRefused(_) => false,
    }
}

/// How many entries were copied.
fn copied(told: &[Warmed]) -> usize {
    let mut count = 0usize;
    for warmed in told {
        if is_copied(warmed) {
            count = count.saturating_add(1);
        }
    }
    count
}

/// Copies the entries of keys, and says how many were copied.
fn warms<A: Storage, B: Storage>(
    alloc: Global,
    from: &mut A,
    to: &mut B,
    keys: &[&str],
) -> Result<usize, Fail> {
    let keys = texts(alloc, keys)?;
    let told = warm(alloc, from, to, &keys, 9)?;
    Ok(copied(&told))
}

/// Whether a store has these bytes under a key; none where they are empty.
fn has<S: Storage>(alloc: Global, store: &mut S, key: &str, bytes: &[u8]) -> Result<bool, Fail> {
    let key = Text::from_str(alloc, key)?;
    match store.get_raw(alloc, &key, 10) {
        Ok(Some(found)) => Ok(found.as_slice() == bytes),
        Ok(None) => Ok(bytes.is_empty()),
        Err(_) => Err(Fail::new("refused")),
    }
}

/// Whether a store has the entry under `aaa` and `ccc`, and nothing under `bbb`.
fn has_two<S: Storage>(alloc: Global, store: &mut S) -> Result<bool, Fail> {
    let first = has(alloc, store, "aaa", ENTRY)? && has(alloc, store, "bbb", b"")?;
    Ok(first && has(alloc, store, "ccc", ENTRY)?)
}

/// Whether a store that takes two entries has two of three, the first of which was copied once more before the third.
fn takes_two<S: Storage>(alloc: Global, to: &mut S) -> Result<bool, Fail> {
    let mut from = source(alloc)?;
    let keys = ["aaa", "bbb", "aaa", "ccc", "ddd"];
    Ok(warms(alloc, &mut from, to, &keys)? == 4 && has_two(alloc, to)?)
}

fn fills_folder(rt: HostRuntime) -> Result<bool, Fail> {
    let mut to = in_folder(rt)?;
    takes_two(rt.alloc(), &mut to)
}

/// Whether a store that is opened on the folder anew has the whole entries.
fn keeps_entries(rt: HostRuntime) -> Result<bool, Fail> {
    let mut store = in_folder(rt)?;
    has_two(rt.alloc(), &mut store)
}

/// What was copied into a folder is whole in a store that is opened on it anew.
#[test]
fn ample_warm(rt: HostRuntime) -> Result<(), Fail> {
    assert!(rt; fills_folder(rt)?);
    assert!(rt; keeps_entries(rt)?);
    Ok(())
}
