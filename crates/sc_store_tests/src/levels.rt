//! The calls that levels alone have.
use sc_disk::MemDisk;
use sc_entry::{ByteText, CacheMode, Calls, Items, Text};
use sc_model::{Answer, Mode};
use sc_stats::LevelStats;
use sc_store::{Level, MemRemote, RemoteStorage, Unvouched};
use sc_store_any::MultiLevelStorage;
use sc_store_config::{DiskConfig, StoreConfig, WriteErrorPolicy};
use std::alloc::Global;
use std::collections::BTreeMap;
use std::process::Abort;
use std::test::Fail;

type Storage = MultiLevelStorage<MemRemote, MemDisk, Unvouched>;

pub(crate) type OneLevel = Level<MemRemote, MemDisk, Unvouched>;

const RW: CacheMode = CacheMode::ReadWrite;

/// A remote level that holds these bytes under `abc`, if there are any.
fn remote(alloc: Global, held: &[u8]) -> Result<OneLevel, Fail> {
    let mut files = Items::new(alloc);
    if !held.is_empty() {
        let path = Text::from_str(alloc, "a/b/c/abc")?;
        files.push((path, ByteText::from_slice(alloc, held)?))?;
    }
    let remote = MemRemote::new(alloc, files, Items::new(alloc))?;
    Ok(Level::Remote(RemoteStorage::new(alloc, remote, Items::new(alloc), RW)))
}

/// An empty disk in memory under this root.
pub(crate) fn disk(alloc: Global, root: &[u8]) -> Result<MemDisk, Fail> {
    let root = ByteText::from_slice(alloc, root)?;
    Ok(MemDisk::new(alloc, root, BTreeMap::new(alloc), Calls::new(alloc)))
}

/// Remote levels, which hold these bytes under `abc`, where there are any.
pub(crate) fn remotes(alloc: Global, held: &[&[u8]]) -> Result<Vec<OneLevel>, Fail> {
    let mut levels = Vec::new(alloc);
    for bytes in held {
        levels.push(remote(alloc, bytes)?)?;
    }
    Ok(levels)
}

/// What a level counted: hits, misses, writes, failures, backfills from it, and backfills to it.
fn counted(alloc: Global, counters: &[LevelStats], level: usize) -> Result<String, Fail> {
    let Some(c) = counters.get(level) else {
        return Err(Fail::new("no such level"));
    };
    let text = format!(in alloc;
        "{} {} {} {} {} {}",
        c.hits, c.misses, c.writes, c.write_failures, c.backfills_from, c.backfills_to,
    )?;
    Ok(text)
}

/// Whether a level counted so.
fn has_counted(alloc: Global, store: &Storage, level: usize, expected: &str) -> Result<bool, Fail> {
    let text = counted(alloc, store.stats(), level)?;
    Ok(text.as_str() == expected)
}

/// Asks a level for the bytes under `abc`, and says whether it has them.
fn looks_up(alloc: Global, store: &mut Storage, level: usize) -> Result<bool, Fail> {
    if level >= store.levels().len() {
        return Err(Fail::new("no such level"));
    }
    let key = Text::from_str(alloc, "abc")?;
    match store.lookup_step(alloc, level, &key, Mode::Raw, 1)? {
        Answer::Hit(_, _) => Ok(true),
        _ => Ok(false),
    }
}

/// Puts bytes under `abc` at a level, as a put or as a hit's.
fn write(alloc: Global, store: &mut Storage, level: usize, backfill: bool) -> Result<(), Fail> {
    if level >= store.levels().len() {
        return Err(Fail::new("no such level"));
    }
    let key = Text::from_str(alloc, "abc")?;
    let bytes = ByteText::from_slice(alloc, b"AAA")?;
    if backfill {
        store.backfill_step(alloc, level as u64, &key, &bytes, false, 1)?;
    } else {
        store.put_step(alloc, level as u64, &key, &bytes, false, 1)?;
    }
    Ok(())
}

fn takes_single_steps(rt: &impl Abort, alloc: Global, store: &mut Storage) -> Result<(), Fail> {
    assert!(rt; !looks_up(alloc, store, 0)?);
    assert!(rt; looks_up(alloc, store, 1)?);
    write(alloc, store, 0, true)?;
    write(alloc, store, 1, false)?;
    assert!(rt; has_counted(alloc, store, 0, "0 1 0 0 0 1")?);
    assert!(rt; has_counted(alloc, store, 1, "1 0 1 0 1 0")?);
    Ok(())
}

#[test]
fn single_steps_touch_one_level(rt: HostRuntime) -> Result<(), Fail> {
    let alloc = rt.alloc();
    let mut store = Storage::new(alloc, remotes(alloc, &[b"", b"AAA"])?)?;
    takes_single_steps(&rt, alloc, &mut store)
}

/// A disk store of 100 bytes under this root.
fn disk_config(alloc: Global, root: &[u8]) -> Result<DiskConfig<MemDisk>, Fail> {
    Ok(DiskConfig {
        main: disk(alloc, root)?,
        pre: disk(alloc, b"/pre")?,
        max_size: 100,
        use_preprocessor_cache_mode: true,
        mode: RW,
    })
}

/// The store of a chain of these names. One is a disk.
fn chain(alloc: Global, names: Items<Text>) -> Result<Option<Storage>, Fail> {
    let config = StoreConfig {
        chain: names,
        level_policies: None,
        write_error_policy: WriteErrorPolicy::new(),
        disk: Some(disk_config(alloc, b"/0")?),
        remotes: Items::new(alloc),
        remote: None,
        fallback: disk_config(alloc, b"/1")?,
        basedirs: Items::new(alloc),
        skip_cache_check: false,
    };
    match Storage::from_config(alloc, config) {
        Ok(store) => Ok(store),
        Err(_) => Err(Fail::new("no store")),
    }
}

#[test]
fn ample_from_config(rt: HostRuntime) -> Result<(), Fail> {
    let alloc = rt.alloc();
    let names = Items::from_vec(vec![in alloc; Text::from_str(alloc, "disk")?]?);
    assert!(rt; chain(alloc, names)?.is_some());
    Ok(())
}
