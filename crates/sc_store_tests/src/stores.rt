//! Any store asked as one. A function that owns a store takes it of any kind, so that the end of one is proved once for all.
use crate::levels::{OneLevel, disk, remotes};
use sc_disk::MemDisk;
use sc_entry::{ByteText, Cache, CacheMode, CacheWrite, GetPathResult, Items, Text};
use sc_model::Cause;
use sc_stats::{ServerInfo, ServerStats};
use sc_store::{DiskCache, Level, MemRemote, RemoteStorage, Unvouched};
use sc_store_any::{MultiLevelStorage, ReadOnlyStorage, Storage, StorageError, StorageFacts};
use std::alloc::Global;
use std::test::Fail;

/// How a call ended, in words.
fn told(alloc: Global, end: Result<(), StorageError>) -> Result<String, Fail> {
    match end {
        Ok(()) => Ok(String::from_str(alloc, "ok")?),
        Err(error) => Ok(format!(in alloc; "{error}")?),
    }
}

/// Whether a refusal is told so.
fn is_told(alloc: Global, refusal: StorageError, expected: &str) -> Result<bool, Fail> {
    let text = told(alloc, Err(refusal))?;
    Ok(text.as_str() == expected)
}

fn tells_refusal_of_a_level(alloc: Global) -> Result<bool, Fail> {
    let refusal = StorageError::Level(0, Cause::Io);
    is_told(
        alloc,
        refusal,
        "Failed to write to cache level 0: disk fault",
    )
}

fn tells_torn_entry(alloc: Global) -> Result<bool, Fail> {
    let refusal = StorageError::Refused(Cause::BadEntry);
    is_told(alloc, refusal, "Failed to parse cache entry")
}

fn tells_no_levels(alloc: Global) -> Result<bool, Fail> {
    is_told(alloc, StorageError::NoLevels, "No cache levels configured")
}

#[test]
fn refusals_are_told(rt: HostRuntime) -> Result<(), Fail> {
    assert!(rt; tells_refusal_of_a_level(rt.alloc())?);
    assert!(rt; tells_torn_entry(rt.alloc())?);
    assert!(rt; tells_no_levels(rt.alloc())?);
    Ok(())
}

/// Whether a put of these bytes under `abc` is told so.
fn put_raw_is<S: Storage>(
    alloc: Global,
    store: &mut S,
    bytes: &[u8],
    expected: &str,
) -> Result<bool, Fail> {
    let key = Text::from_str(alloc, "abc")?;
    let bytes = ByteText::from_slice(alloc, bytes)?;
    let text = told(alloc, store.put_raw(alloc, &key, bytes, 1))?;
    Ok(text.as_str() == expected)
}

/// Whether a put of an entry under `abc` is told so.
fn put_is<S: Storage>(alloc: Global, store: &mut S, expected: &str) -> Result<bool, Fail> {
    let key = Text::from_str(alloc, "abc")?;
    let entry = CacheWrite::new(alloc)?;
    let text = told(alloc, store.put(alloc, &key, entry, 1))?;
    Ok(text.as_str() == expected)
}

/// Whether a put of an entry under this key is done.
fn puts<S: Storage>(alloc: Global, store: &mut S, key: &str) -> Result<bool, Fail> {
    let key = Text::from_str(alloc, key)?;
    let mut entry = CacheWrite::new(alloc)?;
    entry.put_stdout(b"hi")?;
    match store.put(alloc, &key, entry, 1) {
        Ok(()) => Ok(true),
        Err(_) => Ok(false),
    }
}

/// Whether an entry is found under `abc`.
fn hits<S: Storage>(alloc: Global, store: &mut S) -> Result<bool, Fail> {
    let key = Text::from_str(alloc, "abc")?;
    match store.get(alloc, &key, 2) {
        Ok(Cache::Hit(_)) => Ok(true),
        Ok(_) => Ok(false),
        Err(_) => Err(Fail::new("refused")),
    }
}

/// How many bytes stand under `abc`.
fn raw_len<S: Storage>(alloc: Global, store: &mut S) -> Result<usize, Fail> {
    let key = Text::from_str(alloc, "abc")?;
    match store.get_raw(alloc, &key, 2) {
        Ok(Some(bytes)) => Ok(bytes.len()),
        Ok(None) => Ok(0),
        Err(_) => Err(Fail::new("refused")),
    }
}

/// How many bytes a lookup of an entry and of its bytes gave of these: 0 where there is no entry.
fn get_with_raw<S: Storage>(alloc: Global, store: &mut S) -> Result<usize, Fail> {
    let key = Text::from_str(alloc, "abc")?;
    let (cache, bytes) = match store.get_with_raw(alloc, &key, 2) {
        Ok(both) => both,
        Err(_) => return Err(Fail::new("refused")),
    };
    let Cache::Hit(_) = cache else {
        return Ok(0);
    };
    match bytes {
        Some(bytes) => Ok(bytes.len()),
        None => Ok(0),
    }
}

/// How many bytes a preprocessor's entry under `abc` has, where there is one.
fn preprocessor_len<S: Storage>(alloc: Global, store: &mut S) -> Result<Option<usize>, Fail> {
    let key = Text::from_str(alloc, "abc")?;
    match store.get_preprocessor_cache_entry(alloc, &key, 2) {
        Ok(Some(bytes)) => Ok(Some(bytes.len())),
        Ok(None) => Ok(None),
        Err(_) => Err(Fail::new("refused")),
    }
}

/// Whether a put of such an entry under `abc`, of two bytes, is told so.
fn put_preprocessor_is<S: Storage>(
    alloc: Global,
    store: &mut S,
    expected: &str,
) -> Result<bool, Fail> {
    let key = Text::from_str(alloc, "abc")?;
    let put = store.put_preprocessor_cache_entry(alloc, &key, b"PP", 1);
    let text = told(alloc, put)?;
    Ok(text.as_str() == expected)
}

/// Whether a check finds that a store is only read.
fn is_read_only<S: Storage>(alloc: Global, store: &mut S) -> Result<bool, Fail> {
    match store.check(alloc) {
        Ok(CacheMode::ReadOnly) => Ok(true),
        Ok(CacheMode::ReadWrite) => Ok(false),
        Err(_) => Err(Fail::new("refused")),
    }
}

/// Whether the file of `abc` stands where a disk under `/0` has it.
fn has_path<S: Storage>(alloc: Global, store: &mut S) -> Result<bool, Fail> {
    let key = Text::from_str(alloc, "abc")?;
    match store.get_path(alloc, &key, 2)? {
        GetPathResult::Found(path) => Ok(path.as_slice() == b"/0/a/b/abc".as_slice()),
        GetPathResult::Miss => Ok(false),
        GetPathResult::Unsupported => Ok(false),
    }
}

/// Whether a store says that it stands here.
fn stands_at<S: Storage>(alloc: Global, store: &S, expected: &str) -> Result<bool, Fail> {
    let location = store.location(alloc)?;
    Ok(location.as_str() == expected)
}

/// Whether a store tells what its levels counted.
fn tells_of_levels<S: Storage>(alloc: Global, store: &S) -> Result<bool, Fail> {
    let counted = store.multilevel_stats(alloc)?;
    Ok(counted.is_some())
}

/// What a kind of store is asked for besides entries: where it stands, how many bytes of a preprocessor's entry it keeps, whether it
/// keeps files, and whether it has levels.
#[derive(Clone, Copy)]
struct Kind {
    location: &'static str,
    preprocessor: Option<usize>,
    has_files: bool,
    has_levels: bool,
}

/// Whether an entry that is put is found again, and its bytes, and one under a bad key isn't put.
fn holds_what_was_put<S: Storage>(alloc: Global, store: &mut S) -> Result<bool, Fail> {
    if hits(alloc, store)? || !puts(alloc, store, "abc")? || puts(alloc, store, "a")? {
        return Ok(false);
    }
    let both = get_with_raw(alloc, store)?;
    Ok(hits(alloc, store)? && both == raw_len(alloc, store)?)
}

/// Whether a preprocessor's entry that is put is kept, or not.
fn keeps_preprocessor_entry<S: Storage>(
    alloc: Global,
    store: &mut S,
    kept: Option<usize>,
) -> Result<bool, Fail> {
    Ok(put_preprocessor_is(alloc, store, "ok")? && preprocessor_len(alloc, store)? == kept)
}

/// Whether a store tells of itself so.
fn is_of_kind<S: Storage>(alloc: Global, store: &mut S, kind: Kind) -> Result<bool, Fail> {
    Ok(
        has_path(alloc, store)? == kind.has_files
            && stands_at(alloc, store, kind.location)?
            && tells_of_levels(alloc, store)? == kind.has_levels,
    )
}

/// Whether a store that can be written answers each call.
fn answers<S: Storage>(alloc: Global, store: &mut S, kind: Kind) -> Result<bool, Fail> {
    Ok(
        holds_what_was_put(alloc, store)?
            && !is_read_only(alloc, store)?
            && keeps_preprocessor_entry(alloc, store, kind.preprocessor)?
            && is_of_kind(alloc, store, kind)?,
    )
}

/// The same of a store that is given away.
fn is_asked<S: Storage + Drop>(alloc: Global, store: S, kind: Kind) -> Result<bool, Fail> {
    let mut store = store;
    answers(alloc, &mut store, kind)
}

type OneRemote = RemoteStorage<MemRemote, Unvouched>;

/// A remote store that holds nothing. Its call of this number is refused.
fn remote_store(alloc: Global, fails: u64) -> Result<OneRemote, Fail> {
    let mut failing = Items::new(alloc);
    failing.push(fails)?;
    let remote = MemRemote::new(alloc, Items::new(alloc), failing)?;
    Ok(RemoteStorage::new(alloc, remote, Items::new(alloc), CacheMode::ReadWrite))
}

#[test]
fn remote_store_answers(rt: HostRuntime) -> Result<(), Fail> {
    let kind = Kind {
        location: "memory, name: m, prefix: /",
        preprocessor: None,
        has_files: false,
        has_levels: false,
    };
    let remote = remote_store(rt.alloc(), 0)?;
    assert!(rt; is_asked(rt.alloc(), remote, kind)?);
    Ok(())
}

/// A disk store of 100 bytes.
fn disk_store(alloc: Global) -> Result<DiskCache<MemDisk, Unvouched>, Fail> {
    let main = disk(alloc, b"/0")?;
    let pre = disk(alloc, b"/0p")?;
    let (mode, basedirs) = (CacheMode::ReadWrite, Items::new(alloc));
    Ok(DiskCache::new(alloc, main, pre, 100, true, mode, basedirs))
}

const DISK: Kind = Kind {
    location: "Local disk: \"/0\"",
    preprocessor: Some(2),
    has_files: true,
    has_levels: false,
};

#[test]
fn disk_store_answers(rt: HostRuntime) -> Result<(), Fail> {
    let disk = disk_store(rt.alloc())?;
    assert!(rt; is_asked(rt.alloc(), disk, DISK)?);
    Ok(())
}

/// The same as a level.
fn disk_level(alloc: Global) -> Result<OneLevel, Fail> {
    Ok(Level::Disk(disk_store(alloc)?))
}

#[test]
fn level_answers(rt: HostRuntime) -> Result<(), Fail> {
    let level = disk_level(rt.alloc())?;
    assert!(rt; is_asked(rt.alloc(), level, DISK)?);
    Ok(())
}

#[test]
fn levels_answer(rt: HostRuntime) -> Result<(), Fail> {
    let kind = Kind {
        location: "Multi-level (1 levels)",
        preprocessor: Some(2),
        has_files: false,
        has_levels: true,
    };
    let alloc = rt.alloc();
    let levels = vec![in alloc; disk_level(alloc)?]?;
    let store = MultiLevelStorage::new(alloc, levels)?;
    assert!(rt; is_asked(alloc, store, kind)?);
    Ok(())
}

/// Whether a check of a store is refused.
fn refuses_check<S: Storage + Drop>(alloc: Global, store: S) -> bool {
    let mut store = store;
    let checked = store.check(alloc);
    checked.is_err()
}

/// A check over levels reads, and that is refused here.
#[test]
fn levels_are_read_for_a_check(rt: HostRuntime) -> Result<(), Fail> {
    let alloc = rt.alloc();
    let remote: OneLevel = Level::Remote(remote_store(alloc, 1)?);
    let levels = vec![in alloc; remote]?;
    let store = MultiLevelStorage::new(alloc, levels)?;
    assert!(rt; refuses_check(alloc, store));
    Ok(())
}

/// Whether statistics are told that a store stands here, and that it has levels or none.
fn statistics_tell<S: Storage>(alloc: Global, store: &S, location: &str) -> Result<bool, Fail> {
    let facts = StorageFacts::new(store);
    let info = ServerInfo::new(alloc, ServerStats::new(alloc), Some(&facts))?;
    Ok(info.cache_location.as_str() == location && info.stats.multi_level.is_none())
}

/// Whether a store that is only read, and holds three bytes under `abc`, refuses puts and tells what is read.
fn only_reads<S: Storage>(alloc: Global, store: &mut S) -> Result<bool, Fail> {
    let unsupported = "put_raw not implemented for this storage backend";
    Ok(
        put_is(alloc, store, "Cannot write to read-only storage")?
            && put_raw_is(alloc, store, b"BB", unsupported)?
            && raw_len(alloc, store)? == 3
            && is_read_only(alloc, store)?
            && statistics_tell(alloc, store, "Multi-level (2 levels)")?,
    )
}

fn is_only_read<S: Storage + Drop>(alloc: Global, store: S) -> Result<bool, Fail> {
    let mut store = ReadOnlyStorage { store };
    only_reads(alloc, &mut store)
}

/// Over two levels of which the second holds `AAA` under `abc`.
#[test]
fn store_that_is_only_read_answers(rt: HostRuntime) -> Result<(), Fail> {
    let levels = remotes(rt.alloc(), &[b"", b"AAA"])?;
    let store = MultiLevelStorage::new(rt.alloc(), levels)?;
    assert!(rt; is_only_read(rt.alloc(), store)?);
    Ok(())
}
