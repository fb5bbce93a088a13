//! A check of a remote store, and a level that is only read. What else a store does the scripts of cases/ show.
use sc_disk::MemDisk;
use sc_entry::{ByteText, CacheMode, Items, Text};
use sc_model::{Answer, Cause, LevelKind, Mode, Policy, Store, Written};
use sc_store::{
    Checked, Level, MemRemote, ReadOnlyLevel, ReadOnlyStorage, RemoteStorage, Unvouched,
};
use std::alloc::Global;
use std::test::Fail;

fn text(alloc: Global, word: &str) -> Result<Text, Fail> {
    Ok(Text::from_str(alloc, word)?)
}

fn bytes(alloc: Global, word: &[u8]) -> Result<ByteText, Fail> {
    Ok(ByteText::from_slice(alloc, word)?)
}

/// A store that holds `AAA` under `abc`, and refuses the call of this number.
fn small_remote(alloc: Global, fails: u64) -> Result<MemRemote, Fail> {
    let mut held = Items::new(alloc);
    held.push((text(alloc, "a/b/c/abc")?, bytes(alloc, b"AAA")?))?;
    let mut failing = Items::new(alloc);
    failing.push(fails)?;
    Ok(MemRemote::new(alloc, held, failing)?)
}

type OneRemote = RemoteStorage<MemRemote, Unvouched>;

/// The same as a store in this mode.
fn remote_store(alloc: Global, fails: u64, mode: CacheMode) -> Result<OneRemote, Fail> {
    let remote = small_remote(alloc, fails)?;
    Ok(RemoteStorage::new(alloc, remote, Items::new(alloc), mode))
}

fn told_mode(mode: CacheMode) -> &'static str {
    match mode {
        CacheMode::ReadWrite => "read-write",
        CacheMode::ReadOnly => "read-only",
    }
}

fn told_checked(checked: Checked) -> &'static str {
    match checked {
        Checked::Mode(mode) => told_mode(mode),
        Checked::Refused(_) => "refused",
    }
}

/// What a check finds, the mode that holds then, and how many paths the remote has.
type Found = (&'static str, &'static str, usize);

fn checked(alloc: Global, store: &mut OneRemote, expected: Found) -> Result<bool, Fail> {
    let found = told_checked(store.check(alloc)?);
    let mode = told_mode(store.mode());
    Ok(found == expected.0 && mode == expected.1 && store.remote().len() == expected.2)
}

/// Whether a check of a store that refuses the call of this number comes to this.
fn checks(
    alloc: Global,
    fails: u64,
    mode: CacheMode,
    skips: bool,
    expected: Found,
) -> Result<bool, Fail> {
    let store = remote_store(alloc, fails, mode)?;
    let mut store = store.with_skip_cache_check(skips);
    checked(alloc, &mut store, expected)
}

#[test]
fn check_reads_and_writes(rt: HostRuntime) -> Result<(), Fail> {
    let (rw, ro) = (CacheMode::ReadWrite, CacheMode::ReadOnly);
    let rows = [
        (0, rw, false, ("read-write", "read-write", 2)),
        (1, rw, false, ("refused", "read-write", 1)),
        (2, rw, false, ("read-only", "read-only", 1)),
        (0, ro, false, ("read-only", "read-only", 1)),
        (1, rw, true, ("read-write", "read-write", 1)),
    ];
    for (fails, mode, skips, expected) in rows {
        assert!(rt;
            checks(rt.alloc(), fails, mode, skips, expected)?,
            "call {fails} fails"
        );
    }
    Ok(())
}

type OneLevel = Level<MemRemote, MemDisk, Unvouched>;

/// A level that is only read, over a store that can be written.
fn read_only_level(alloc: Global) -> Result<OneLevel, Fail> {
    let store = remote_store(alloc, 0, CacheMode::ReadWrite)?;
    Ok(Level::ReadOnly(ReadOnlyLevel::Remote(ReadOnlyStorage { store })))
}

/// Whether a put under `abc` is refused since the level is only read.
fn refuses_put(alloc: Global, level: &mut OneLevel) -> Result<bool, Fail> {
    let LevelKind::Remote = level.kind() else {
        return Ok(false);
    };
    let key = text(alloc, "abc")?;
    let entry = bytes(alloc, b"BB")?;
    let how = level.put_step(alloc, &Policy::Single, &key, &entry, true)?;
    Ok(matches!(how, Written::Refused(Cause::ReadOnly(Store::Wrapper))))
}

/// Whether a lookup gives the bytes that stand under `abc`.
fn hits(alloc: Global, level: &mut OneLevel) -> Result<bool, Fail> {
    let key = text(alloc, "abc")?;
    let answer = level.ask(alloc, &key, Mode::Raw, 0)?;
    match &answer {
        Answer::Hit(bytes, _) => Ok(bytes.as_slice() == b"AAA".as_slice()),
        _ => Ok(false),
    }
}

fn refuses_and_hits(alloc: Global, level: &mut OneLevel) -> Result<bool, Fail> {
    Ok(refuses_put(alloc, level)? && hits(alloc, level)?)
}

fn is_only_read(alloc: Global) -> Result<bool, Fail> {
    let mut level = read_only_level(alloc)?;
    refuses_and_hits(alloc, &mut level)
}

#[test]
fn level_that_is_only_read_takes_no_put(rt: HostRuntime) -> Result<(), Fail> {
    assert!(rt; is_only_read(rt.alloc())?);
    Ok(())
}
