//! A probe over a folder of the host.
use sc_compile::{Detected, Probe};
use sc_compile_language::{CCompilerKind, CompilerKind};
use sc_entry::{ByteText, NoMemory, Text};
use sc_host_probe::HostProbe;
use std::alloc::Global;
use std::fs::{FileTimes, OpenFile, OpenOptions};
use std::os::unix::fs::symlink;
use std::test::Fail;
use std::time::{Duration, SystemTime};
use std::{fs, io};

fn path_of(alloc: Global, path: &[u8]) -> Result<ByteText, NoMemory> {
    ByteText::from_slice(alloc, path)
}

/// What a probe says of a path: when its file was changed, and which compiler it is, in a word.
#[derive(Drop)]
struct Said {
    moment: Option<u64>,
    kind: &'static str,
}

fn word_of(kind: CompilerKind) -> &'static str {
    match kind {
        CompilerKind::Rust => "rustc",
        CompilerKind::C(CCompilerKind::Nvcc) => "nvcc",
        CompilerKind::C(CCompilerKind::Clang) => "clang",
        CompilerKind::C(CCompilerKind::Gcc) => "gcc",
        CompilerKind::C(_) => "other",
    }
}

/// Which compiler was found; none where no file was.
fn kind_of(found: Detected) -> &'static str {
    match found {
        Detected::Compiler(kind) => word_of(kind),
        Detected::Refused(why) if why.as_str() == "compiler not found" => "none",
        Detected::Refused(_) => "refused",
    }
}

fn said_of<P: Probe>(alloc: Global, probe: &P, path: &[u8]) -> Result<Said, NoMemory> {
    let path = path_of(alloc, path)?;
    let found = probe.detect(alloc, &path)?;
    Ok(Said {
        moment: probe.moment(&path),
        kind: kind_of(found),
    })
}

/// Whether a probe finds a file of this moment and this compiler.
fn finds<P: Probe>(
    alloc: Global,
    probe: &P,
    path: &[u8],
    moment: u64,
    kind: &str,
) -> Result<bool, NoMemory> {
    let said = said_of(alloc, probe, path)?;
    Ok(said.moment == Some(moment) && said.kind == kind)
}

/// Whether a probe finds no file.
fn finds_none<P: Probe>(alloc: Global, probe: &P, path: &[u8]) -> Result<bool, NoMemory> {
    let said = said_of(alloc, probe, path)?;
    Ok(said.moment.is_none() && said.kind == "none")
}

/// Makes a file that was changed at a moment.
fn make<R: fs::Files>(rt: &R, path: &str, changed: SystemTime) -> io::Result<()> {
    fs::write(rt, path, b"#!/bin/sh\n")?;
    let mut options = OpenOptions::new();
    let file = options.append(true).open(rt, path)?;
    file.set_times(FileTimes::new().set_modified(changed))
}

/// So many nanoseconds behind the beginning of 1970.
fn behind(nanoseconds: u64) -> Option<SystemTime> {
    SystemTime::UNIX_EPOCH.checked_add(Duration::from_nanos(nanoseconds))
}

const MOMENT: u64 = 7_000_000_001;

/// The names of compilers, and which they are.
const NAMES: [(&str, &str); 9] = [
    ("bin/rustc", "rustc"),
    ("bin/nvcc", "nvcc"),
    ("bin/clang", "clang"),
    ("bin/x-clang++-17", "clang"),
    ("bin/cc", "gcc"),
    ("bin/rustc2", "gcc"),
    ("bin/nvcc.real", "gcc"),
    ("bin/clan", "gcc"),
    ("bin/clclang", "clang"),
];

fn finds_each<R: fs::Files, P: Probe>(rt: &R, alloc: Global, probe: &P) -> Result<bool, Fail> {
    let changed = behind(MOMENT).ok_or("a moment")?;
    for (path, kind) in NAMES {
        make(rt, path, changed)?;
        if !finds(alloc, probe, path.as_bytes(), MOMENT, kind)? {
            return Ok(false);
        }
    }
    Ok(true)
}

/// A compiler is known by its name and has the moment of its file.
#[test]
fn compilers_by_name(rt: HostRuntime) -> Result<(), Fail> {
    fs::create_dir_all(&rt, "bin")?;
    assert!(rt; finds_each(&rt, rt.alloc(), &HostProbe::new(rt))?);
    Ok(())
}

/// Whether links are followed, also to another name, and a link to nothing is none.
fn follows_links<R: fs::Files, P: Probe>(rt: &R, alloc: Global, probe: &P) -> Result<bool, Fail> {
    let changed = behind(MOMENT).ok_or("a moment")?;
    make(rt, "links/gcc-12", changed)?;
    symlink(rt, "gcc-12", "links/clang")?;
    symlink(rt, "nothing", "links/rustc")?;
    let known = finds(alloc, probe, b"links/clang", MOMENT, "clang")?;
    Ok(known && finds_none(alloc, probe, b"links/rustc")?)
}

#[test]
fn links(rt: HostRuntime) -> Result<(), Fail> {
    fs::create_dir_all(&rt, "links")?;
    assert!(rt; follows_links(&rt, rt.alloc(), &HostProbe::new(rt))?);
    Ok(())
}

/// Paths at which no compiler is: an absent one, a folder, one within a file, an empty one, and what is no path of the host.
const NONE: [&[u8]; 7] = [
    b"none/absent",
    b"none",
    b"none/",
    b"none/file/cc",
    b"",
    b"none/\xff",
    b"none/file\0",
];

fn finds_none_of<P: Probe>(alloc: Global, probe: &P) -> Result<bool, NoMemory> {
    for path in NONE {
        if !finds_none(alloc, probe, path)? {
            return Ok(false);
        }
    }
    Ok(true)
}

#[test]
fn no_compilers(rt: HostRuntime) -> Result<(), Fail> {
    fs::create_dir_all(&rt, "none")?;
    fs::write(&rt, "none/file", b"")?;
    assert!(rt; finds_none_of(rt.alloc(), &HostProbe::new(rt))?);
    Ok(())
}

/// No key is refused.
#[test]
fn refusals(rt: HostRuntime) -> Result<(), Fail> {
    let probe = HostProbe::new(rt);
    let key = Text::from_str(rt.alloc(), "key1")?;
    assert!(rt; probe.refusal(rt.alloc(), &key)?.is_none());
    Ok(())
}
