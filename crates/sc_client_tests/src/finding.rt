//! Where programs are found.
use sc_client::{ClientError, which_in};
use sc_compile::{Tool, ToolKind, ToolTable};
use sc_entry::{ByteText, NoMemory};
use std::alloc::Global;
use std::test::Fail;

fn bytes(alloc: Global, text: &[u8]) -> Result<ByteText, NoMemory> {
    ByteText::from_slice(alloc, text)
}

/// A table with files at some paths.
fn files(alloc: Global, paths: &[&[u8]]) -> Result<ToolTable, Fail> {
    let mut tools = Vec::new(alloc);
    for path in paths {
        tools.push(Tool {
            path: bytes(alloc, path)?,
            moment: 1,
            kind: ToolKind::NotACompiler,
        })?;
    }
    Ok(ToolTable::new(alloc, tools, Vec::new(alloc))?)
}

/// Where a name is found in `/a`, `/b/` and `/c`, working in `/w`; nothing where it isn't.
fn found(alloc: Global, paths: &[&[u8]], name: &[u8]) -> Result<ByteText, Fail> {
    let folders = [
        bytes(alloc, b"/a")?,
        bytes(alloc, b"/b/")?,
        bytes(alloc, b"/c")?,
    ];
    let files = files(alloc, paths)?;
    let cwd = bytes(alloc, b"/w")?;
    match which_in(alloc, &files, &bytes(alloc, name)?, &folders, &cwd) {
        Ok(path) => Ok(path),
        Err(ClientError::NotFound(_)) => Ok(ByteText::new(alloc)),
        Err(error) => Err(Fail::from(error)),
    }
}

#[test]
fn ample_which_in(rt: HostRuntime) -> Result<(), Fail> {
    let paths = [b"/c/cc".as_slice(), b"/b/cc", b"/w/d/cc", b"/cc", b"cc"];
    let cases = [
        (b"cc".as_slice(), b"/b/cc".as_slice()),
        (b"/c/cc", b"/c/cc"),
        (b"/a/cc", b""),
        (b"d/cc", b"/w/d/cc"),
        (b"c/cc", b""),
        (b"gcc", b""),
    ];
    for (name, path) in cases {
        let found = found(rt.alloc(), &paths, name)?;
        assert!(rt; found.as_slice() == path);
    }
    Ok(())
}
