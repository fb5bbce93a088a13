//! Files and streams of the host.
use sc_entry::{ByteText, FileError, Files, Sink, Source, read_to_end, write_all};
use sc_host::{HostFiles, ReaderSource, WriterSink};
use std::alloc::Global;
use std::test::Fail;

/// Whether a file is placed in another's place, and read with its mode.
fn replaces<F: Files>(files: &mut F, path: &ByteText) -> Result<bool, FileError> {
    files.place(path, b"first", Some(0o640))?;
    files.place(path, b"AB", Some(0o100755))?;
    let content = files.read(path)?;
    let whole = content.bytes.as_slice() == b"AB".as_slice() && content.mode == Some(0o755);
    Ok(whole && files.faults() == 0)
}

/// Whether a path that can't be told is refused twice, and counted.
fn refuses_path<F: Files>(files: &mut F, path: &ByteText) -> bool {
    let unread = files.read(path).is_err();
    let unplaced = files.place(path, b"", None).is_err();
    unread && unplaced && files.faults() == 2
}

/// Whether files replace one of theirs, and refuse a path that isn't UTF-8.
fn keeps_files<F: Files>(alloc: Global, files: &mut F) -> Result<bool, Fail> {
    let path = ByteText::from_slice(alloc, b"placed")?;
    let unspeakable = ByteText::from_slice(alloc, &[0xff])?;
    let replaced = replaces(files, &path)?;
    let refused = refuses_path(files, &unspeakable);
    Ok(replaced && refused)
}

/// Whether the host's files do.
fn keeps_host_files(rt: &HostRuntime) -> Result<bool, Fail> {
    let mut files = HostFiles::new(rt.clone()?);
    keeps_files(rt.alloc(), &mut files)
}

#[test]
fn files_of_the_host(rt: HostRuntime) -> Result<(), Fail> {
    assert!(rt; keeps_host_files(&rt)?);
    Ok(())
}

/// Whether a source is read to its end, answers these bytes, and refuses nothing.
fn reads<S: Source>(alloc: Global, source: &mut S, expected: &[u8]) -> Result<bool, Fail> {
    let bytes = read_to_end(alloc, source, 100)?;
    Ok(bytes.as_slice() == expected && source.faults() == 0)
}

/// Whether a sink takes a line, and refuses nothing.
fn takes_line<O: Sink>(sink: &mut O) -> Result<bool, Fail> {
    write_all(sink, b"written\n")?;
    Ok(sink.faults() == 0)
}

/// Reads a source to its end.
fn drain<S: Source>(alloc: Global, source: &mut S) -> Result<(), Fail> {
    read_to_end(alloc, source, 100)?;
    Ok(())
}

/// Whether a reader's bytes are read.
fn reads_bytes(alloc: Global) -> Result<bool, Fail> {
    let mut source = ReaderSource::new(b"read".as_slice());
    reads(alloc, &mut source, b"read")
}

/// Whether standard output takes a line.
fn writes_output(rt: &HostRuntime) -> Result<bool, Fail> {
    let mut sink = WriterSink::new(rt.stdout());
    takes_line(&mut sink)
}

/// Reads standard input.
fn read_input(rt: &HostRuntime) -> Result<(), Fail> {
    let mut source = ReaderSource::new(rt.stdin());
    drain(rt.alloc(), &mut source)
}

#[test]
fn streams_of_the_host(rt: HostRuntime) -> Result<(), Fail> {
    let read = reads_bytes(rt.alloc())?;
    let written = writes_output(&rt)?;
    assert!(rt; read && written);
    read_input(&rt)
}
