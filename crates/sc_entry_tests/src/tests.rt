ghost use Rattle.std.specs.Prelude.{None};

use sc_entry::{
    ByteText, Cache, CacheRead, CacheWrite, Calls, ExtractError, FileObjectSource, Files,
    FromObjectsError, GetError, Items, MemFiles, MemSink, MemSource, PutError, ReadEntryError,
    ReadError, Sink, Source, Text, WriteError, read_to_end, write_all,
};
use std::alloc::Global;
use std::test::Fail;

/// `obj` with the bytes `AB`, and `hi` on standard output.
const ENTRY: &[u8] = &[
    0x53, 0x43, 0x45, 0x31, 2, 0, 3, 0, 0x6f, 0x62, 0x6a, 0, 2, 0, 0, 0, 0, 0, 0, 0, 0x41, 0x42, 6,
    0, 0x73, 0x74, 0x64, 0x6f, 0x75, 0x74, 0, 2, 0, 0, 0, 0, 0, 0, 0, 0x68, 0x69,
];

/// An entry with the object `a` twice.
const DOUBLED: &[u8] = &[
    0x53, 0x43, 0x45, 0x31, 2, 0, 1, 0, 0x61, 0, 0, 0, 0, 0, 0, 0, 0, 0, 1, 0, 0x61, 0, 0, 0, 0, 0,
    0, 0, 0, 0,
];

/// An entry with an object that has no name.
const UNNAMED: &[u8] = &[
    0x53, 0x43, 0x45, 0x31, 1, 0, 0, 0, 0, 0, 0, 0, 0, 0, 0, 0, 0,
];

/// An entry of these bytes.
fn entry_of(alloc: Global, bytes: &[u8]) -> Result<CacheRead, Fail> {
    Ok(CacheRead::from(alloc, ByteText::from_slice(alloc, bytes)?)?)
}

/// An entry of bytes that were written.
fn written_entry(alloc: Global, bytes: Vec<u8>) -> Result<CacheRead, Fail> {
    Ok(CacheRead::from(alloc, ByteText::from_vec(bytes))?)
}

/// Puts the objects of `ENTRY`, and an empty standard error.
fn put_small(entry: &mut CacheWrite) -> Result<(), PutError> {
    entry.put_object("obj", b"AB", None)?;
    entry.put_stdout(b"hi")?;
    entry.put_stderr(b"")
}

/// The bytes of a written entry with the objects of `ENTRY`.
fn small_bytes(alloc: Global) -> Result<Vec<u8>, Fail> {
    let mut entry = CacheWrite::new(alloc)?;
    put_small(&mut entry)?;
    Ok(entry.finish())
}

#[test]
fn ample_put_object(rt: HostRuntime) -> Result<(), Fail> {
    let bytes = small_bytes(rt.alloc())?;
    assert!(rt; bytes.len() == 41 && bytes.as_slice() == ENTRY);
    Ok(())
}

/// The bytes of a written entry with a standard output alone.
fn stdout_bytes(alloc: Global) -> Result<Vec<u8>, Fail> {
    let mut entry = CacheWrite::new(alloc)?;
    entry.put_stdout(b"hi")?;
    Ok(entry.finish())
}

#[test]
fn ample_put_stdout(rt: HostRuntime) -> Result<(), Fail> {
    let bytes = stdout_bytes(rt.alloc())?;
    let expected = [
        0x53, 0x43, 0x45, 0x31, 0x01, 0x00, 0x06, 0x00, 0x73, 0x74, 0x64, 0x6f, 0x75, 0x74, 0x00,
        0x02, 0x00, 0x00, 0x00, 0x00, 0x00, 0x00, 0x00, 0x68, 0x69,
    ];
    assert_eq!(rt; bytes.as_slice(), expected.as_slice());
    Ok(())
}

/// Puts an object `lib` with a mode, and a standard error.
fn put_library(entry: &mut CacheWrite) -> Result<(), PutError> {
    entry.put_object("lib", b"xyz", Some(0o755))?;
    entry.put_stderr(b"warned")
}

/// The bytes of a written entry with a library.
fn library_bytes(alloc: Global) -> Result<Vec<u8>, Fail> {
    let mut entry = CacheWrite::new(alloc)?;
    put_library(&mut entry)?;
    Ok(entry.finish())
}

/// Whether an entry answers the library's mode, bytes and streams.
fn answers_library(entry: &CacheRead, sink: &mut MemSink) -> Result<bool, Fail> {
    let mode = entry.get_object("lib", sink)?;
    let object = mode == Some(0o755) && sink.as_slice() == b"xyz".as_slice();
    let stdout = entry.get_stdout() == b"".as_slice();
    let stderr = entry.get_stderr() == b"warned".as_slice();
    Ok(object && stdout && stderr)
}

/// Whether an entry of these bytes holds the library.
fn holds_library(alloc: Global, bytes: Vec<u8>) -> Result<bool, Fail> {
    let entry = written_entry(alloc, bytes)?;
    let mut sink = MemSink::new(alloc, Calls::new(alloc));
    answers_library(&entry, &mut sink)
}

#[test]
fn ample_get_object(rt: HostRuntime) -> Result<(), Fail> {
    let bytes = library_bytes(rt.alloc())?;
    assert!(rt; holds_library(rt.alloc(), bytes)?);
    Ok(())
}

fn read_fails(alloc: Global, bytes: &[u8]) -> Result<bool, Fail> {
    match CacheRead::from(alloc, ByteText::from_slice(alloc, bytes)?) {
        Ok(_) => Ok(false),
        Err(error) => Ok(error == ReadEntryError::BadEntry),
    }
}

/// Whether an entry with a byte behind its end is refused.
fn longer_fails(alloc: Global) -> Result<bool, Fail> {
    let mut longer = ENTRY.to_vec(alloc)?;
    longer.push(0)?;
    read_fails(alloc, &longer)
}

#[test]
fn broken_entries_are_refused(rt: HostRuntime) -> Result<(), Fail> {
    let alloc = rt.alloc();
    for len in 0..ENTRY.len() {
        assert!(rt; read_fails(alloc, &ENTRY[..len])?, "prefix of {len}");
    }
    let longer = longer_fails(alloc)?;
    let doubled = read_fails(alloc, DOUBLED)?;
    let unnamed = read_fails(alloc, UNNAMED)?;
    let whole = read_fails(alloc, ENTRY)?;
    assert!(rt; longer && doubled && unnamed && !whole);
    Ok(())
}

/// A sink that takes three bytes at a time.
#[derive(Drop)]
struct Sips {
    taken: Vec<u8>,
}

impl Sink for Sips {
    ghost written = { λ _. None };

    ghost fault_count = { λ _. 0 };

    fn faults(&self) -> u64 {
        0
    }

    fn write(&mut self, bytes: &[u8]) -> Result<usize, WriteError> {
        let n = bytes.len().min(3);
        self.taken.extend_from_slice(&bytes[..n])?;
        Ok(n)
    }
}

/// Whether a sink that takes three bytes at a time takes all bytes.
fn takes_all(sips: &mut Sips) -> Result<bool, Fail> {
    write_all(sips, b"one write is not enough")?;
    Ok(sips.taken.as_slice() == b"one write is not enough".as_slice())
}

/// Whether a new sink that sips takes all bytes.
fn sips_all(alloc: Global) -> Result<bool, Fail> {
    let mut sips = Sips {
        taken: Vec::new(alloc),
    };
    takes_all(&mut sips)
}

/// Writes `abc` in two pieces.
fn write_pieces(sink: &mut MemSink) -> Result<(), WriteError> {
    write_all(sink, b"a")?;
    write_all(sink, b"bc")
}

/// The bytes of a sink that two pieces were written to.
fn two_pieces(alloc: Global) -> Result<ByteText, Fail> {
    let mut sink = MemSink::new(alloc, Calls::new(alloc));
    write_pieces(&mut sink)?;
    Ok(sink.into_bytes())
}

#[test]
fn ample_write_all(rt: HostRuntime) -> Result<(), Fail> {
    assert!(rt; sips_all(rt.alloc())?);
    let bytes = two_pieces(rt.alloc())?;
    assert_eq!(rt; bytes.as_slice(), b"abc".as_slice());
    Ok(())
}

fn calls_failing_at(alloc: Global, number: u64) -> Result<Calls, Fail> {
    let mut numbers = Items::new(alloc);
    numbers.push(number)?;
    Ok(Calls::failing_at(alloc, numbers)?)
}

/// Whether a source is read to its end within a limit, and answers these bytes.
fn reads_whole(alloc: Global, source: &mut MemSource, expected: &[u8]) -> Result<bool, Fail> {
    let bytes = read_to_end(alloc, source, 200000)?;
    Ok(bytes.as_slice() == expected)
}

/// Whether a source is read past a limit.
fn reads_past(alloc: Global, source: &mut MemSource) -> Result<bool, Fail> {
    let bytes = read_to_end(alloc, source, 1000)?;
    Ok(bytes.len() > 1000)
}

/// Whether a source of these bytes is read whole.
fn is_read_whole(alloc: Global, long: &[u8]) -> Result<bool, Fail> {
    let mut source = MemSource::new(ByteText::from_slice(alloc, long)?, Calls::new(alloc));
    reads_whole(alloc, &mut source, long)
}

/// Whether a source of these bytes is read past a limit.
fn is_read_past(alloc: Global, long: Vec<u8>) -> Result<bool, Fail> {
    let mut source = MemSource::new(ByteText::from_vec(long), Calls::new(alloc));
    reads_past(alloc, &mut source)
}

#[test]
fn ample_read_to_end(rt: HostRuntime) -> Result<(), Fail> {
    let alloc = rt.alloc();
    let long = vec![in alloc; 7u8; 200000]?;
    let whole = is_read_whole(alloc, &long)?;
    let past = is_read_past(alloc, long)?;
    assert!(rt; whole && past);
    Ok(())
}

/// Whether a source refuses to be read, and counts this.
fn counts_refused_read(alloc: Global, source: &mut MemSource) -> bool {
    let refused = read_to_end(alloc, source, 1000) == Err(ReadError::ReadFault);
    refused && source.faults() == 1
}

/// Whether a source whose call of this number fails counts it.
fn refuses_read(alloc: Global, number: u64) -> Result<bool, Fail> {
    let bytes = ByteText::from_slice(alloc, b"bytes")?;
    let mut source = MemSource::new(bytes, calls_failing_at(alloc, number)?);
    Ok(counts_refused_read(alloc, &mut source))
}

/// Whether a sink refuses the first object that an entry has, counts this, and takes it then.
fn counts_refused_write(entry: &CacheRead, sink: &mut MemSink) -> bool {
    let absent = entry.get_object("none", sink);
    let refused = entry.get_object("obj", sink);
    let counted = sink.faults() == 1;
    let taken = entry.get_object("obj", sink);
    let failed = absent == Err(GetError::DecompressionFailure);
    failed && refused == Err(GetError::WriteFault) && counted && taken == Ok(None)
}

/// Whether a sink whose first call fails counts it.
fn refuses_write(alloc: Global) -> Result<bool, Fail> {
    let calls = calls_failing_at(alloc, 1)?;
    let entry = entry_of(alloc, ENTRY)?;
    let mut sink = MemSink::new(alloc, calls);
    Ok(counts_refused_write(&entry, &mut sink))
}

#[test]
fn refused_reads_and_writes_are_counted(rt: HostRuntime) -> Result<(), Fail> {
    for number in 1..3u64 {
        assert!(rt; refuses_read(rt.alloc(), number)?);
    }
    assert!(rt; refuses_write(rt.alloc())?);
    Ok(())
}

/// Whether the longest name is put once, and a longer one and an empty one are refused.
fn limits_names(entry: &mut CacheWrite, longest: &str, longer: &str) -> Result<bool, PutError> {
    entry.put_object(longest, b"", None)?;
    let again = entry.put_object(longest, b"", None);
    let over = entry.put_object(longer, b"", None);
    let empty = entry.put_object("", b"", None);
    let bad = over == Err(PutError::BadName) && empty == Err(PutError::BadName);
    Ok(again == Err(PutError::NameTaken) && bad)
}

/// Whether an entry of these bytes has an object of this name, without a mode.
fn has_object(alloc: Global, bytes: Vec<u8>, name: &str) -> Result<bool, Fail> {
    let entry = written_entry(alloc, bytes)?;
    let mut sink = MemSink::new(alloc, Calls::new(alloc));
    Ok(entry.get_object(name, &mut sink) == Ok(None))
}

/// Whether a written entry limits its names, and holds the longest one when it is read.
fn keeps_longest(alloc: Global, longest: &str, longer: &str) -> Result<bool, Fail> {
    let mut entry = CacheWrite::new(alloc)?;
    let limited = limits_names(&mut entry, longest, longer)?;
    let held = has_object(alloc, entry.finish(), longest)?;
    Ok(limited && held)
}

#[test]
fn names_at_their_limits(rt: HostRuntime) -> Result<(), Fail> {
    let alloc = rt.alloc();
    let longest = String::from_utf8(vec![in alloc; 97u8; 65535]?)?;
    let longer = String::from_utf8(vec![in alloc; 97u8; 65536]?)?;
    assert!(rt; keeps_longest(alloc, &longest, &longer)?);
    Ok(())
}

fn source_of(
    alloc: Global,
    key: &str,
    path: &str,
    optional: bool,
) -> Result<FileObjectSource, Fail> {
    Ok(FileObjectSource {
        key: Text::from_str(alloc, key)?,
        path: ByteText::from_slice(alloc, path.as_bytes())?,
        optional,
    })
}

/// Adds a source behind the others.
fn add_source(
    alloc: Global,
    sources: &mut Vec<FileObjectSource>,
    key: &str,
    path: &str,
    optional: bool,
) -> Result<(), Fail> {
    sources.push(source_of(alloc, key, path, optional)?)?;
    Ok(())
}

/// Adds a required object `obj`, and an optional one `dep`.
fn add_two(alloc: Global, sources: &mut Vec<FileObjectSource>) -> Result<(), Fail> {
    add_source(alloc, sources, "obj", "/o", false)?;
    add_source(alloc, sources, "dep", "/d", true)
}

/// Adds those two, and one that goes nowhere.
fn add_three(alloc: Global, sources: &mut Vec<FileObjectSource>) -> Result<(), Fail> {
    add_two(alloc, sources)?;
    add_source(alloc, sources, "null", "/dev/null", false)
}

/// Adds those three, and a required object `lib`.
fn add_four(alloc: Global, sources: &mut Vec<FileObjectSource>) -> Result<(), Fail> {
    add_three(alloc, sources)?;
    add_source(alloc, sources, "lib", "/l", false)
}

fn three_sources(alloc: Global) -> Result<Vec<FileObjectSource>, Fail> {
    let mut sources = Vec::new(alloc);
    add_three(alloc, &mut sources)?;
    Ok(sources)
}

fn four_sources(alloc: Global) -> Result<Vec<FileObjectSource>, Fail> {
    let mut sources = Vec::new(alloc);
    add_four(alloc, &mut sources)?;
    Ok(sources)
}

/// Whether the object's bytes stand at its path, without a mode.
fn stands(alloc: Global, files: &mut MemFiles) -> Result<bool, Fail> {
    let path = ByteText::from_slice(alloc, b"/o")?;
    let placed = files.read(&path)?;
    Ok(placed.bytes.as_slice() == b"AB".as_slice() && placed.mode.is_none())
}

/// Whether an entry places its object.
fn places(
    alloc: Global,
    entry: &CacheRead,
    files: &mut MemFiles,
    sources: &[FileObjectSource],
) -> Result<bool, Fail> {
    entry.extract_objects(files, sources)?;
    stands(alloc, files)
}

/// Whether the small entry places its object, where all sources are in it.
fn extracts(alloc: Global) -> Result<bool, Fail> {
    let sources = three_sources(alloc)?;
    let entry = entry_of(alloc, ENTRY)?;
    let mut files = MemFiles::new(alloc, Calls::new(alloc));
    places(alloc, &entry, &mut files, &sources)
}

#[test]
fn ample_extract_objects(rt: HostRuntime) -> Result<(), Fail> {
    assert!(rt; extracts(rt.alloc())?);
    Ok(())
}

/// Whether an entry lacks a required object, and places none.
fn places_none(
    alloc: Global,
    entry: &CacheRead,
    files: &mut MemFiles,
    sources: &[FileObjectSource],
) -> Result<bool, Fail> {
    let path = ByteText::from_slice(alloc, b"/o")?;
    let refused = entry.extract_objects(files, sources);
    let absent = files.read(&path).is_err();
    Ok(refused == Err(ExtractError::DecompressionFailure) && absent)
}

/// Whether the small entry places no object, where a required one isn't in it.
fn looks_first(alloc: Global) -> Result<bool, Fail> {
    let sources = four_sources(alloc)?;
    let entry = entry_of(alloc, ENTRY)?;
    let mut files = MemFiles::new(alloc, Calls::new(alloc));
    places_none(alloc, &entry, &mut files, &sources)
}

#[test]
fn required_objects_are_looked_for_first(rt: HostRuntime) -> Result<(), Fail> {
    assert!(rt; looks_first(rt.alloc())?);
    Ok(())
}

/// Whether files refuse an entry's object, count this, and take it then.
fn counts_refused_file(
    entry: &CacheRead,
    files: &mut MemFiles,
    sources: &[FileObjectSource],
) -> bool {
    let refused = entry.extract_objects(files, sources);
    let counted = files.faults() == 1;
    let taken = entry.extract_objects(files, sources);
    refused == Err(ExtractError::FileFault) && counted && taken == Ok(())
}

/// Whether files whose first call fails count it.
fn refuses_file(alloc: Global) -> Result<bool, Fail> {
    let calls = calls_failing_at(alloc, 1)?;
    let sources = three_sources(alloc)?;
    let entry = entry_of(alloc, ENTRY)?;
    let mut files = MemFiles::new(alloc, calls);
    Ok(counts_refused_file(&entry, &mut files, &sources))
}

#[test]
fn refused_files_are_counted(rt: HostRuntime) -> Result<(), Fail> {
    assert!(rt; refuses_file(rt.alloc())?);
    Ok(())
}

/// Files with the object `obj` at its path.
fn files_with_object(alloc: Global) -> Result<MemFiles, Fail> {
    let path = ByteText::from_slice(alloc, b"/o")?;
    let mut files = MemFiles::new(alloc, Calls::new(alloc));
    files.place(&path, b"AB", Some(0o644))?;
    Ok(files)
}

/// The bytes of an entry of what stands at the sources' paths.
fn gathered(
    alloc: Global,
    files: &mut MemFiles,
    sources: &[FileObjectSource],
) -> Result<Vec<u8>, FromObjectsError> {
    let entry = CacheWrite::from_objects(alloc, files, sources)?;
    Ok(entry.finish())
}

/// Whether an entry has the object that stood there with its mode, and lacks the optional one.
fn has_present(entry: &CacheRead, sink: &mut MemSink) -> bool {
    let present = entry.get_object("obj", sink);
    let absent = entry.get_object("dep", sink);
    present == Ok(Some(0o644)) && absent == Err(GetError::DecompressionFailure)
}

/// Whether an entry of these bytes has the object that stood there alone.
fn holds_present(alloc: Global, bytes: Vec<u8>) -> Result<bool, Fail> {
    let entry = written_entry(alloc, bytes)?;
    let mut sink = MemSink::new(alloc, Calls::new(alloc));
    Ok(has_present(&entry, &mut sink))
}

/// Whether no entry is made where a required file is absent.
fn refuses_absent(alloc: Global, files: &mut MemFiles, sources: &[FileObjectSource]) -> bool {
    match CacheWrite::from_objects(alloc, files, sources) {
        Ok(_) => false,
        Err(error) => error == FromObjectsError::FileFault,
    }
}

/// Whether an entry is made without an optional file, and none without a required one.
fn gathers(
    alloc: Global,
    files: &mut MemFiles,
    sources: &mut Vec<FileObjectSource>,
) -> Result<bool, Fail> {
    add_two(alloc, sources)?;
    let bytes = gathered(alloc, files, sources.as_slice())?;
    let present = holds_present(alloc, bytes)?;
    add_source(alloc, sources, "lib", "/l", false)?;
    let refused = refuses_absent(alloc, files, sources.as_slice());
    Ok(present && refused)
}

/// Whether entries are made of files that stand there.
fn gathers_files(alloc: Global) -> Result<bool, Fail> {
    let mut files = files_with_object(alloc)?;
    let mut sources = Vec::new(alloc);
    gathers(alloc, &mut files, &mut sources)
}

#[test]
fn ample_from_objects(rt: HostRuntime) -> Result<(), Fail> {
    assert!(rt; gathers_files(rt.alloc())?);
    Ok(())
}

/// The texts of this answer and of the other three.
fn texts_with(alloc: Global, hit: &Cache) -> Result<String, Fail> {
    let texts = format!(in alloc;
        "{:?} {:?} {:?} {:?}",
        hit,
        Cache::Miss,
        Cache::None,
        Cache::Recache
    )?;
    Ok(texts)
}

/// The texts of all answers.
fn answer_texts(alloc: Global) -> Result<String, Fail> {
    let hit = Cache::Hit(entry_of(alloc, ENTRY)?);
    texts_with(alloc, &hit)
}

#[test]
fn texts_of_answers(rt: HostRuntime) -> Result<(), Fail> {
    let texts = answer_texts(rt.alloc())?;
    assert_eq!(rt;
        texts.as_str(),
        "Cache::Hit(...) Cache::Miss Cache::None Cache::Recache"
    );
    Ok(())
}
