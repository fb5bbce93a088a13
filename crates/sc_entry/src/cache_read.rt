ghost use Rattle.std.specs.Prelude.{◌≡◌, ◌+◌, ◌≤◌, ℕ, List, not, cond, [], ◌++◌, Some, None, length, take, drop, codes, is_some, IfOk, IfSome, MatchOption};
ghost use Rattle.std.specs.Str.{bytes_eq};
ghost use Rattle.std.specs.BTreeMap.{get_by_text};
ghost use Rattle.std.specs.Int.{w16};
ghost use Rattle.sc_entry.specs.Entries.{entry, objects, read_objects, find_object, spell_number};
ghost use Rattle.sc_entry.specs.EntryAnswers.{ReadAnswer, GetAnswer, GetWrites, GetCause, bytes_of};
ghost use Rattle.sc_entry.specs.Held.{IndexAnswer, IsFound};

use crate::byte_text::ByteText;
use crate::entry_error::{GetError, ReadEntryError};
use crate::held::Held;
use crate::memory::NoMemory;
use crate::reader::{ObjectSlice, Reader};
use crate::sink::{Sink, write_all};
use std::alloc::Global;
use std::collections::BTreeMap;
use std::marker::Model;

/// An entry that was read. Contracts see its list of objects. The objects are ranges of the held bytes.
#[derive(Drop)]
pub struct CacheRead {
    bytes: ByteText,
    index: BTreeMap<String, Held>,
}

impl Model for CacheRead {
    ghost use Rattle.std.specs.Prelude.{List};
    ghost use Rattle.sc_entry.specs.declared.object.Object.{Object};
    ghost use Rattle.sc_entry.specs.Entries.{listed, objects};
    ghost use Rattle.sc_entry.specs.Held.{IsReadEntry};

    ghost Value = { List Object };

    ghost view = { λ r. listed (objects r.bytes) };

    ghost invariant = { λ r. IsReadEntry r.bytes r.index };
}

/// Reads an entry's first bytes, up to its first object: the number of its objects.
fn object_count(reader: &mut Reader) -> Option<u16>
    ensures read { MatchOption result (objects reader.old ≡ None) (λ n. objects reader.old ≡ read_objects n [] reader.new) }
    ensures front { IfSome result (λ n. reader.old ≡ (codes "SCE1" ++ spell_number w16 n) ++ reader.new) }
{
    let letters = reader.front(4)?;
    if letters != b"SCE1".as_slice() {
        return None;
    }
    let count = reader.number16()?;
    Some(count)
}

/// Adds an object to an index, and says whether its name is new.
fn hold(
    alloc: Global,
    index: &mut BTreeMap<String, Held>,
    object: &ObjectSlice,
    start: usize,
) -> Result<bool, NoMemory>
    ensures new { IfOk result (λ new. new ≡ not (is_some (get_by_text index.old object.now.name.now))) }
    ensures held { IfOk result (λ _. (name : List ℕ) → get_by_text index.new name ≡
        cond (bytes_eq object.now.name.now name) (Some (record { mode = object.now.mode; start = start; len = length object.now.bytes.now })) (get_by_text index.old name)) }
{
    let held = Held {
        mode: object.mode,
        start,
        len: object.bytes.len(),
    };
    let name = String::from_str(alloc, object.name)?;
    let before = index.insert(name, held)?;
    Ok(before.is_none())
}

/// Where each object of an entry stands in its bytes.
fn index_of(alloc: Global, bytes: &[u8]) -> Result<BTreeMap<String, Held>, ReadEntryError>
    ensures { IndexAnswer bytes.now (objects bytes.now) result }
{
    let mut reader = Reader::new(bytes);
    let Some(count) = object_count(&mut reader) else {
        return Err(ReadEntryError::BadEntry);
    };
    let mut index = BTreeMap::new(alloc);
    let mut left = count;
    while left > 0 {
        let Some(object) = reader.object() else {
            return Err(ReadEntryError::BadEntry);
        };
        let start = bytes.len() - reader.len() - object.bytes.len();
        if !hold(alloc, &mut index, &object, start)? {
            return Err(ReadEntryError::BadEntry);
        }
        left -= 1;
    }
    if reader.is_empty() {
        Ok(index)
    } else {
        Err(ReadEntryError::BadEntry)
    }
}

/// The range that holds an object's data.
fn part_of<'a>(bytes: &'a [u8], held: &Held) -> &'a [u8]
    requires { held.now.start + held.now.len ≤ length bytes.now }
    ensures { result.now ≡ take held.now.len (drop held.now.start bytes.now) }
{
    &bytes[held.start..held.start + held.len]
}

impl CacheRead {
    /// Reads an entry in one pass. The bytes are kept, not copied.
    pub fn from(alloc: Global, bytes: ByteText) -> Result<CacheRead, ReadEntryError>
        ensures { ReadAnswer (objects bytes) result }
    {
        let index = index_of(alloc, bytes.as_slice())?;
        Ok(CacheRead { bytes, index })
    }

    /// The bytes of the entry.
    pub fn as_slice(&self) -> &[u8]
        ensures spelled { result.now ≡ entry self.now }
    {
        self.bytes.as_slice()
    }

    /// The bytes of the entry, given back without a copy.
    pub fn into_bytes(self) -> ByteText
        ensures spelled { result ≡ entry self }
    {
        self.bytes
    }

    /// An object's mode and data.
    pub(crate) fn find(&self, name: &str) -> Option<(Option<u32>, &[u8])>
        ensures { IsFound (find_object name.now self.now) result }
    {
        let Some(held) = self.index.get(name) else {
            return None;
        };
        Some((held.mode, part_of(self.bytes.as_slice(), held)))
    }

    /// Writes an object's data to a sink, and answers its mode.
    pub fn get_object<O: Sink>(&self, name: &str, sink: &mut O) -> Result<Option<u32>, GetError>
        ensures answer { GetAnswer (find_object name.now self.now) result }
        ensures told { GetWrites (bytes_of (find_object name.now self.now)) result (O.written sink.old) (O.written sink.new) }
        ensures later { O.fault_count sink.old ≤ O.fault_count sink.new }
        ensures cause { GetCause (O.fault_count sink.old) (O.fault_count sink.new) result }
    {
        let Some((mode, bytes)) = self.find(name) else {
            return Err(GetError::DecompressionFailure);
        };
        write_all(sink, bytes)?;
        Ok(mode)
    }

    /// What the compiler wrote to its standard output; nothing where the entry has no such object.
    pub fn get_stdout(&self) -> &[u8]
        ensures { result.now ≡ bytes_of (find_object (codes "stdout") self.now) }
    {
        self.data("stdout")
    }

    /// What the compiler wrote to its standard error; nothing where the entry has no such object.
    pub fn get_stderr(&self) -> &[u8]
        ensures { result.now ≡ bytes_of (find_object (codes "stderr") self.now) }
    {
        self.data("stderr")
    }

    /// An object's data; nothing where there is none.
    fn data(&self, name: &str) -> &[u8]
        ensures { result.now ≡ bytes_of (find_object name.now self.now) }
    {
        match self.find(name) {
            Some((_, bytes)) => bytes,
            None => &[],
        }
    }
}
