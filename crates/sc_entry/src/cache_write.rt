ghost use Rattle.std.specs.Prelude.{◌≡◌, ◌≤◌, ◌<◌, ◌^◌, ℕ, List, true, cond, [], ◌∷◌, ◌++◌, None, Some, MatchResult, length, take, drop, codes, IfOk, OnOk, OnErr};
ghost use Rattle.std.specs.Str.{bytes_eq};
ghost use Rattle.std.specs.BTreeSet.{contains_text};
ghost use Rattle.std.specs.Int.{w16, w64};
ghost use Rattle.sc_entry.specs.Entries.{FitsMode, entry, spell_number, spell_mode, spell_object};
ghost use Rattle.sc_entry.specs.EntryAnswers.{PutAnswer, put_refusal, stream_object, stream_refusal};

use crate::byte_text::ByteText;
use crate::entry_error::PutError;
use crate::memory::NoMemory;
use std::alloc::Global;
use std::collections::BTreeSet;
use std::marker::Model;

/// An entry that is being written. Contracts see its list of objects so far.
#[derive(Drop)]
pub struct CacheWrite {
    alloc: Global,
    /// The spelling of the objects so far.
    bytes: Vec<u8>,
    names: BTreeSet<String>,
    count: u16,
}

impl Model for CacheWrite {
    ghost use Rattle.std.specs.Prelude.{List};
    ghost use Rattle.sc_entry.specs.declared.object.Object.{Object};
    ghost use Rattle.sc_entry.specs.Entries.{listed, objects};
    ghost use Rattle.sc_entry.specs.Writing.{IsWrittenEntry};

    ghost Value = { List Object };

    ghost view = { λ w. listed (objects w.bytes.items) };

    ghost invariant = { λ w. IsWrittenEntry w.bytes.items w.names w.count };
}

/// Adds a mode's spelling.
#[tactic(auto, unfolding(crate::specs::Entries::spell_number), using(crate::proofs::Writes::front_stays))]
fn append_mode(out: &mut Vec<u8>, mode: Option<u32>) -> Result<(), NoMemory>
    ensures ok { OnOk result (out.new.items ≡ out.old.items ++ spell_mode mode) }
    ensures fits { OnOk result (FitsMode mode) }
    ensures err { OnErr result (take (length out.old.items) out.new.items ≡ out.old.items) }
{
    let Some(mode) = mode else {
        out.push(0)?;
        return Ok(());
    };
    out.push(1)?;
    out.extend_from_slice(&mode.to_le_bytes())?;
    Ok(())
}

/// Adds some bytes, after their length as 16 bits.
#[tactic(auto, unfolding(crate::specs::Entries::spell_number), using(crate::proofs::Writes::front_stays))]
fn append_name(out: &mut Vec<u8>, name: &str) -> Result<(), NoMemory>
    requires { length name.now < 65536 }
    ensures ok { OnOk result (out.new.items ≡ out.old.items ++ (spell_number w16 (length name.now) ++ name.now)) }
    ensures err { OnErr result (take (length out.old.items) out.new.items ≡ out.old.items) }
{
    out.extend_from_slice(&(name.len() as u16).to_le_bytes())?;
    out.extend_from_slice(name.as_bytes())?;
    Ok(())
}

/// Adds some bytes, after their length as 64 bits.
#[tactic(auto, unfolding(crate::specs::Entries::spell_number), using(crate::proofs::Writes::front_stays))]
fn append_data(out: &mut Vec<u8>, bytes: &[u8]) -> Result<(), NoMemory>
    ensures ok { OnOk result (out.new.items ≡ out.old.items ++ (spell_number w64 (length bytes.now) ++ bytes.now)) }
    ensures fits { OnOk result (length bytes.now < 2 ^ 64) }
    ensures err { OnErr result (take (length out.old.items) out.new.items ≡ out.old.items) }
{
    out.extend_from_slice(&(bytes.len() as u64).to_le_bytes())?;
    out.extend_from_slice(bytes)?;
    Ok(())
}

/// Adds an object's spelling.
#[tactic(auto, using(crate::proofs::Writes::front_stays, crate::proofs::Writes::front_of_front, crate::proofs::Writes::object_appended))]
fn append_object(
    out: &mut Vec<u8>,
    name: &str,
    bytes: &[u8],
    mode: Option<u32>,
) -> Result<(), NoMemory>
    requires { length name.now < 65536 }
    ensures ok { OnOk result (out.new.items ≡ out.old.items ++ spell_object (record { name = name.now; mode = mode; bytes = bytes.now })) }
    ensures fits { OnOk result (FitsMode mode × (length bytes.now < 2 ^ 64)) }
    ensures err { OnErr result (take (length out.old.items) out.new.items ≡ out.old.items) }
{
    append_name(out, name)?;
    append_mode(out, mode)?;
    append_data(out, bytes)?;
    Ok(())
}

/// Adds an object's spelling and its name. Where memory runs out, the names stay, and the bytes begin with those before.
fn extend(
    alloc: Global,
    out: &mut Vec<u8>,
    names: &mut BTreeSet<String>,
    name: &str,
    bytes: &[u8],
    mode: Option<u32>,
) -> Result<(), NoMemory>
    requires { length name.now < 65536 }
    ensures spelled { OnOk result (out.new.items ≡ out.old.items ++ spell_object (record { name = name.now; mode = mode; bytes = bytes.now })) }
    ensures fits { OnOk result (FitsMode mode × (length bytes.now < 2 ^ 64)) }
    ensures named { OnOk result ((other : List ℕ) → contains_text names.new other ≡ cond (bytes_eq name.now other) true (contains_text names.old other)) }
    ensures front { OnErr result (take (length out.old.items) out.new.items ≡ out.old.items) }
    ensures names { OnErr result ((other : List ℕ) → contains_text names.new other ≡ contains_text names.old other) }
{
    let key = String::from_str(alloc, name)?;
    append_object(out, name, bytes, mode)?;
    names.insert(key)?;
    Ok(())
}

/// Writes the number of objects behind the four letters.
#[tactic(auto, unfolding(crate::specs::Entries::spell_number))]
fn set_count(bytes: &mut Vec<u8>, count: u16)
    requires { 6 ≤ length bytes.old.items }
    ensures { bytes.new.items ≡ take 4 bytes.old.items ++ (spell_number w16 count ++ drop 6 bytes.old.items) }
{
    bytes[4..6].copy_from_slice(&count.to_le_bytes());
}

impl CacheWrite {
    /// An entry without objects.
    pub fn new(alloc: Global) -> Result<CacheWrite, NoMemory>
        ensures { IfOk result (λ entry'. entry' ≡ []) }
    {
        Ok(CacheWrite {
            alloc,
            bytes: ByteText::from_slice(alloc, b"SCE1\0\0")?.into_vec(),
            names: BTreeSet::new(alloc),
            count: 0,
        })
    }

    /// Whether an object of this name can be put.
    fn check(&self, name: &str) -> Result<(), PutError>
        ensures { MatchResult result (λ _. put_refusal name.now self.now ≡ None) (λ error. put_refusal name.now self.now ≡ Some error) }
    {
        if self.names.contains(name) {
            return Err(PutError::NameTaken);
        }
        if name.is_empty() || name.len() > 65535 {
            return Err(PutError::BadName);
        }
        if self.count < u16::MAX {
            Ok(())
        } else {
            Err(PutError::TooManyObjects)
        }
    }

    /// Adds an object that can be put.
    fn add(&mut self, name: &str, bytes: &[u8], mode: Option<u32>) -> Result<(), NoMemory>
        requires { put_refusal name.now self.old ≡ None }
        ensures ok { OnOk result (self.new ≡ self.old ++ (record { name = name.now; mode = mode; bytes = bytes.now } ∷ [])) }
        ensures err { OnErr result (self.new ≡ self.old) }
    {
        let before = self.bytes.len();
        match extend(
            self.alloc,
            &mut self.bytes,
            &mut self.names,
            name,
            bytes,
            mode,
        ) {
            Ok(()) => {
                self.count += 1;
                set_count(&mut self.bytes, self.count);
                Ok(())
            }
            Err(refused) => {
                self.bytes.truncate(before);
                Err(refused)
            }
        }
    }

    /// Adds an object behind the others. A refused object leaves the entry as it was.
    pub fn put_object(
        &mut self,
        name: &str,
        bytes: &[u8],
        mode: Option<u32>,
    ) -> Result<(), PutError>
        ensures answer { PutAnswer (put_refusal name.now self.old) result }
        ensures ok { OnOk result (self.new ≡ self.old ++ (record { name = name.now; mode = mode; bytes = bytes.now } ∷ [])) }
        ensures err { OnErr result (self.new ≡ self.old) }
    {
        self.check(name)?;
        self.add(name, bytes, mode)?;
        Ok(())
    }

    /// Adds what a compiler wrote to its standard output, if it wrote anything.
    pub fn put_stdout(&mut self, bytes: &[u8]) -> Result<(), PutError>
        ensures answer { PutAnswer (stream_refusal (codes "stdout") bytes.now self.old) result }
        ensures ok { OnOk result (self.new ≡ self.old ++ stream_object (codes "stdout") bytes.now) }
        ensures err { OnErr result (self.new ≡ self.old) }
    {
        self.put_stream("stdout", bytes)
    }

    /// Adds what a compiler wrote to its standard error, if it wrote anything.
    pub fn put_stderr(&mut self, bytes: &[u8]) -> Result<(), PutError>
        ensures answer { PutAnswer (stream_refusal (codes "stderr") bytes.now self.old) result }
        ensures ok { OnOk result (self.new ≡ self.old ++ stream_object (codes "stderr") bytes.now) }
        ensures err { OnErr result (self.new ≡ self.old) }
    {
        self.put_stream("stderr", bytes)
    }

    fn put_stream(&mut self, name: &str, bytes: &[u8]) -> Result<(), PutError>
        ensures answer { PutAnswer (stream_refusal name.now bytes.now self.old) result }
        ensures ok { OnOk result (self.new ≡ self.old ++ stream_object name.now bytes.now) }
        ensures err { OnErr result (self.new ≡ self.old) }
    {
        if bytes.is_empty() {
            return Ok(());
        }
        self.put_object(name, bytes, None)?;
        Ok(())
    }

    /// The entry's bytes.
    pub fn finish(self) -> Vec<u8>
        ensures spelled { result.items ≡ entry self }
    {
        self.bytes
    }
}
