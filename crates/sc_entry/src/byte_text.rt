ghost use Rattle.std.specs.Prelude.{◌≡◌, ◌++◌, ◌∷◌, [], ◌↔◌, length, IfOk, OnOk, OnErr, IsTrue};

use crate::memory::NoMemory;
use std::alloc::{AllocError, Global};
use std::marker::Model;

/// A list of bytes. Contracts see it as a list.
#[derive(Debug, Drop)]
pub struct ByteText {
    bytes: Vec<u8>,
}

impl Model for ByteText {
    ghost use Rattle.std.specs.Prelude.{List, ℕ};

    ghost Value = { List ℕ };

    ghost view = { λ t. t.bytes.items };
}

impl ByteText {
    /// No bytes.
    pub fn new(alloc: Global) -> ByteText
        ensures { result ≡ [] }
    {
        ByteText {
            bytes: Vec::new(alloc),
        }
    }

    pub fn from_vec(bytes: Vec<u8>) -> ByteText
        ensures { result ≡ bytes.items }
    {
        ByteText { bytes }
    }

    /// The same bytes, given back without a copy.
    pub fn into_vec(self) -> Vec<u8>
        ensures { result.items ≡ self }
    {
        self.bytes
    }

    /// A copy of the bytes.
    pub fn from_slice(alloc: Global, bytes: &[u8]) -> Result<ByteText, NoMemory>
        ensures { IfOk result (λ t. t ≡ bytes.now) }
    {
        Ok(ByteText {
            bytes: bytes.to_vec(alloc)?,
        })
    }

    pub fn as_slice(&self) -> &[u8]
        ensures { result.now ≡ self.now }
    {
        self.bytes.as_slice()
    }

    pub fn len(&self) -> usize
        ensures { result ≡ length self.now }
    {
        self.bytes.len()
    }

    pub fn is_empty(&self) -> bool
        ensures { IsTrue result ↔ (self.now ≡ []) }
    {
        self.bytes.is_empty()
    }

    pub fn push(&mut self, byte: u8) -> Result<(), NoMemory>
        ensures ok { OnOk result (self.new ≡ self.old ++ byte ∷ []) }
        ensures err { OnErr result (self.new ≡ self.old) }
    {
        self.bytes.push(byte)?;
        Ok(())
    }

    /// Adds the bytes at the end.
    pub fn append(&mut self, bytes: &[u8]) -> Result<(), NoMemory>
        ensures ok { OnOk result (self.new ≡ self.old ++ bytes.now) }
        ensures err { OnErr result (self.new ≡ self.old) }
    {
        self.bytes.extend_from_slice(bytes)?;
        Ok(())
    }

    pub fn try_clone(&self) -> Result<ByteText, NoMemory>
        ensures { IfOk result (λ t. t ≡ self.now) }
    {
        Ok(ByteText {
            bytes: self.bytes.clone()?,
        })
    }
}

impl Clone for ByteText {
    ghost is_clone = { λ text copy. copy ≡ text };

    fn clone(&self) -> Result<ByteText, AllocError> {
        Ok(ByteText {
            bytes: self.bytes.clone()?,
        })
    }
}
