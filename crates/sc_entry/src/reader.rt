//! Reading an entry's parts from the front of its bytes.
ghost use Rattle.std.specs.Prelude.{◌≡◌, ◌<◌, ◌^◌, ◌↔◌, [], ◌∷◌, true, false, None, Some, IsTrue, length, take, drop, MatchOption};
ghost use Rattle.std.specs.Int.{w16, w32, w64, from_le_bytes, to_le_bytes};
ghost use Rattle.sc_entry.specs.Entries.{is_object_name, read_number, read_front, read_name, read_mode, read_data, read_object};

use std::marker::Model;

/// Bytes that are read from the front. Contracts see those that are left.
#[derive(Drop)]
pub struct Reader<'a> {
    bytes: &'a [u8],
}

impl<'a> Model for Reader<'a> {
    ghost use Rattle.std.specs.Prelude.{List, ℕ};

    ghost Value = { List ℕ };

    ghost view = { λ r. r.bytes.now };
}

/// An object as it stands in the bytes of an entry.
#[derive(Clone, Copy, Debug)]
pub struct ObjectSlice<'a> {
    pub name: &'a str,
    pub mode: Option<u32>,
    pub bytes: &'a [u8],
}

fn u16_of(bytes: &[u8]) -> u16
    requires { length bytes.now ≡ 2 }
    ensures value { result ≡ from_le_bytes w16 bytes.now }
    ensures back { to_le_bytes w16 result ≡ bytes.now }
{
    u16::from_le_bytes([bytes[0], bytes[1]])
}

fn u32_of(bytes: &[u8]) -> u32
    requires { length bytes.now ≡ 4 }
    ensures value { result ≡ from_le_bytes w32 bytes.now }
    ensures back { to_le_bytes w32 result ≡ bytes.now }
{
    u32::from_le_bytes([bytes[0], bytes[1], bytes[2], bytes[3]])
}

fn u64_of(bytes: &[u8]) -> u64
    requires { length bytes.now ≡ 8 }
    ensures value { result ≡ from_le_bytes w64 bytes.now }
    ensures back { to_le_bytes w64 result ≡ bytes.now }
{
    u64::from_le_bytes([
        bytes[0], bytes[1], bytes[2], bytes[3], bytes[4], bytes[5], bytes[6], bytes[7],
    ])
}

/// The text of bytes that may name an object.
#[tactic(auto, using(crate::proofs::Reading::name_short, crate::proofs::Reading::name_utf8, crate::proofs::Reading::name_bad))]
fn name_of(bytes: &[u8]) -> Option<&str>
    requires { length bytes.now < 65536 }
    ensures { MatchOption result (is_object_name bytes.now ≡ false) (λ name. (is_object_name bytes.now ≡ true) × (name.now ≡ bytes.now)) }
{
    if bytes.is_empty() {
        return None;
    }
    match str::from_utf8(bytes) {
        Ok(name) => Some(name),
        Err(_) => None,
    }
}

impl<'a> Reader<'a> {
    pub fn new(bytes: &'a [u8]) -> Reader<'a>
        ensures { result ≡ bytes.now }
    {
        Reader { bytes }
    }

    pub fn is_empty(&self) -> bool
        ensures { IsTrue result ↔ (self.now ≡ []) }
    {
        self.bytes.is_empty()
    }

    /// How many bytes are left.
    pub fn len(&self) -> usize
        ensures { result ≡ length self.now }
    {
        self.bytes.len()
    }

    /// The next `len` bytes.
    #[tactic(auto, using(crate::proofs::Reading::front_none, crate::proofs::Reading::front_some))]
    pub fn front(&mut self, len: usize) -> Option<&'a [u8]>
        ensures places { MatchOption result (length self.old < len) (λ front. (front.now ≡ take len self.old) × (length front.now ≡ len) × (self.new ≡ drop len self.old)) }
        ensures read { MatchOption result (read_front len self.old ≡ None) (λ front. read_front len self.old ≡ Some (front.now, self.new)) }
    {
        if self.bytes.len() < len {
            return None;
        }
        let (front, rest) = self.bytes.split_at(len);
        self.bytes = rest;
        Some(front)
    }

    /// The next byte.
    fn byte(&mut self) -> Option<u8>
        ensures { MatchOption result (self.old ≡ []) (λ byte. self.old ≡ byte ∷ self.new) }
    {
        match self.bytes {
            [] => None,
            [first, rest @ ..] => {
                self.bytes = rest;
                Some(*first)
            }
        }
    }

    #[tactic(auto, using(crate::proofs::Reading::number_is, crate::proofs::Reading::number16_short))]
    pub fn number16(&mut self) -> Option<u16>
        ensures { MatchOption result (read_number w16 (2 ^ 16) self.old ≡ None) (λ n. read_number w16 (2 ^ 16) self.old ≡ Some (n, self.new)) }
    {
        match self.front(2) {
            Some(front) => Some(u16_of(front)),
            None => None,
        }
    }

    #[tactic(auto, using(crate::proofs::Reading::number_is, crate::proofs::Reading::number32_short))]
    fn number32(&mut self) -> Option<u32>
        ensures { MatchOption result (read_number w32 (2 ^ 32) self.old ≡ None) (λ n. read_number w32 (2 ^ 32) self.old ≡ Some (n, self.new)) }
    {
        match self.front(4) {
            Some(front) => Some(u32_of(front)),
            None => None,
        }
    }

    #[tactic(auto, using(crate::proofs::Reading::number_is, crate::proofs::Reading::number64_short))]
    fn number64(&mut self) -> Option<u64>
        ensures { MatchOption result (read_number w64 (2 ^ 64) self.old ≡ None) (λ n. read_number w64 (2 ^ 64) self.old ≡ Some (n, self.new)) }
    {
        match self.front(8) {
            Some(front) => Some(u64_of(front)),
            None => None,
        }
    }

    /// A name with its length: UTF-8, and not empty.
    #[tactic(auto, unfolding(crate::specs::Entries::read_name))]
    fn name(&mut self) -> Option<&'a str>
        ensures { MatchOption result (read_name self.old ≡ None) (λ name. read_name self.old ≡ Some (name.now, self.new)) }
    {
        let len = self.number16()?;
        let front = self.front(len as usize)?;
        let name = name_of(front)?;
        Some(name)
    }

    #[tactic(auto, unfolding(crate::specs::Entries::read_mode))]
    fn mode(&mut self) -> Option<Option<u32>>
        ensures { MatchOption result (read_mode self.old ≡ None) (λ mode. read_mode self.old ≡ Some (mode, self.new)) }
    {
        match self.byte()? {
            0 => Some(None),
            1 => {
                let mode = self.number32()?;
                Some(Some(mode))
            }
            _ => None,
        }
    }

    /// Data with its length.
    #[tactic(auto, unfolding(crate::specs::Entries::read_data))]
    fn piece(&mut self) -> Option<&'a [u8]>
        ensures { MatchOption result (read_data self.old ≡ None) (λ piece. read_data self.old ≡ Some (piece.now, self.new)) }
    {
        let len = self.number64()?;
        let piece = self.front(len as usize)?;
        Some(piece)
    }

    /// The next object.
    #[tactic(auto, unfolding(crate::specs::Entries::read_object))]
    pub fn object(&mut self) -> Option<ObjectSlice<'a>>
        ensures { MatchOption result (read_object self.old ≡ None) (λ o. read_object self.old ≡ Some (record { name = o.name.now; mode = o.mode; bytes = o.bytes.now }, self.new)) }
    {
        let name = self.name()?;
        let mode = self.mode()?;
        let bytes = self.piece()?;
        Some(ObjectSlice { name, mode, bytes })
    }
}
