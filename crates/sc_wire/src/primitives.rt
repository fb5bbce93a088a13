//! Numbers, flags and nothing, as they travel.
ghost use Rattle.std.specs.Prelude.{◌≡◌, length};
ghost use Rattle.std.specs.Int.{w32, w64, from_le_bytes, to_le_bytes};
ghost use Rattle.sc_wire.specs.Codec.{nothing};
ghost use Rattle.sc_wire.specs.Numbers.{u32 as u32_codec, u64 as u64_codec, i32 as i32_codec, flag};

use crate::error::DecodeError;
use crate::reader::Reader;
use crate::wire::Wire;
use sc_entry::NoMemory;
use std::alloc::Global;

fn u32_of(b: &[u8]) -> u32
    requires { length b.now ≡ 4 }
    ensures value { result ≡ from_le_bytes w32 b.now }
    ensures back { to_le_bytes w32 result ≡ b.now }
{
    u32::from_le_bytes([b[0], b[1], b[2], b[3]])
}

fn u64_of(b: &[u8]) -> u64
    requires { length b.now ≡ 8 }
    ensures value { result ≡ from_le_bytes w64 b.now }
    ensures back { to_le_bytes w64 result ≡ b.now }
{
    u64::from_le_bytes([b[0], b[1], b[2], b[3], b[4], b[5], b[6], b[7]])
}

impl Wire for u32 {
    ghost codec = { u32_codec };

    #[tactic(auto, using(crate::proofs::Numbers::number_is, crate::proofs::Numbers::number32_short))]
    fn take(_: Global, reader: &mut Reader) -> Result<u32, DecodeError> {
        match reader.front(4) {
            Some(front) => Ok(u32_of(front)),
            None => Err(DecodeError::BadFrame),
        }
    }

    #[tactic(auto, unfolding(crate::specs::Numbers::spell_number))]
    fn put(&self, out: &mut Vec<u8>) -> Result<(), NoMemory> {
        out.extend_from_slice(&self.to_le_bytes())?;
        Ok(())
    }
}

impl Wire for u64 {
    ghost codec = { u64_codec };

    #[tactic(auto, using(crate::proofs::Numbers::number_is, crate::proofs::Numbers::number64_short))]
    fn take(_: Global, reader: &mut Reader) -> Result<u64, DecodeError> {
        match reader.front(8) {
            Some(front) => Ok(u64_of(front)),
            None => Err(DecodeError::BadFrame),
        }
    }

    #[tactic(auto, unfolding(crate::specs::Numbers::spell_number))]
    fn put(&self, out: &mut Vec<u8>) -> Result<(), NoMemory> {
        out.extend_from_slice(&self.to_le_bytes())?;
        Ok(())
    }
}

impl Wire for bool {
    ghost codec = { flag };

    fn take(_: Global, reader: &mut Reader) -> Result<bool, DecodeError> {
        match reader.byte() {
            Some(0) => Ok(false),
            Some(1) => Ok(true),
            _ => Err(DecodeError::BadFrame),
        }
    }

    fn put(&self, out: &mut Vec<u8>) -> Result<(), NoMemory> {
        out.push(*self as u8)?;
        Ok(())
    }
}

impl Wire for () {
    ghost codec = { nothing };

    fn take(_: Global, _: &mut Reader) -> Result<(), DecodeError> {
        Ok(())
    }

    fn put(&self, _: &mut Vec<u8>) -> Result<(), NoMemory> {
        Ok(())
    }
}

impl Wire for i32 {
    ghost codec = { i32_codec };

    fn take(alloc: Global, reader: &mut Reader) -> Result<i32, DecodeError> {
        let bits = u32::take(alloc, reader)?;
        Ok(bits.cast_signed())
    }

    fn put(&self, out: &mut Vec<u8>) -> Result<(), NoMemory> {
        self.cast_unsigned().put(out)
    }
}
