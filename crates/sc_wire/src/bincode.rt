ghost use Rattle.std.specs.Prelude.{◌≡◌, IfOk, IfErr, Some};
ghost use Rattle.sc_wire.specs.Codec.{read_all, Spells};
ghost use Rattle.sc_wire.specs.Gives.{Decodes, IfBadFrame};

use crate::error::DecodeError;
use crate::reader::Reader;
use crate::wire::Wire;
use sc_entry::NoMemory;
use std::alloc::Global;

/// The spelling of messages: little-endian numbers of a fixed width, lengths and counts before what they count,
/// variants by their number.
#[derive(Clone, Copy, Debug, Drop, PartialEq, Eq)]
pub struct BincodeCodec;

fn decode_all<M: Wire + Drop>(alloc: Global, bytes: &[u8]) -> Result<M, DecodeError>
    ensures { Decodes result (read_all M.codec bytes.now) }
{
    let mut reader = Reader::new(bytes);
    let value = M::take(alloc, &mut reader)?;
    if !reader.is_empty() {
        return Err(DecodeError::BadFrame);
    }
    Ok(value)
}

impl BincodeCodec {
    /// The message's spelling. Every message fits that can be encoded at all.
    pub fn encode<M: Wire>(alloc: Global, message: &M) -> Result<Vec<u8>, NoMemory>
        ensures spells { IfOk result (λ bytes. Spells M.codec bytes.items message.now) }
    {
        let mut out = Vec::new(alloc);
        message.put(&mut out)?;
        Ok(out)
    }

    /// The message that the bytes spell, all of the bytes.
    pub fn decode<M: Wire + Drop>(alloc: Global, bytes: &[u8]) -> Result<M, DecodeError>
        ensures exact { Decodes result (read_all M.codec bytes.now) }

        // What is read is spelled so.
        ensures found { IfOk result (λ message. Spells M.codec bytes.now message) }
        // What is spelled so is read, unless memory runs out.
        ensures again { (message : M) → Spells M.codec bytes.now message → Decodes result (Some message) }
        // The bytes are at fault only where they spell no message.
        ensures none { IfErr result (λ error. IfBadFrame error ((message : M) → ¬ (Spells M.codec bytes.now message))) }
    {
        decode_all(alloc, bytes)
    }
}
