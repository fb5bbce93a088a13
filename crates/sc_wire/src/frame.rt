//! Messages in frames.
ghost use Rattle.std.specs.Prelude.{◌≡◌, ◌++◌, ◌≤◌, length, IfOk, IfErr, OnErr};
ghost use Rattle.sc_wire.specs.Frames.{frame, IsTooLong};

use crate::wire::Wire;
use sc_entry::NoMemory;
use std::alloc::{AllocError, Global};

/// Why a message has no frame.
#[derive(Clone, Copy, Debug, Drop, PartialEq, Eq)]
pub enum FrameError {
    NoMemory,
    /// Its payload has so many bytes, more than the limit.
    TooLong(u64),
}

impl From<AllocError> for FrameError {
    ghost use Rattle.std.specs.Prelude.{◌≡◌};
    ghost use Rattle.sc_wire.specs.declared.frame.FrameError.TheVariants as refusals;

    ghost from_gives = { λ _ e. e ≡ refusals.NoMemory };

    fn from(_: AllocError) -> FrameError {
        FrameError::NoMemory
    }
}

impl From<NoMemory> for FrameError {
    ghost use Rattle.std.specs.Prelude.{◌≡◌};
    ghost use Rattle.sc_wire.specs.declared.frame.FrameError.TheVariants as refusals;

    ghost from_gives = { λ _ e. e ≡ refusals.NoMemory };

    fn from(_: NoMemory) -> FrameError {
        FrameError::NoMemory
    }
}

/// The message's frame: its payload's length in four bytes, the highest first, and its payload. A payload over
/// the limit has none.
pub fn encode_frame<M: Wire>(alloc: Global, limit: u32, message: &M) -> Result<Vec<u8>, FrameError>
    ensures framed { IfOk result (λ bytes. bytes.items ≡ frame (M.codec.spell message.now)) }
    ensures fits { IfOk result (λ _. M.codec.Fits message.now) }
    ensures within { IfOk result (λ _. length (M.codec.spell message.now) ≤ limit) }
    ensures too_long { IfErr result (λ error. IsTooLong error limit (M.codec.spell message.now)) }
{
    let mut bytes = Vec::new(alloc);
    bytes.extend_from_slice(&[0, 0, 0, 0])?;
    message.put(&mut bytes)?;
    let payload = bytes.len() - 4;
    if payload > limit as usize {
        return Err(FrameError::TooLong(payload as u64));
    }
    let header = (payload as u32).to_be_bytes();
    bytes[0] = header[0];
    bytes[1] = header[1];
    bytes[2] = header[2];
    bytes[3] = header[3];
    Ok(bytes)
}

/// Adds the message's frame at the end, and answers its payload's length. What refuses adds nothing.
pub fn append_frame<M: Wire>(
    alloc: Global,
    limit: u32,
    message: &M,
    out: &mut Vec<u8>,
) -> Result<u32, FrameError>
    ensures framed { IfOk result (λ _. out.new.items ≡ out.old.items ++ frame (M.codec.spell message.now)) }
    ensures length { IfOk result (λ n. n ≡ length (M.codec.spell message.now)) }
    ensures fits { IfOk result (λ _. M.codec.Fits message.now) }
    ensures within { IfOk result (λ n. n ≤ limit) }
    ensures too_long { IfErr result (λ error. IsTooLong error limit (M.codec.spell message.now)) }
    ensures err { OnErr result (out.new.items ≡ out.old.items) }
{
    let bytes = encode_frame(alloc, limit, message)?;
    out.extend_from_slice(&bytes)?;
    Ok((bytes.len() - 4) as u32)
}
