//! Frames out of bytes that come in any pieces.
ghost use Rattle.std.specs.Prelude.{◌≡◌, ◌↔◌, ℕ, ◌++◌, ◌≤◌, List, [], Option, length, drop, IsTrue, OnOk, OnErr};
ghost use Rattle.sc_model.specs.declared.message.Request.{Request};
ghost use Rattle.sc_wire.specs.Frames.{cut, ahead, Shows, ShowsMessage, GivesPayload, GivesMessage};
ghost use Rattle.sc_wire.specs.Streams.{request_front, GivesRequest, AnyCutting};

use crate::bincode::BincodeCodec;
use crate::error::DecodeError;
use crate::wire::Wire;
use sc_entry::{ByteText, NoMemory};
use sc_model::Request;
use std::alloc::Global;
use std::marker::Model;

/// Cuts bytes that come in pieces into frames. It keeps no more than the bytes that came, whatever length a
/// frame announces.
#[derive(Drop)]
pub struct Framer {
    limit: u32,
    held: Vec<u8>,
    start: usize,
}

impl Model for Framer {
    ghost use Rattle.std.specs.Prelude.{◌≤◌, length, drop};
    ghost use Rattle.sc_wire.specs.Frames.{Framing};

    ghost Value = { Framing };

    ghost view = { λ f. record { limit = f.limit; rest = drop f.start f.held.items } };

    ghost invariant = { λ f. f.start ≤ length f.held.items };
}

fn front_payload(limit: u32, bytes: &[u8]) -> Result<Option<&[u8]>, DecodeError>
    ensures { Shows result bytes.now (cut limit bytes.now) }
{
    let [first, second, third, fourth, rest @ ..] = bytes else {
        return Ok(None);
    };
    let len = u32::from_be_bytes([*first, *second, *third, *fourth]);
    if limit < len {
        return Err(DecodeError::BadFrame);
    }
    if rest.len() < len as usize {
        return Ok(None);
    }
    let (payload, _) = rest.split_at(len as usize);
    Ok(Some(payload))
}

/// The message at the front, with the length of its frame.
#[tactic(auto, unfolding(crate::specs::Frames::ahead))]
fn front_message<M: Wire + Drop>(
    alloc: Global,
    limit: u32,
    bytes: &[u8],
) -> Result<Option<(M, usize)>, DecodeError>
    ensures { ShowsMessage result bytes.now (ahead M.codec limit bytes.now) }
{
    match front_payload(limit, bytes)? {
        None => Ok(None),
        Some(payload) => {
            let message = BincodeCodec::decode::<M>(alloc, payload)?;
            Ok(Some((message, 4 + payload.len())))
        }
    }
}

/// Drops what was given, once it is more than half of what is held: so each byte is moved once at most.
fn compact(alloc: Global, held: &mut Vec<u8>, start: &mut usize) -> Result<(), NoMemory>
    requires { start.old ≤ length held.old.items }
    ensures rest { drop start.new held.new.items ≡ drop start.old held.old.items }
    ensures within { start.new ≤ length held.new.items }
{
    if *start > held.len() / 2 {
        *held = held[*start..].to_vec(alloc)?;
        *start = 0;
    }
    Ok(())
}

impl Framer {
    /// No bytes came. A frame's payload has at most `limit` bytes.
    pub fn new(alloc: Global, limit: u32) -> Framer
        ensures { result ≡ record { limit = limit; rest = [] } }
    {
        Framer {
            limit,
            held: Vec::new(alloc),
            start: 0,
        }
    }

    /// Takes the next piece of the stream.
    #[tactic(auto, using(crate::proofs::Pieces::drop_more))]
    pub fn feed(&mut self, alloc: Global, piece: &[u8]) -> Result<(), NoMemory>
        ensures ok { OnOk result (self.new ≡ record self.old { rest = self.old.rest ++ piece.now }) }
        ensures err { OnErr result (self.new ≡ self.old) }
    {
        compact(alloc, &mut self.held, &mut self.start)?;
        self.held.extend_from_slice(piece)?;
        Ok(())
    }

    /// Whether no byte is held that no frame has given.
    pub fn is_empty(&self) -> bool
        ensures { IsTrue result ↔ (self.now.rest ≡ []) }
    {
        self.held[self.start..].is_empty()
    }

    /// The payload of the next frame; none where no whole frame is held. A length over the limit is `BadFrame`,
    /// and stays so.
    pub fn next(&mut self, alloc: Global) -> Result<Option<ByteText>, DecodeError>
        ensures { GivesPayload result (cut self.old.limit self.old.rest) self.old self.new }
    {
        match front_payload(self.limit, &self.held[self.start..])? {
            Some(payload) => {
                let copy = ByteText::from_slice(alloc, payload)?;
                self.start += 4 + copy.len();
                Ok(Some(copy))
            }
            None => Ok(None),
        }
    }

    /// The message of the next frame, read where it lies; none where no whole frame is held. A length over the
    /// limit and a payload that spells no message are `BadFrame`, and stay so.
    pub fn next_message<M: Wire + Drop>(&mut self, alloc: Global) -> Result<Option<M>, DecodeError>
        ensures { GivesMessage result (ahead M.codec self.old.limit self.old.rest) self.old self.new }
    {
        match front_message::<M>(alloc, self.limit, &self.held[self.start..])? {
            Some((message, len)) => {
                self.start += len;
                Ok(Some(message))
            }
            None => Ok(None),
        }
    }

    /// The request of the next frame; none where no whole frame is held. A length over the limit and a payload
    /// that spells no request are `BadFrame`, and stay so.
    pub fn next_request(&mut self, alloc: Global) -> Result<Option<Request>, DecodeError>
        ensures { GivesRequest result (request_front self.old.limit self.old.rest) self.old self.new }
    {
        self.next_message::<Request>(alloc)
    }
}

/// Whatever the cutting: after any feeds and any requests taken, what was taken and what is held is what the fed
/// bytes spell; and once no request stands at the front, all of theirs are taken.
pub fn any_cutting()
    ensures { (limit : ℕ) (decode : List ℕ → Option Request) → AnyCutting limit decode }
{}
