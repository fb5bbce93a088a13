//! A connection to a server.
ghost use Rattle.std.specs.Prelude.{◌≡◌, ◌≤◌, ◌<◌, IfOk, length, nat_lt};
ghost use Rattle.sc_wire.specs.Requests.{spell_request};
ghost use Rattle.sc_client.specs.Conversations.{Asks, CausedBy, Reads, beginning, kept_of};
ghost use Rattle.sc_client.specs.Framing.{FramesOf};

use crate::replies::{exchange, next_reply};
use crate::request_error::{Refusal, RequestError};
use sc_entry::NoMemory;
use sc_link::Link;
use sc_wire::{Framer, Request, Response, append_request};
use std::alloc::Global;
use std::marker::Model;

/// A reply's payload has at most so many bytes.
const REPLY_LIMIT: u32 = 16777216;

/// At most so many bytes are read at a time.
const READ_SIZE: usize = 65536;

/// A connection to a server: requests go out, and replies come in their order. It keeps what was read behind a reply for the
/// next one. Once a read or a write was refused, or memory ran out in the middle of a frame, it answers that to each later call
/// and touches its link no more.
#[derive(Drop)]
pub struct ServerConnection<K: Link> {
    alloc: Global,
    link: K,
    framer: Framer,
    buffer: Vec<u8>,
    faults_before: u64,
    refusal: Option<Refusal>,
}

impl<K: Link> Model for ServerConnection<K> {
    ghost use Rattle.std.specs.Prelude.{length};
    ghost use Rattle.sc_client.specs.Connections.{IsConnected};
    ghost use Rattle.sc_client.specs.Conversations.{Conversation, held};

    ghost Value = { Conversation };

    ghost view = { λ c. record { ahead = held c.framer.rest (K.ahead c.link); written = K.written c.link; faults_before = c.faults_before; faults = K.fault_count c.link; refusal = c.refusal } };

    ghost invariant = { λ c. IsConnected c.framer.limit (length c.buffer.items) c.faults_before (K.fault_count c.link) c.refusal };
}

/// A buffer to read into.
fn buffer(alloc: Global) -> Result<Vec<u8>, NoMemory>
    ensures { IfOk result (λ buffer. 0 < length buffer.items) }
{
    let buffer = vec![in alloc; 0u8; READ_SIZE]?;
    Ok(buffer)
}

/// A request's frame, where it isn't too long for one.
fn frame_of(alloc: Global, request: &Request) -> Result<Vec<u8>, RequestError>
    ensures { FramesOf (nat_lt 4294967295 (length (spell_request request.now))) (spell_request request.now) result }
{
    let mut frame = Vec::new(alloc);
    append_request(alloc, u32::MAX, request, &mut frame)?;
    Ok(frame)
}

/// Why no later call touches the link.
fn kept_of(answer: &Result<Response, RequestError>) -> Option<Refusal>
    ensures { result ≡ kept_of answer.now }
{
    match answer {
        Ok(_) => None,
        Err(RequestError::NoMemory) => Some(Refusal::NoMemory),
        Err(RequestError::BadFrame) => None,
        Err(RequestError::EndOfStream) => None,
        Err(RequestError::ReadFault) => Some(Refusal::ReadFault),
        Err(RequestError::WriteFault) => Some(Refusal::WriteFault),
    }
}

impl<K: Link + Drop> ServerConnection<K> {
    /// A connection over a link on which nothing was asked yet. It reads at most 65,536 bytes at a time.
    pub fn new(alloc: Global, link: K) -> Result<ServerConnection<K>, NoMemory>
        ensures { IfOk result (λ c. c ≡ beginning (K.ahead link) (K.written link) (K.fault_count link)) }
    {
        let buffer = buffer(alloc)?;
        let faults_before = link.faults();
        Ok(ServerConnection {
            alloc,
            link,
            framer: Framer::new(alloc, REPLY_LIMIT),
            buffer,
            faults_before,
            refusal: None,
        })
    }

    /// Its link.
    pub fn link(&self) -> &K
        ensures written { K.written result.now ≡ self.now.written }
        ensures faults { K.fault_count result.now ≡ self.now.faults }
    {
        &self.link
    }

    /// Sends a request, and answers its reply: the first that is held or comes. A request whose payload has over 4,294,967,295
    /// bytes is `BadFrame`, and nothing of it is written.
    pub fn request(&mut self, request: &Request) -> Result<Response, RequestError>
        ensures asks { Asks request.now self.old result self.new }
        ensures later { self.old.faults ≤ self.new.faults }
        ensures cause { CausedBy result self.new }
    {
        if let Some(refusal) = self.refusal {
            return Err(RequestError::from(refusal));
        }
        let frame = frame_of(self.alloc, request)?;
        let answer = exchange(
            self.alloc,
            &mut self.link,
            &mut self.framer,
            &mut self.buffer,
            &frame,
        );
        self.refusal = kept_of(&answer);
        answer
    }

    /// Reads the next reply, and writes nothing.
    pub fn read_one_response(&mut self) -> Result<Response, RequestError>
        ensures reads { Reads self.old result self.new }
        ensures later { self.old.faults ≤ self.new.faults }
        ensures cause { CausedBy result self.new }
    {
        if let Some(refusal) = self.refusal {
            return Err(RequestError::from(refusal));
        }
        let answer = next_reply(
            self.alloc,
            &mut self.link,
            &mut self.framer,
            &mut self.buffer,
        );
        self.refusal = kept_of(&answer);
        answer
    }
}
