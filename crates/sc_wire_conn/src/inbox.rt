//! The reading side of a connection.
ghost use Rattle.std.specs.Prelude.{◌≡◌, ◌+◌, ◌≤◌, ◌<◌, ◌^◌, ◌⊎◌, ◌++◌, [], true, false, length, IfOk, OnOk, OnErr};
ghost use Rattle.sc_wire_conn.specs.Ends.{end_of};
ghost use Rattle.sc_wire_conn.specs.Incoming.{StandsAt};
ghost use Rattle.sc_model.specs.Script.{BadFrame};
ghost use Rattle.sc_wire.specs.Streams.{request_front, request_reader};

use crate::end::End;
use sc_entry::{NoMemory, Queue};
use sc_model::Request;
use sc_wire::{DecodeError, Framer};
use std::alloc::Global;
use std::marker::Model;

/// What came over a connection and is not yet a request. It keeps the bytes behind the last whole good frame.
#[derive(Drop)]
pub struct Inbox {
    limit: u32,
    framer: Framer,
    got: u64,
    closed: bool,
    /// A bad frame stands at the front, so no later byte is read.
    bad: bool,
}

impl Model for Inbox {
    ghost use Rattle.std.specs.Prelude.{◌≡◌};
    ghost use Rattle.sc_wire_conn.specs.Incoming.{Incoming, StandsAt};
    ghost use Rattle.sc_wire.specs.Streams.{request_front};

    ghost Value = { Incoming };

    ghost view = { λ i. record { limit = i.limit; rest = i.framer.rest; got = i.got; closed = i.closed } };

    ghost invariant = { λ i. (i.framer.limit ≡ i.limit) × StandsAt i.bad (request_front i.limit i.framer.rest) };
}

/// Moves the requests at the front into the queue, and says whether a bad frame stands behind them.
fn take_whole(
    alloc: Global,
    framer: &mut Framer,
    waiting: &mut Queue<Request>,
) -> Result<bool, NoMemory>
    ensures requests { OnOk result (waiting.new ≡ waiting.old ++ (request_reader framer.old.limit).requests framer.old.rest) }
    ensures rest { OnOk result (framer.new.rest ≡ (request_reader framer.old.limit).rest framer.old.rest) }
    ensures front { IfOk result (λ bad. StandsAt bad (request_front framer.old.limit framer.new.rest)) }
    ensures room { OnOk result (length waiting.new + length framer.new.rest ≤ length waiting.old + length framer.old.rest) }
    ensures limit { OnOk result (framer.new.limit ≡ framer.old.limit) }
{
    'frames: loop {
        match framer.next_request(alloc) {
            Ok(Some(request)) => waiting.push_back(request)?,
            Ok(None) => return Ok(false),
            Err(DecodeError::BadFrame) => return Ok(true),
            Err(DecodeError::NoMemory) => return Err(NoMemory),
        }
    }
}

/// Takes a piece, and moves the requests that are whole by then.
fn take_piece(
    alloc: Global,
    framer: &mut Framer,
    piece: &[u8],
    waiting: &mut Queue<Request>,
) -> Result<bool, NoMemory>
    ensures requests { OnOk result (waiting.new ≡ waiting.old ++ (request_reader framer.old.limit).requests (framer.old.rest ++ piece.now)) }
    ensures rest { OnOk result (framer.new.rest ≡ (request_reader framer.old.limit).rest (framer.old.rest ++ piece.now)) }
    ensures front { IfOk result (λ bad. StandsAt bad (request_front framer.old.limit framer.new.rest)) }
    ensures room { OnOk result (length waiting.new + length framer.new.rest ≤ length waiting.old + length framer.old.rest + length piece.now) }
    ensures limit { OnOk result (framer.new.limit ≡ framer.old.limit) }
{
    framer.feed(alloc, piece)?;
    let bad = take_whole(alloc, framer, waiting)?;
    Ok(bad)
}

impl Inbox {
    /// No byte came yet. A frame's payload has at most `limit` bytes.
    pub fn new(alloc: Global, limit: u32) -> Inbox
        ensures { result ≡ record { limit = limit; rest = []; got = 0; closed = false } }
    {
        Inbox {
            limit,
            framer: Framer::new(alloc, limit),
            got: 0,
            closed: false,
            bad: false,
        }
    }

    /// Takes the next piece of the stream, and adds the requests that are whole by then to the queue. No request is
    /// read behind a bad frame. Where memory runs out, the bytes that spell no request yet are lost, and the
    /// connection cannot be read on.
    pub fn take_bytes(
        &mut self,
        alloc: Global,
        piece: &[u8],
        waiting: &mut Queue<Request>,
    ) -> Result<(), NoMemory>
        requires { self.old.got + length piece.now < 2 ^ 64 }
        ensures requests { OnOk result (waiting.new ≡ waiting.old ++ (request_reader self.old.limit).requests (self.old.rest ++ piece.now)) }
        ensures rest { OnOk result (self.new.rest ≡ (request_reader self.old.limit).rest (self.old.rest ++ piece.now)) }
        ensures got { OnOk result (self.new.got ≡ self.old.got + length piece.now) }
        ensures room { OnOk result (length waiting.new + length self.new.rest ≤ length waiting.old + length self.old.rest + length piece.now) }
        ensures err { OnErr result (self.new ≡ record self.old { rest = [] }) }
        ensures closed { self.new.closed ≡ self.old.closed }
        ensures limit { self.new.limit ≡ self.old.limit }
    {
        match take_piece(alloc, &mut self.framer, piece, waiting) {
            Ok(bad) => {
                self.bad = bad;
                self.got += piece.len() as u64;
                Ok(())
            }
            Err(refused) => {
                self.framer = Framer::new(alloc, self.limit);
                self.bad = false;
                Err(refused)
            }
        }
    }

    /// No more bytes come.
    pub fn shut(&mut self)
        ensures { self.new ≡ record self.old { closed = true } }
    {
        self.closed = true;
    }

    /// How many bytes came.
    pub fn got(&self) -> u64
        ensures { result ≡ self.now.got }
    {
        self.got
    }

    /// Whether nothing more is read: no more bytes come, or a bad frame stands at the front.
    pub fn is_over(&self) -> bool
        ensures yes { result ≡ true → (self.now.closed ≡ true) ⊎ ((request_reader self.now.limit).ends self.now.rest false ≡ BadFrame) }
        ensures no { result ≡ false → ((self.now.closed ≡ true) ⊎ ((request_reader self.now.limit).ends self.now.rest false ≡ BadFrame)) → ⊥ }
    {
        self.closed || self.bad
    }

    /// What the connection has come to.
    pub fn end(&self) -> End
        ensures { end_of result ≡ (request_reader self.now.limit).ends self.now.rest self.now.closed }
    {
        if self.bad {
            return End::BadFrame;
        }
        if !self.closed {
            return End::Open;
        }
        if self.framer.is_empty() {
            End::Ended
        } else {
            End::EndInFrame
        }
    }
}
