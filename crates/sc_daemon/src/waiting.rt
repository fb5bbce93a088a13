//! The requests of a connection that are whole and not yet over.
ghost use Rattle.std.specs.Prelude.{◌≡◌, ◌↔◌, ◌+◌, ◌<◌, ◌≤◌, ◌^◌, ◌++◌, [], length, drop, option_map, IsTrue, OnOk, OnErr};
ghost use Rattle.sc_daemon.specs.Lines.{IsFirst, first_of, listed};
ghost use Rattle.sc_wire.specs.Streams.{request_reader};

use sc_entry::{NoMemory, Queue};
use sc_model::Request;
use sc_wire_conn::Inbox;
use std::alloc::Global;
use std::marker::Model;

/// The requests that wait, the one that is served first. Contracts see them as a list.
#[derive(Drop)]
pub struct Waiting {
    served: Option<Request>,
    rest: Queue<Request>,
}

impl Model for Waiting {
    ghost use Rattle.std.specs.Prelude.{List, ◌++◌};
    ghost use Rattle.sc_model.specs.declared.message.Request.{Request};
    ghost use Rattle.sc_daemon.specs.Lines.{IsFirst, listed};

    ghost Value = { List Request };

    ghost use Rattle.std.specs.Coded.{coded_list};
    ghost use Rattle.sc_model.specs.contracts.message.Request as request_type;

    ghost coded = { coded_list request_type.the_row.coded };

    ghost view = { λ w. listed w.served ++ w.rest };

    ghost invariant = { λ w. IsFirst w.served w.rest };
}

/// Takes the first of those that wait, where none is served.
fn go_on(served: &mut Option<Request>, rest: &mut Queue<Request>)
    ensures same { listed served.new ++ rest.new ≡ listed served.old ++ rest.old }
    ensures first { IsFirst served.new rest.new }
{
    if served.is_none() {
        *served = rest.pop_front();
    }
}

impl Waiting {
    pub fn new(alloc: Global) -> Waiting
        ensures { result ≡ [] }
    {
        Waiting {
            served: None,
            rest: Queue::new(alloc),
        }
    }

    pub fn is_empty(&self) -> bool
        ensures { IsTrue result ↔ (self.now ≡ []) }
    {
        self.served.is_none()
    }

    /// The request that is served.
    pub fn first(&self) -> Option<&Request>
        ensures { option_map (λ c. c.now) result ≡ first_of self.now }
    {
        self.served.as_ref()
    }

    /// The request that is served makes way for the next.
    pub fn pop(&mut self)
        ensures { self.new ≡ drop 1 self.old }
    {
        self.served = self.rest.pop_front();
    }

    /// Takes a piece of the connection's stream, and the requests that are whole by then.
    pub fn take(&mut self, alloc: Global, inbox: &mut Inbox, piece: &[u8]) -> Result<(), NoMemory>
        requires { inbox.old.got + length piece.now < 2 ^ 64 }
        ensures requests { OnOk result (self.new ≡ self.old ++ (request_reader inbox.old.limit).requests (inbox.old.rest ++ piece.now)) }
        ensures rest { OnOk result (inbox.new.rest ≡ (request_reader inbox.old.limit).rest (inbox.old.rest ++ piece.now)) }
        ensures got { OnOk result (inbox.new.got ≡ inbox.old.got + length piece.now) }
        ensures room { OnOk result (length self.new + length inbox.new.rest ≤ length self.old + length inbox.old.rest + length piece.now) }
        ensures closed { OnOk result (inbox.new.closed ≡ inbox.old.closed) }
        ensures limit { OnOk result (inbox.new.limit ≡ inbox.old.limit) }
        ensures err { OnErr result (inbox.new ≡ record inbox.old { rest = [] }) }
    {
        let took = inbox.take_bytes(alloc, piece, &mut self.rest);
        go_on(&mut self.served, &mut self.rest);
        took
    }
}
