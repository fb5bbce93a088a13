ghost use Rattle.std.specs.Prelude.{◌≡◌, ◌≤◌, ◌||◌, ℕ, true, [], Some, Err, IfOk, IsErr, map};
ghost use Rattle.sc_entry.specs.Causes.{Told};
ghost use Rattle.sc_entry.specs.Failing.{fails_at, one_more};
ghost use Rattle.sc_link.specs.Connecting.{is_abstract, AsksOnce, GivesFirst, ConnectCause, IfAnswered};
ghost use Rattle.sc_link.specs.Numbers.{numbered, connect_answer};
ghost use Rattle.sc_link.specs.declared.link_error.ConnectError.TheVariants as connect_errors;

use crate::addresses::{copy_of, is_abstract};
use crate::connector::Connector;
use crate::link_error::ConnectError;
use crate::mem_link::MemLink;
use sc_entry::{Calls, Items, Queue};
use sc_wire_address::SocketAddr;
use std::alloc::Global;

/// A connector in memory: it gives the links of a list, in order, each numbered 0. It refuses the calls whose numbers are to
/// fail, abstract names, and each call where no link is left, and no others. A refused call takes no link off the list.
#[derive(Drop)]
pub struct MemConnector {
    links: Queue<MemLink>,
    asked: Items<SocketAddr>,
    calls: Calls,
}

impl MemConnector {
    /// A connector that was not asked yet.
    pub fn new(alloc: Global, links: Queue<MemLink>, calls: Calls) -> MemConnector
        ensures links { result.links ≡ links }
        ensures asked { result.asked ≡ [] }
        ensures calls { result.calls ≡ calls }
    {
        MemConnector {
            links,
            asked: Items::new(alloc),
            calls,
        }
    }

    /// How often it was asked. The count stops at the end of `u64`.
    pub fn connects(&self) -> u64
        ensures { result ≡ self.now.calls.made }
    {
        self.calls.made()
    }

    /// The addresses that it was asked for, in order.
    pub fn asked(&self) -> &[SocketAddr]
        ensures { result.now ≡ self.now.asked }
    {
        self.asked.as_slice()
    }
}

impl Connector for MemConnector {
    type Link = MemLink;

    ghost asked = { λ c. Some c.asked };

    ghost links = { λ c. Some (map (numbered 0) c.links) };

    ghost fault_count = { λ c. c.calls.faults };

    fn faults(&self) -> u64 {
        self.calls.faults()
    }

    fn connect(&mut self, addr: &SocketAddr) -> Result<MemLink, ConnectError>
        ensures asked { AsksOnce result addr.now (Some self.old.asked) (Some self.new.asked) }
        ensures first { Told (GivesFirst result) (Some (map (numbered 0) self.old.links)) (Some (map (numbered 0) self.new.links)) }
        ensures number { IfOk result (λ link. link.number ≡ 0) }
        ensures unopened { is_abstract addr.now ≡ true → IsErr result }
        ensures later { self.old.calls.faults ≤ self.new.calls.faults }
        ensures cause { ConnectCause self.old.calls.faults self.new.calls.faults result }

        // It refuses exactly the listed calls, abstract names, and what it has no link for.
        ensures answer { IfAnswered result (result ≡ connect_answer (fails_at self.old.calls (one_more self.old.calls.made) || is_abstract addr.now) self.old.links) }
        ensures made { IfAnswered result (self.new.calls.made ≡ one_more self.old.calls.made) }
        ensures failing { (number : ℕ) → fails_at self.new.calls number ≡ fails_at self.old.calls number }
        ensures memory { result ≡ Err connect_errors.NoMemory → self.new ≡ self.old }
    {
        let asked = copy_of(addr)?;
        self.asked.push(asked)?;
        if self.calls.fails_next() {
            return Err(ConnectError::LinkFault);
        }
        if is_abstract(addr) {
            self.calls.refuse();
            return Err(ConnectError::LinkFault);
        }
        match self.links.pop_front() {
            Some(link) => Ok(link.numbered(0)),
            None => {
                self.calls.refuse();
                Err(ConnectError::LinkFault)
            }
        }
    }
}
