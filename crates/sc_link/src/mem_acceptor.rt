ghost use Rattle.std.specs.Prelude.{◌≡◌, ◌-◌, ◌^◌, ◌<◌, ◌≤◌, ℕ, Some, IfOk, is_err};
ghost use Rattle.sc_entry.specs.Causes.{Told};
ghost use Rattle.sc_entry.specs.Failing.{fails_at, one_more};
ghost use Rattle.sc_link.specs.Accepting.{AcceptsOnce, AcceptCause, ClosedCause, IfLink, given_after};
ghost use Rattle.sc_link.specs.Numbers.{accept_answer, numbered_from};

use crate::acceptor::{Accepted, Acceptor};
use crate::link_error::AcceptFault;
use crate::mem_link::MemLink;
use sc_entry::{Calls, Queue};
use sc_wire_address::SocketAddr;

/// An acceptor in memory: it gives the links of a list, in order, and is closed behind them. It refuses the calls whose numbers
/// are to fail, and no others.
#[derive(Drop)]
pub struct MemAcceptor {
    address: SocketAddr,
    links: Queue<MemLink>,
    given: u64,
    calls: Calls,
}

impl MemAcceptor {
    /// An acceptor that gave no link yet.
    pub fn new(address: SocketAddr, links: Queue<MemLink>, calls: Calls) -> MemAcceptor
        ensures address { result.address ≡ address }
        ensures links { result.links ≡ links }
        ensures given { result.given ≡ 0 }
        ensures calls { result.calls ≡ calls }
    {
        MemAcceptor {
            address,
            links,
            given: 0,
            calls,
        }
    }
}

impl Acceptor for MemAcceptor {
    type Link = MemLink;

    ghost ready = { λ a. Some (numbered_from a.links a.given) };

    ghost given = { λ a. a.given };

    ghost address = { λ a. a.address };

    ghost fault_count = { λ a. a.calls.faults };

    fn faults(&self) -> u64 {
        self.calls.faults()
    }

    fn local_addr(&self) -> &SocketAddr {
        &self.address
    }

    fn accept(&mut self) -> Result<Accepted<MemLink>, AcceptFault>
        ensures told { Told (AcceptsOnce result) (Some (numbered_from self.old.links self.old.given)) (Some (numbered_from self.new.links self.new.given)) }
        ensures closed { ClosedCause result self.old.given (Some (numbered_from self.old.links self.old.given)) }
        ensures number { IfLink result (λ link. link.number ≡ self.old.given) }
        ensures room { IfLink result (λ _. self.old.given < 2 ^ 64 - 1) }
        ensures given { self.new.given ≡ given_after result self.old.given }
        ensures address { self.new.address ≡ self.old.address }
        ensures later { self.old.calls.faults ≤ self.new.calls.faults }
        ensures cause { AcceptCause self.old.calls.faults self.new.calls.faults result }

        // It refuses exactly the listed calls, and is closed exactly behind its last link.
        ensures made { self.new.calls.made ≡ one_more self.old.calls.made }
        ensures failing { (number : ℕ) → fails_at self.new.calls number ≡ fails_at self.old.calls number }
        ensures listed { is_err result ≡ fails_at self.old.calls self.new.calls.made }
        ensures answer { IfOk result (λ answer. answer ≡ accept_answer self.old.links self.old.given) }
    {
        if self.calls.fails_next() {
            return Err(AcceptFault);
        }
        let number = self.given;
        if number == u64::MAX {
            return Ok(Accepted::Closed);
        }
        match self.links.pop_front() {
            Some(link) => {
                self.given = number + 1;
                Ok(Accepted::Link(link.numbered(number)))
            }
            None => Ok(Accepted::Closed),
        }
    }
}
