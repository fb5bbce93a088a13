ghost use Rattle.std.specs.Prelude.{◌≡◌, ◌≤◌, ◌||◌, ℕ, true, [], Some, Err, IfOk, IsErr};
ghost use Rattle.sc_entry.specs.Failing.{fails_at, one_more};
ghost use Rattle.sc_link.specs.Connecting.{is_abstract};
ghost use Rattle.sc_link.specs.Listening.{IfListens, ListenCause, ListensAt, ListensOnce};
ghost use Rattle.sc_link.specs.declared.link_error.ListenError.TheVariants as listen_errors;

use crate::acceptor_maker::AcceptorMaker;
use crate::addresses::{copy_of, is_abstract};
use crate::link_error::ListenError;
use crate::mem_acceptor::MemAcceptor;
use crate::mem_link::MemLink;
use sc_entry::{Calls, Items, Queue};
use sc_wire_address::SocketAddr;
use std::alloc::Global;

/// What a maker in memory answers.
#[derive(Drop)]
pub enum MemListening {
    /// An acceptor that gives these links, and refuses these calls.
    Links(Queue<MemLink>, Calls),
    /// Somebody listens at the address.
    AddrInUse,
}

/// A maker of acceptors in memory: it takes its answers from a list, in turn. It refuses the calls whose numbers are to fail,
/// abstract names, what its list refuses, and each call behind the list's end, and no others. A call that isn't answered by
/// the list takes nothing off it.
#[derive(Drop)]
pub struct MemAcceptorMaker {
    answers: Queue<MemListening>,
    asked: Items<SocketAddr>,
    calls: Calls,
}

impl MemAcceptorMaker {
    ghost use Rattle.sc_link.specs.Making.{listed_answer, without_first};

    /// A maker that was not asked yet.
    pub fn new(alloc: Global, answers: Queue<MemListening>, calls: Calls) -> MemAcceptorMaker
        ensures answers { result.answers ≡ answers }
        ensures asked { result.asked ≡ [] }
        ensures calls { result.calls ≡ calls }
    {
        MemAcceptorMaker {
            answers,
            asked: Items::new(alloc),
            calls,
        }
    }

    /// The addresses that it was asked for, in order.
    pub fn asked(&self) -> &[SocketAddr]
        ensures { result.now ≡ self.now.asked }
    {
        self.asked.as_slice()
    }

    /// The answer of the list whose turn it is, of an acceptor at this address.
    fn listed(&mut self, address: SocketAddr) -> Result<MemAcceptor, ListenError>
        ensures answer { result ≡ listed_answer address self.old.answers }
        ensures left { self.new.answers ≡ without_first self.old.answers }
        ensures asked { self.new.asked ≡ self.old.asked }
        ensures made { self.new.calls.made ≡ self.old.calls.made }
        ensures failing { (number : ℕ) → fails_at self.new.calls number ≡ fails_at self.old.calls number }
        ensures later { self.old.calls.faults ≤ self.new.calls.faults }
        ensures cause { ListenCause self.old.calls.faults self.new.calls.faults result }
    {
        match self.answers.pop_front() {
            Some(MemListening::Links(links, calls)) => Ok(MemAcceptor::new(address, links, calls)),
            Some(MemListening::AddrInUse) => {
                self.calls.refuse();
                Err(ListenError::AddrInUse)
            }
            None => {
                self.calls.refuse();
                Err(ListenError::AcceptFault)
            }
        }
    }
}

impl AcceptorMaker for MemAcceptorMaker {
    ghost use Rattle.sc_link.specs.Making.{listen_answer};

    type Acceptor = MemAcceptor;

    ghost asked = { λ m. Some m.asked };

    ghost fault_count = { λ m. m.calls.faults };

    fn faults(&self) -> u64 {
        self.calls.faults()
    }

    fn make(&mut self, addr: &SocketAddr) -> Result<MemAcceptor, ListenError>
        ensures asked { ListensOnce result addr.now (Some self.old.asked) (Some self.new.asked) }
        ensures address { IfOk result (λ acceptor. ListensAt addr.now acceptor.address) }
        ensures given { IfOk result (λ acceptor. acceptor.given ≡ 0) }
        ensures unopened { is_abstract addr.now ≡ true → IsErr result }
        ensures later { self.old.calls.faults ≤ self.new.calls.faults }
        ensures cause { ListenCause self.old.calls.faults self.new.calls.faults result }

        // It refuses exactly the listed calls and abstract names, and else answers what its list says.
        ensures answer { IfListens result (result ≡ listen_answer addr.now (fails_at self.old.calls (one_more self.old.calls.made) || is_abstract addr.now) self.old.answers) }
        ensures made { IfListens result (self.new.calls.made ≡ one_more self.old.calls.made) }
        ensures failing { (number : ℕ) → fails_at self.new.calls number ≡ fails_at self.old.calls number }
        ensures memory { result ≡ Err listen_errors.NoMemory → self.new ≡ self.old }
    {
        let asked = copy_of(addr)?;
        let address = copy_of(addr)?;
        self.asked.push(asked)?;
        if self.calls.fails_next() {
            return Err(ListenError::AcceptFault);
        }
        if is_abstract(addr) {
            self.calls.refuse();
            return Err(ListenError::AcceptFault);
        }
        self.listed(address)
    }
}
