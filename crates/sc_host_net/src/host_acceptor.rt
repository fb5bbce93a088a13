ghost use Rattle.std.specs.Prelude.{◌≡◌, ◌≤◌, None};
ghost use Rattle.sc_entry.specs.Failing.{one_more};

use crate::host_link::HostLink;
use crate::listening::Listener;
use sc_link::{AcceptFault, Accepted, Acceptor};
use sc_wire_address::SocketAddr;

/// An acceptor of the host. It waits up to a tenth of a second for a client before it says that none is there. A full table of
/// descriptors and a client that went away before it was accepted are no faults.
#[derive(Drop)]
pub struct HostAcceptor {
    listener: Listener,
    address: SocketAddr,
    given: u64,
    faults: u64,
}

impl HostAcceptor {
    pub(crate) fn new(listener: Listener, address: SocketAddr) -> HostAcceptor
        ensures address { result.address ≡ address }
        ensures given { result.given ≡ 0 }
        ensures faults { result.faults ≡ 0 }
    {
        HostAcceptor {
            listener,
            address,
            given: 0,
            faults: 0,
        }
    }

    /// Counts a fault.
    fn refuse(&mut self) -> AcceptFault
        ensures count { self.new.faults ≡ one_more self.old.faults }
        ensures later { self.old.faults ≤ self.new.faults }
        ensures address { self.new.address ≡ self.old.address }
        ensures given { self.new.given ≡ self.old.given }
    {
        self.faults = self.faults.saturating_add(1);
        AcceptFault
    }
}

impl Acceptor for HostAcceptor {
    type Link = HostLink;

    ghost ready = { λ _. None };

    ghost given = { λ a. a.given };

    ghost address = { λ a. a.address };

    ghost fault_count = { λ a. a.faults };

    fn faults(&self) -> u64 {
        self.faults
    }

    fn local_addr(&self) -> &SocketAddr {
        &self.address
    }

    fn accept(&mut self) -> Result<Accepted<HostLink>, AcceptFault> {
        let number = self.given;
        if number == u64::MAX {
            return Ok(Accepted::Closed);
        }
        match self.listener.accept() {
            Ok(Some(stream)) => {
                self.given = number + 1;
                Ok(Accepted::Link(HostLink::new(stream, number)))
            }
            Ok(None) => Ok(Accepted::NotYet),
            Err(_) => Err(self.refuse()),
        }
    }
}
