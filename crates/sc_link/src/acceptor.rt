ghost use Rattle.std.specs.Prelude.{◌≡◌, ◌-◌, ◌^◌, ◌<◌, ◌≤◌, List, ℕ, Option};
ghost use Rattle.sc_entry.specs.Causes.{Told};
ghost use Rattle.sc_wire_address.specs.declared.socket_addr.SocketAddr.{SocketAddr};
ghost use Rattle.sc_link.specs.Accepting.{AcceptsOnce, AcceptCause, ClosedCause, IfLink, given_after};

use crate::link::Link;
use crate::link_error::AcceptFault;
use sc_wire_address::SocketAddr;

/// What an acceptor answers.
#[derive(Debug, Drop)]
pub enum Accepted<K> {
    /// A client connected.
    Link(K),
    /// No client waits.
    NotYet,
    /// No link will be given any more: the list of links is used up, or 2^64 - 1 links were given.
    Closed,
}

/// What takes the links that clients make to a server.
pub trait Acceptor {
    type Link: Link + Drop;

    /// The links that are ready, in order, where it tells them. No call changes whether it tells.
    ghost ready: { Self → Option (List Self.Link) };

    /// How many links it gave.
    ghost given: { Self → ℕ };

    /// The address at which it listens.
    ghost address: { Self → SocketAddr };

    /// How often it refused.
    ghost fault_count: { Self → ℕ };

    /// How often it refused. The count never falls.
    fn faults(&self) -> u64
        ensures { result ≡ fault_count self.now };

    /// The address at which it listens.
    fn local_addr(&self) -> &SocketAddr
        ensures { result.now ≡ address self.now };

    /// The next link, if one is ready. Links are numbered 0, 1, .. in the order in which they are given.
    fn accept(&mut self) -> Result<Accepted<Self::Link>, AcceptFault>
        ensures told { Told (AcceptsOnce result) (ready self.old) (ready self.new) }
        ensures closed { ClosedCause result (given self.old) (ready self.old) }
        ensures number { IfLink result (λ link. Self.Link.number_of link ≡ given self.old) }
        ensures room { IfLink result (λ _. given self.old < 2 ^ 64 - 1) }
        ensures given { given self.new ≡ given_after result (given self.old) }
        ensures address { address self.new ≡ address self.old }
        ensures later { fault_count self.old ≤ fault_count self.new }
        ensures cause { AcceptCause (fault_count self.old) (fault_count self.new) result };
}
