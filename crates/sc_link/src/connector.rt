ghost use Rattle.std.specs.Prelude.{◌≡◌, ◌≤◌, true, List, ℕ, Option, IfOk, IsErr};
ghost use Rattle.sc_entry.specs.Causes.{Told};
ghost use Rattle.sc_wire_address.specs.declared.socket_addr.SocketAddr.{SocketAddr};
ghost use Rattle.sc_link.specs.Connecting.{is_abstract, AsksOnce, GivesFirst, ConnectCause};

use crate::link::Link;
use crate::link_error::ConnectError;
use sc_wire_address::SocketAddr;

/// What makes links to servers.
pub trait Connector {
    type Link: Link + Drop;

    /// The addresses that it was asked for, in order, where it tells them. No call changes whether it tells.
    ghost asked: { Self → Option (List SocketAddr) };

    /// The links that it will give, in order, where it tells them. No call changes whether it tells.
    ghost links: { Self → Option (List Self.Link) };

    /// How often it refused.
    ghost fault_count: { Self → ℕ };

    /// How often it refused. The count never falls.
    fn faults(&self) -> u64
        ensures { result ≡ fault_count self.now };

    /// A link to the server at an address. An abstract name is always refused.
    fn connect(&mut self, addr: &SocketAddr) -> Result<Self::Link, ConnectError>
        ensures asked { AsksOnce result addr.now (asked self.old) (asked self.new) }
        ensures first { Told (GivesFirst result) (links self.old) (links self.new) }
        ensures number { IfOk result (λ link. Self.Link.number_of link ≡ 0) }
        ensures unopened { is_abstract addr.now ≡ true → IsErr result }
        ensures later { fault_count self.old ≤ fault_count self.new }
        ensures cause { ConnectCause (fault_count self.old) (fault_count self.new) result };
}

/// A link to the server at an address: the connector is asked once. An abstract name is always refused.
pub fn connect<C: Connector>(connector: &mut C, addr: &SocketAddr) -> Result<C::Link, ConnectError>
    ensures asked { AsksOnce result addr.now (C.asked connector.old) (C.asked connector.new) }
    ensures first { Told (GivesFirst result) (C.links connector.old) (C.links connector.new) }
    ensures number { IfOk result (λ link. C.Link.number_of link ≡ 0) }
    ensures unopened { is_abstract addr.now ≡ true → IsErr result }
    ensures later { C.fault_count connector.old ≤ C.fault_count connector.new }
    ensures cause { ConnectCause (C.fault_count connector.old) (C.fault_count connector.new) result }
{
    connector.connect(addr)
}
