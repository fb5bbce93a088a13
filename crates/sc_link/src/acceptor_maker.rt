ghost use Rattle.std.specs.Prelude.{◌≡◌, ◌≤◌, true, List, ℕ, Option, IfOk, IsErr};
ghost use Rattle.sc_wire_address.specs.declared.socket_addr.SocketAddr.{SocketAddr};
ghost use Rattle.sc_link.specs.Connecting.{is_abstract};
ghost use Rattle.sc_link.specs.Listening.{ListenCause, ListensAt, ListensOnce};

use crate::acceptor::Acceptor;
use crate::link_error::ListenError;
use sc_wire_address::SocketAddr;

/// What makes acceptors.
pub trait AcceptorMaker {
    type Acceptor: Acceptor + Drop;

    /// The addresses that it was asked for, in order, where it tells them. No call changes whether it tells.
    ghost asked: { Self → Option (List SocketAddr) };

    /// How often it refused.
    ghost fault_count: { Self → ℕ };

    /// How often it refused. The count never falls.
    fn faults(&self) -> u64
        ensures { result ≡ fault_count self.now };

    /// An acceptor that listens at an address, and gave no link yet. For a port of 0 it takes one that is free. An abstract
    /// name is always refused.
    fn make(&mut self, addr: &SocketAddr) -> Result<Self::Acceptor, ListenError>
        ensures asked { ListensOnce result addr.now (asked self.old) (asked self.new) }
        ensures address { IfOk result (λ acceptor. ListensAt addr.now (Self.Acceptor.address acceptor)) }
        ensures given { IfOk result (λ acceptor. Self.Acceptor.given acceptor ≡ 0) }
        ensures unopened { is_abstract addr.now ≡ true → IsErr result }
        ensures later { fault_count self.old ≤ fault_count self.new }
        ensures cause { ListenCause (fault_count self.old) (fault_count self.new) result };
}
