//! What connects a distributed client with its scheduler.

ghost use Rattle.std.specs.Prelude.{◌≡◌, List, Option, ℕ, IfOk, OnOk};
ghost use Rattle.sc_model.specs.Containers.{MakerCause, Makes_next};
ghost use Rattle.sc_model.specs.declared.level.Making.{Making as Answer};

use crate::client::DistClient;
use sc_entry::NoMemory;
use sc_model::Making;
use std::alloc::Global;

/// What makes a distributed client anew: it connects it with its scheduler.
pub trait DistMaker {
    type Client: DistClient + Drop;

    /// What it answers next, where it tells that; behind the last each client is made.
    ghost makings: { Self → Option (List Answer) };

    /// How often a client wasn't made.
    ghost fault_count: { Self → ℕ };

    /// How often a client wasn't made. The count stops at the end of `u64`.
    fn faults(&self) -> u64
        ensures { result ≡ fault_count self.now };

    /// Makes the client anew, at this moment. What it did and tells stays. It isn't made only where the count rose.
    fn make(
        &mut self,
        alloc: Global,
        client: &mut Self::Client,
        now: u64,
    ) -> Result<Making, NoMemory>
        ensures jobs { OnOk result (Self.Client.jobs client.new ≡ Self.Client.jobs client.old) }
        ensures lines { OnOk result (Self.Client.lines client.new ≡ Self.Client.lines client.old) }
        ensures scheduler { OnOk result (Self.Client.scheduler client.new ≡ Self.Client.scheduler client.old) }
        ensures faults { OnOk result (Self.Client.fault_count client.new ≡ Self.Client.fault_count client.old) }
        ensures makes { IfOk result (λ making. Makes_next (makings self.old) making (makings self.new)) }
        ensures cause { IfOk result (λ making. MakerCause making (fault_count self.old) (fault_count self.new)) };
}
