ghost use Rattle.std.specs.Prelude.{◌≡◌, ◌≤◌, None, codes};
ghost use Rattle.sc_entry.specs.Failing.{one_more};

use sc_entry::{ByteText, NoMemory, Text};
use sc_model::RemoteFault;
use sc_store::{Remote, RemoteRead, RemoteWrite};
use std::alloc::Global;

/// A store behind a network, of which there is none: it stands where a daemon's parts name such a store and no level has one. It
/// refuses each call, and counts that.
#[derive(Drop)]
pub struct NoRemote {
    faults: u64,
}

impl NoRemote {
    /// It was not asked yet.
    pub fn new() -> NoRemote
        ensures { result.faults ≡ 0 }
    {
        NoRemote { faults: 0 }
    }

    /// Counts a refusal.
    fn refuse(&mut self)
        ensures count { self.new.faults ≡ one_more self.old.faults }
        ensures later { self.old.faults ≤ self.new.faults }
    {
        self.faults = self.faults.saturating_add(1);
    }
}

impl Remote for NoRemote {
    ghost held = { λ _. None };

    ghost fault_count = { λ r. r.faults };

    ghost loss_count = { λ _. 0 };

    ghost calls = { λ _. None };

    ghost reached = { λ _. None };

    ghost names = { λ _. record { scheme = codes "none"; name = codes "none"; root = codes "/" } };

    fn faults(&self) -> u64 {
        self.faults
    }

    fn read(&mut self, _alloc: Global, _path: &Text) -> Result<RemoteRead, NoMemory> {
        self.refuse();
        Ok(RemoteRead::Refused(RemoteFault::Other))
    }

    fn write(
        &mut self,
        _alloc: Global,
        _path: &Text,
        _bytes: &ByteText,
    ) -> Result<RemoteWrite, NoMemory> {
        self.refuse();
        Ok(RemoteWrite::Refused(RemoteFault::Other))
    }

    fn scheme(&self) -> &str {
        "none"
    }

    fn name(&self) -> &str {
        "none"
    }

    fn root(&self) -> &str {
        "/"
    }
}
