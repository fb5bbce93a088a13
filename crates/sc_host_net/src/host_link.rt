ghost use Rattle.std.specs.Prelude.{◌≡◌, ◌≤◌, None, false};
ghost use Rattle.sc_entry.specs.Failing.{one_more};

use crate::streams::Stream;
use sc_entry::{ReadFault, WriteError};
use sc_link::Link;

/// One end of a TCP or Unix connection of the host.
#[derive(Drop)]
pub struct HostLink {
    stream: Stream,
    is_shut: bool,
    number: u64,
    faults: u64,
}

impl HostLink {
    pub(crate) fn new(stream: Stream, number: u64) -> HostLink
        ensures shut { result.is_shut ≡ false }
        ensures number { result.number ≡ number }
        ensures faults { result.faults ≡ 0 }
    {
        HostLink {
            stream,
            is_shut: false,
            number,
            faults: 0,
        }
    }

    /// Counts a fault.
    fn refuse(&mut self)
        ensures count { self.new.faults ≡ one_more self.old.faults }
        ensures later { self.old.faults ≤ self.new.faults }
        ensures shut { self.new.is_shut ≡ self.old.is_shut }
        ensures number { self.new.number ≡ self.old.number }
    {
        self.faults = self.faults.saturating_add(1);
    }
}

impl Link for HostLink {
    ghost ahead = { λ _. None };

    ghost written = { λ _. None };

    ghost is_shut = { λ k. k.is_shut };

    ghost number_of = { λ k. k.number };

    ghost fault_count = { λ k. k.faults };

    fn faults(&self) -> u64 {
        self.faults
    }

    fn number(&self) -> u64 {
        self.number
    }

    fn read(&mut self, buffer: &mut [u8]) -> Result<usize, ReadFault> {
        match self.stream.read(buffer) {
            Ok(n) => Ok(n),
            Err(_) => {
                self.refuse();
                Err(ReadFault)
            }
        }
    }

    fn write(&mut self, bytes: &[u8]) -> Result<usize, WriteError> {
        if self.is_shut {
            self.refuse();
            return Err(WriteError::WriteFault);
        }
        match self.stream.write(bytes) {
            Ok(n) if n > 0 || bytes.is_empty() => Ok(n),
            _ => {
                self.refuse();
                Err(WriteError::WriteFault)
            }
        }
    }

    fn shut(&mut self) {
        // A peer that is gone reads no end, so that a refusal changes nothing.
        let _ended = self.stream.end_writing();
        self.is_shut = true;
    }
}
