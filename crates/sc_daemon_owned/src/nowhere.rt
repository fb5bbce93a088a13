ghost use Rattle.std.specs.Prelude.{None};

use sc_entry::{Sink, WriteError};

/// A sink that keeps nothing.
#[derive(Drop)]
pub struct Nowhere;

impl Sink for Nowhere {
    ghost written = { λ _. None };

    ghost fault_count = { λ _. 0 };

    fn faults(&self) -> u64 {
        0
    }

    fn write(&mut self, bytes: &[u8]) -> Result<usize, WriteError> {
        Ok(bytes.len())
    }
}
