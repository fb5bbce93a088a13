ghost use Rattle.std.specs.Prelude.{◌≡◌, ◌<◌, ◌≤◌, List, ℕ, Option, IfOk, OnOk, OnErr, length};
ghost use Rattle.sc_entry.specs.Causes.{Told};
ghost use Rattle.sc_entry.specs.Streams.{WritesOnce, WritesAll, WritesFront, WriteCause};

use crate::stream_error::WriteError;

/// Something that bytes are written to.
pub trait Sink {
    /// The bytes that it took, where it tells them. No call changes whether it tells.
    ghost written: { Self → Option (List ℕ) };

    /// How often it refused.
    ghost fault_count: { Self → ℕ };

    /// How often it refused. The count never falls.
    fn faults(&self) -> u64
        ensures { result ≡ fault_count self.now };

    /// Takes bytes from the front of the piece, and says how many. To take none of a piece that isn't empty is a fault.
    fn write(&mut self, bytes: &[u8]) -> Result<usize, WriteError>
        ensures within { IfOk result (λ n. n ≤ length bytes.now) }
        ensures some { IfOk result (λ n. 0 < length bytes.now → 0 < n) }
        ensures told { IfOk result (λ n. Told (WritesOnce n bytes.now) (written self.old) (written self.new)) }
        ensures refused { OnErr result (written self.new ≡ written self.old) }
        ensures later { fault_count self.old ≤ fault_count self.new }
        ensures cause { WriteCause (fault_count self.old) (fault_count self.new) result };
}

/// Writes all the bytes, by as many writes as it takes. Where a write is refused, those before it stand.
pub fn write_all<O: Sink>(sink: &mut O, bytes: &[u8]) -> Result<(), WriteError>
    ensures told { OnOk result (Told (WritesAll bytes.now) (O.written sink.old) (O.written sink.new)) }
    ensures refused { OnErr result (Told (WritesFront bytes.now) (O.written sink.old) (O.written sink.new)) }
    ensures later { O.fault_count sink.old ≤ O.fault_count sink.new }
    ensures cause { WriteCause (O.fault_count sink.old) (O.fault_count sink.new) result }
{
    let mut rest = bytes;
    while !rest.is_empty() {
        let n = sink.write(rest)?;
        rest = &rest[n..];
    }
    Ok(())
}
