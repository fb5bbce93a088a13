ghost use Rattle.std.specs.Prelude.{◌≡◌, ◌<◌, ◌≤◌, true, Bool, List, ℕ, Option, Err, IfOk, OnOk, OnErr, length};
ghost use Rattle.sc_entry.specs.Causes.{Rose, Told};
ghost use Rattle.sc_entry.specs.Streams.{ReadsOnce, WritesOnce, WritesAll, WritesFront, WriteCause};
ghost use Rattle.sc_entry.specs.declared.stream_error.WriteError.TheVariants as write_errors;

use sc_entry::{ReadFault, WriteError};

/// One end of a connection: what the other end wrote is read from it, and what it is given is written to the other end.
pub trait Link {
    /// What is ahead: the bytes that are still to be read, where it tells them. No call changes whether it tells.
    ghost ahead: { Self → Option (List ℕ) };

    /// The bytes that it took, where it tells them. No call changes whether it tells.
    ghost written: { Self → Option (List ℕ) };

    /// Whether it was shut.
    ghost is_shut: { Self → Bool };

    /// Its place among the links of its acceptor.
    ghost number_of: { Self → ℕ };

    /// How often it refused.
    ghost fault_count: { Self → ℕ };

    /// How often it refused. The count never falls.
    fn faults(&self) -> u64
        ensures { result ≡ fault_count self.now };

    /// Its place among the links of its acceptor, from 0. A link that no acceptor gave has 0.
    fn number(&self) -> u64
        ensures { result ≡ number_of self.now };

    /// Reads bytes into the front of the buffer, and says how many. Of a buffer that isn't empty, 0 is the end. A link that
    /// was shut is read as before.
    fn read(&mut self, buffer: &mut [u8]) -> Result<usize, ReadFault>
        ensures within { IfOk result (λ n. n ≤ length buffer.new) }
        ensures told { IfOk result (λ n. Told (ReadsOnce n buffer.new) (ahead self.old) (ahead self.new)) }
        ensures refused { OnErr result (ahead self.new ≡ ahead self.old) }
        ensures same_written { written self.new ≡ written self.old }
        ensures same_shut { is_shut self.new ≡ is_shut self.old }
        ensures same_number { number_of self.new ≡ number_of self.old }
        ensures later { fault_count self.old ≤ fault_count self.new }
        ensures quiet { OnOk result (fault_count self.new ≡ fault_count self.old) }
        ensures cause { OnErr result (Rose (fault_count self.old) (fault_count self.new)) };

    /// Takes bytes from the front of the piece, and says how many. To take none of a piece that isn't empty is a fault, and so
    /// is each write to a link that was shut.
    fn write(&mut self, bytes: &[u8]) -> Result<usize, WriteError>
        ensures within { IfOk result (λ n. n ≤ length bytes.now) }
        ensures some { IfOk result (λ n. 0 < length bytes.now → 0 < n) }
        ensures told { IfOk result (λ n. Told (WritesOnce n bytes.now) (written self.old) (written self.new)) }
        ensures refused { OnErr result (written self.new ≡ written self.old) }
        ensures ended { is_shut self.old ≡ true → result ≡ Err write_errors.WriteFault }
        ensures same_ahead { ahead self.new ≡ ahead self.old }
        ensures same_shut { is_shut self.new ≡ is_shut self.old }
        ensures same_number { number_of self.new ≡ number_of self.old }
        ensures later { fault_count self.old ≤ fault_count self.new }
        ensures cause { WriteCause (fault_count self.old) (fault_count self.new) result };

    /// Ends what is written: the other end reads all that was written, and then the end.
    fn shut(&mut self)
        ensures shut { is_shut self.new ≡ true }
        ensures same_ahead { ahead self.new ≡ ahead self.old }
        ensures same_written { written self.new ≡ written self.old }
        ensures same_number { number_of self.new ≡ number_of self.old }
        ensures quiet { fault_count self.new ≡ fault_count self.old };
}

/// Writes all the bytes, by as many writes as it takes. Where a write is refused, those before it stand.
pub fn send_all<K: Link>(link: &mut K, bytes: &[u8]) -> Result<(), WriteError>
    ensures told { OnOk result (Told (WritesAll bytes.now) (K.written link.old) (K.written link.new)) }
    ensures refused { OnErr result (Told (WritesFront bytes.now) (K.written link.old) (K.written link.new)) }
    ensures same_ahead { K.ahead link.new ≡ K.ahead link.old }
    ensures same_shut { K.is_shut link.new ≡ K.is_shut link.old }
    ensures same_number { K.number_of link.new ≡ K.number_of link.old }
    ensures later { K.fault_count link.old ≤ K.fault_count link.new }
    ensures cause { WriteCause (K.fault_count link.old) (K.fault_count link.new) result }
{
    let mut rest = bytes;
    while !rest.is_empty() {
        let n = link.write(rest)?;
        rest = &rest[n..];
    }
    Ok(())
}
