ghost use Rattle.std.specs.Prelude.{◌≡◌, ◌<◌, ◌≤◌, List, ℕ, Option, IfOk, OnOk, OnErr, length};
ghost use Rattle.sc_entry.specs.Causes.{Rose, Told};
ghost use Rattle.sc_entry.specs.Streams.{ReadsOnce, ReadsToEnd, ReadsSome, ReadCause};

use crate::byte_text::ByteText;
use crate::stream_error::{ReadError, ReadFault};
use std::alloc::Global;

/// Something that bytes are read from.
pub trait Source {
    /// The bytes that are left, where it tells them. No call changes whether it tells.
    ghost left: { Self → Option (List ℕ) };

    /// How often it refused.
    ghost fault_count: { Self → ℕ };

    /// How often it refused. The count never falls.
    fn faults(&self) -> u64
        ensures { result ≡ fault_count self.now };

    /// Reads bytes into the front of the buffer, and says how many. Of a buffer that isn't empty, 0 is the end.
    fn read(&mut self, buffer: &mut [u8]) -> Result<usize, ReadFault>
        ensures within { IfOk result (λ n. n ≤ length buffer.new) }
        ensures told { IfOk result (λ n. Told (ReadsOnce n buffer.new) (left self.old) (left self.new)) }
        ensures refused { OnErr result (left self.new ≡ left self.old) }
        ensures later { fault_count self.old ≤ fault_count self.new }
        ensures quiet { OnOk result (fault_count self.new ≡ fault_count self.old) }
        ensures cause { OnErr result (Rose (fault_count self.old) (fault_count self.new)) };
}

/// Reads to the end, or until more than `limit` bytes came, by way of a buffer.
fn read_through<S: Source>(
    alloc: Global,
    source: &mut S,
    limit: usize,
    buffer: &mut [u8],
) -> Result<Vec<u8>, ReadError>
    requires { 0 < length buffer.old }
    ensures told { IfOk result (λ bytes. Told (ReadsToEnd limit bytes.items) (S.left source.old) (S.left source.new)) }
    ensures refused { OnErr result (Told ReadsSome (S.left source.old) (S.left source.new)) }
    ensures later { S.fault_count source.old ≤ S.fault_count source.new }
    ensures cause { ReadCause (S.fault_count source.old) (S.fault_count source.new) result }
{
    let mut bytes = Vec::new(alloc);
    while bytes.len() <= limit {
        let n = source.read(buffer)?;
        if n == 0 {
            return Ok(bytes);
        }
        bytes.extend_from_slice(&buffer[..n])?;
    }
    Ok(bytes)
}

/// Reads a source to its end. A source that has more than `limit` bytes left is read until more than `limit` came, and
/// no further: so more than `limit` bytes are answered exactly where it had more.
pub fn read_to_end<S: Source>(
    alloc: Global,
    source: &mut S,
    limit: usize,
) -> Result<ByteText, ReadError>
    ensures told { IfOk result (λ bytes. Told (ReadsToEnd limit bytes) (S.left source.old) (S.left source.new)) }
    ensures refused { OnErr result (Told ReadsSome (S.left source.old) (S.left source.new)) }
    ensures later { S.fault_count source.old ≤ S.fault_count source.new }
    ensures cause { ReadCause (S.fault_count source.old) (S.fault_count source.new) result }
{
    let mut buffer = vec![in alloc; 0u8; 65536]?;
    let bytes = read_through(alloc, source, limit, &mut buffer)?;
    Ok(ByteText::from_vec(bytes))
}
