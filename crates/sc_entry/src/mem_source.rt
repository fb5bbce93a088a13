ghost use Rattle.std.specs.Prelude.{◌≡◌, ◌≤◌, ℕ, min, List, Option, Some, IfOk, OnOk, OnErr, is_err, length, drop};
ghost use Rattle.sc_entry.specs.Causes.{Rose, Told};
ghost use Rattle.sc_entry.specs.Streams.{ReadsOnce};
ghost use Rattle.sc_entry.specs.Failing.{fails_at, one_more};

use crate::byte_text::ByteText;
use crate::calls::Calls;
use crate::source::Source;
use crate::stream_error::ReadFault;

/// A source in memory. It refuses the reads whose numbers are to fail, and no others.
#[derive(Drop)]
pub struct MemSource {
    bytes: ByteText,
    place: usize,
    calls: Calls,
    pub ghost within: { place ≤ length bytes },
}

impl MemSource {
    /// All the bytes are left.
    pub fn new(bytes: ByteText, calls: Calls) -> MemSource
        ensures left { drop result.place result.bytes ≡ bytes }
        ensures calls { result.calls ≡ calls }
    {
        MemSource {
            bytes,
            place: 0,
            calls,
        }
    }
}

impl Source for MemSource {
    ghost left = { λ s. Some (drop s.place s.bytes) };

    ghost fault_count = { λ s. s.calls.faults };

    fn faults(&self) -> u64 {
        self.calls.faults()
    }

    fn read(&mut self, buffer: &mut [u8]) -> Result<usize, ReadFault>
        ensures within { IfOk result (λ n. n ≤ length buffer.new) }
        ensures told { IfOk result (λ n. Told (ReadsOnce n buffer.new) (Some (drop self.old.place self.old.bytes)) (Some (drop self.new.place self.new.bytes))) }
        ensures refused { OnErr result (◌≡◌ {A = Option (List ℕ)} (Some (drop self.new.place self.new.bytes)) (Some (drop self.old.place self.old.bytes))) }
        ensures later { self.old.calls.faults ≤ self.new.calls.faults }
        ensures quiet { OnOk result (self.new.calls.faults ≡ self.old.calls.faults) }
        ensures cause { OnErr result (Rose self.old.calls.faults self.new.calls.faults) }

        // It refuses exactly the listed calls, and fills as much of the buffer as it can.
        ensures made { self.new.calls.made ≡ one_more self.old.calls.made }
        ensures listed { is_err result ≡ fails_at self.old.calls self.new.calls.made }
        ensures most { IfOk result (λ n. n ≡ min (length (drop self.old.place self.old.bytes)) (length buffer.new)) }
    {
        if self.calls.fails_next() {
            return Err(ReadFault);
        }
        let rest = &self.bytes.as_slice()[self.place..];
        let n = rest.len().min(buffer.len());
        buffer[..n].copy_from_slice(&rest[..n]);
        self.place += n;
        Ok(n)
    }
}
