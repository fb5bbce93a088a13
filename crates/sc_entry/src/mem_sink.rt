ghost use Rattle.std.specs.Prelude.{◌≡◌, ◌<◌, ◌≤◌, ◌↔◌, ℕ, true, List, [], Option, Some, Err, IfOk, OnErr, length};
ghost use Rattle.sc_entry.specs.Causes.{Told};
ghost use Rattle.sc_entry.specs.Streams.{WritesOnce, WriteCause};
ghost use Rattle.sc_entry.specs.Failing.{fails_at, one_more};
ghost use Rattle.sc_entry.specs.declared.stream_error.WriteError.TheVariants as write_errors;

use crate::byte_text::ByteText;
use crate::calls::Calls;
use crate::sink::Sink;
use crate::stream_error::WriteError;
use std::alloc::Global;

/// A sink in memory. It takes each piece whole, and refuses the writes whose numbers are to fail, and no others.
#[derive(Drop)]
pub struct MemSink {
    bytes: ByteText,
    calls: Calls,
}

impl MemSink {
    /// Nothing was written yet.
    pub fn new(alloc: Global, calls: Calls) -> MemSink
        ensures written { result.bytes ≡ [] }
        ensures calls { result.calls ≡ calls }
    {
        MemSink {
            bytes: ByteText::new(alloc),
            calls,
        }
    }

    /// What was written.
    pub fn as_slice(&self) -> &[u8]
        ensures { result.now ≡ self.now.bytes }
    {
        self.bytes.as_slice()
    }

    /// What was written, given back without a copy.
    pub fn into_bytes(self) -> ByteText
        ensures { result ≡ self.bytes }
    {
        self.bytes
    }
}

impl Sink for MemSink {
    ghost written = { λ s. Some s.bytes };

    ghost fault_count = { λ s. s.calls.faults };

    fn faults(&self) -> u64 {
        self.calls.faults()
    }

    fn write(&mut self, bytes: &[u8]) -> Result<usize, WriteError>
        ensures within { IfOk result (λ n. n ≤ length bytes.now) }
        ensures some { IfOk result (λ n. 0 < length bytes.now → 0 < n) }
        ensures told { IfOk result (λ n. Told (WritesOnce n bytes.now) (Some self.old.bytes) (Some self.new.bytes)) }
        ensures refused { OnErr result (◌≡◌ {A = Option (List ℕ)} (Some self.new.bytes) (Some self.old.bytes)) }
        ensures later { self.old.calls.faults ≤ self.new.calls.faults }
        ensures cause { WriteCause self.old.calls.faults self.new.calls.faults result }

        // It refuses exactly the listed calls, and takes each other piece whole.
        ensures made { self.new.calls.made ≡ one_more self.old.calls.made }
        ensures listed { (result ≡ Err write_errors.WriteFault) ↔ (fails_at self.old.calls self.new.calls.made ≡ true) }
        ensures whole { IfOk result (λ n. n ≡ length bytes.now) }
    {
        if self.calls.fails_next() {
            return Err(WriteError::WriteFault);
        }
        self.bytes.append(bytes)?;
        Ok(bytes.len())
    }
}
