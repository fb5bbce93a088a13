ghost use Rattle.std.specs.Prelude.{◌≡◌, ◌<◌, ◌≤◌, ◌↔◌, ◌||◌, ℕ, true, false, min, List, [], Option, Some, Err, IfOk, OnOk, OnErr, is_err, length, drop};
ghost use Rattle.sc_entry.specs.Causes.{Rose, Told};
ghost use Rattle.sc_entry.specs.Failing.{fails_at, one_more};
ghost use Rattle.sc_entry.specs.Streams.{ReadsOnce, WritesOnce, WriteCause};
ghost use Rattle.sc_entry.specs.declared.stream_error.WriteError.TheVariants as write_errors;

use crate::link::Link;
use sc_entry::{ByteText, Calls, ReadFault, WriteError};
use std::alloc::Global;

/// A link in memory: its bytes come, and then the end. It takes each piece whole. It refuses the reads and writes whose
/// numbers are to fail, counted together, and each write after it was shut, and no others.
#[derive(Drop)]
pub struct MemLink {
    bytes: ByteText,
    place: usize,
    written: ByteText,
    is_shut: bool,
    number: u64,
    calls: Calls,
    pub ghost within: { place ≤ length bytes },
}

impl MemLink {
    ghost use Rattle.sc_link.specs.Numbers.{numbered};

    /// All the bytes are ahead, and nothing was written yet. No acceptor gave it.
    pub fn new(alloc: Global, bytes: ByteText, calls: Calls) -> MemLink
        ensures ahead { drop result.place result.bytes ≡ bytes }
        ensures written { result.written ≡ [] }
        ensures shut { result.is_shut ≡ false }
        ensures number { result.number ≡ 0 }
        ensures calls { result.calls ≡ calls }
    {
        MemLink {
            bytes,
            place: 0,
            written: ByteText::new(alloc),
            is_shut: false,
            number: 0,
            calls,
        }
    }

    /// What was written.
    pub fn written(&self) -> &[u8]
        ensures { result.now ≡ self.now.written }
    {
        self.written.as_slice()
    }

    /// What was written, given back without a copy.
    pub fn into_written(self) -> ByteText
        ensures { result ≡ self.written }
    {
        self.written
    }

    /// Whether it was shut.
    pub fn is_shut(&self) -> bool
        ensures { result ≡ self.now.is_shut }
    {
        self.is_shut
    }

    /// The same link, with a number.
    pub(crate) fn numbered(mut self, number: u64) -> MemLink
        ensures { result ≡ numbered number self }
    {
        self.number = number;
        self
    }
}

impl Link for MemLink {
    ghost ahead = { λ k. Some (drop k.place k.bytes) };

    ghost written = { λ k. Some k.written };

    ghost is_shut = { λ k. k.is_shut };

    ghost number_of = { λ k. k.number };

    ghost fault_count = { λ k. k.calls.faults };

    fn faults(&self) -> u64 {
        self.calls.faults()
    }

    fn number(&self) -> u64 {
        self.number
    }

    fn read(&mut self, buffer: &mut [u8]) -> Result<usize, ReadFault>
        ensures within { IfOk result (λ n. n ≤ length buffer.new) }
        ensures told { IfOk result (λ n. Told (ReadsOnce n buffer.new) (Some (drop self.old.place self.old.bytes)) (Some (drop self.new.place self.new.bytes))) }
        ensures refused { OnErr result (◌≡◌ {A = Option (List ℕ)} (Some (drop self.new.place self.new.bytes)) (Some (drop self.old.place self.old.bytes))) }
        ensures same_written { ◌≡◌ {A = Option (List ℕ)} (Some self.new.written) (Some self.old.written) }
        ensures same_shut { self.new.is_shut ≡ self.old.is_shut }
        ensures same_number { self.new.number ≡ self.old.number }
        ensures later { self.old.calls.faults ≤ self.new.calls.faults }
        ensures quiet { OnOk result (self.new.calls.faults ≡ self.old.calls.faults) }
        ensures cause { OnErr result (Rose self.old.calls.faults self.new.calls.faults) }

        // It refuses exactly the listed calls, and fills as much of the buffer as it can.
        ensures made { self.new.calls.made ≡ one_more self.old.calls.made }
        ensures failing { (number : ℕ) → fails_at self.new.calls number ≡ fails_at self.old.calls number }
        ensures listed { is_err result ≡ fails_at self.old.calls self.new.calls.made }
        ensures most { IfOk result (λ n. n ≡ min (length (drop self.old.place self.old.bytes)) (length buffer.new)) }
    {
        if self.calls.fails_next() {
            return Err(ReadFault);
        }
        let rest = &self.bytes.as_slice()[self.place..];
        let n = rest.len().min(buffer.len());
        buffer[..n].copy_from_slice(&rest[..n]);
        self.place += n;
        Ok(n)
    }

    fn write(&mut self, bytes: &[u8]) -> Result<usize, WriteError>
        ensures within { IfOk result (λ n. n ≤ length bytes.now) }
        ensures some { IfOk result (λ n. 0 < length bytes.now → 0 < n) }
        ensures told { IfOk result (λ n. Told (WritesOnce n bytes.now) (Some self.old.written) (Some self.new.written)) }
        ensures refused { OnErr result (◌≡◌ {A = Option (List ℕ)} (Some self.new.written) (Some self.old.written)) }
        ensures ended { self.old.is_shut ≡ true → result ≡ Err write_errors.WriteFault }
        ensures same_ahead { ◌≡◌ {A = Option (List ℕ)} (Some (drop self.new.place self.new.bytes)) (Some (drop self.old.place self.old.bytes)) }
        ensures same_shut { self.new.is_shut ≡ self.old.is_shut }
        ensures same_number { self.new.number ≡ self.old.number }
        ensures later { self.old.calls.faults ≤ self.new.calls.faults }
        ensures cause { WriteCause self.old.calls.faults self.new.calls.faults result }

        // It refuses exactly the listed calls and those after it was shut, and takes each other piece whole.
        ensures made { self.new.calls.made ≡ one_more self.old.calls.made }
        ensures failing { (number : ℕ) → fails_at self.new.calls number ≡ fails_at self.old.calls number }
        ensures listed { (result ≡ Err write_errors.WriteFault) ↔ (fails_at self.old.calls self.new.calls.made || self.old.is_shut ≡ true) }
        ensures whole { IfOk result (λ n. n ≡ length bytes.now) }
    {
        if self.calls.fails_next() {
            return Err(WriteError::WriteFault);
        }
        if self.is_shut {
            self.calls.refuse();
            return Err(WriteError::WriteFault);
        }
        self.written.append(bytes)?;
        Ok(bytes.len())
    }

    fn shut(&mut self)
        ensures { self.new ≡ record self.old { is_shut = true } }
    {
        self.is_shut = true;
    }
}
