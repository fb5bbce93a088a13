//! What a child writes, read by a thread of its own, so that the child never waits for a reader.
ghost use Rattle.std.specs.Prelude.{◌≡◌, ◌≤◌, None, length};

use sc_entry::{ByteText, ReadError, ReadFault, Source};
use std::alloc::Global;
use std::io::Read;
use std::thread::{JoinHandle, Threads};
use std::{io, thread};

/// A stream that a thread reads to its end. The first read waits for that end.
#[derive(Drop)]
pub struct Drained<R: Threads + Drop> {
    rt: R,
    reader: Option<JoinHandle<Result<ByteText, ReadError>>>,
    bytes: ByteText,
    place: usize,
    /// Whether the stream could not be read.
    is_broken: bool,
    faults: u64,
    pub ghost within: { place ≤ length bytes },
}

/// Reads a stream to its end.
fn read_all<S: Read + Drop>(alloc: Global, mut stream: S) -> Result<ByteText, ReadError> {
    let mut bytes = Vec::new(alloc);
    match stream.read_to_end(&mut bytes) {
        Ok(_) => Ok(ByteText::from_vec(bytes)),
        Err(error) if error.kind() == io::ErrorKind::OutOfMemory => Err(ReadError::NoMemory),
        Err(_) => Err(ReadError::ReadFault),
    }
}

impl<R: Threads + Copy + Drop> Drained<R> {
    /// Starts the thread that reads a stream. None where no thread can be made.
    pub(crate) fn start<S: Read + Send + Drop + 'static>(
        rt: R,
        alloc: Global,
        stream: S,
    ) -> Option<Drained<R>> {
        let reader = thread::spawn(&rt, move || read_all(alloc, stream)).ok()?;
        Some(Drained {
            rt,
            reader: Some(reader),
            bytes: ByteText::new(alloc),
            place: 0,
            is_broken: false,
            faults: 0,
        })
    }

    /// Waits for the end of the stream, and gives all of it.
    pub(crate) fn into_bytes(self) -> Result<ByteText, ReadError> {
        let Drained {
            rt,
            reader,
            bytes,
            ..
        } = self;
        match reader {
            Some(reader) => reader.join(&rt),
            None => Ok(bytes),
        }
    }

    /// Waits for the end of the stream, once.
    fn collect(&mut self)
        ensures { self.new.faults ≡ self.old.faults }
    {
        let Some(reader) = self.reader.take() else {
            return;
        };
        match reader.join(&self.rt) {
            Ok(bytes) => {
                self.bytes = bytes;
                self.place = 0;
            }
            Err(_) => self.is_broken = true,
        }
    }
}

impl<R: Threads + Copy + Drop> Source for Drained<R> {
    ghost left = { λ _. None };

    ghost fault_count = { λ s. s.faults };

    fn faults(&self) -> u64 {
        self.faults
    }

    fn read(&mut self, buffer: &mut [u8]) -> Result<usize, ReadFault> {
        self.collect();
        if self.is_broken {
            self.faults = self.faults.saturating_add(1);
            return Err(ReadFault);
        }
        let rest = &self.bytes.as_slice()[self.place..];
        let n = rest.len().min(buffer.len());
        buffer[..n].copy_from_slice(&rest[..n]);
        self.place += n;
        Ok(n)
    }
}
