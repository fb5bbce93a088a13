//! Links, replies and requests for tests.
ghost use Rattle.std.specs.Prelude.{◌≡◌};

use sc_client::ServerConnection;
use sc_entry::{ByteText, Calls, Items, NoMemory, ReadFault, WriteError};
use sc_link::{Link, MemLink};
use sc_model::Response;
use sc_wire::append_response;
use std::alloc::Global;
use std::test::Fail;

/// The frames of a compile that was started, and of counters that were emptied.
pub(crate) const STARTED: &[u8] = b"\x00\x00\x00\x08\x00\x00\x00\x00\x00\x00\x00\x00";

pub(crate) const ZEROED: &[u8] = b"\x00\x00\x00\x04\x01\x00\x00\x00";

/// The frame of a compile that ended with the code 0 and printed `hi`.
pub(crate) const FINISHED: &[u8] =
    b"\x00\x00\x00\x20\x05\x00\x00\x00\x01\x00\x00\x00\x00\x00\x02\x00\x00\x00\x00\x00\x00\x00hi\x00\x00\x00\x00\x00\x00\x00\x00\x02\x00\x00\x00";

/// A link that gives a byte at a time.
#[derive(Drop)]
pub(crate) struct OneByOne<K: Link> {
    link: K,
}

impl<K: Link> Link for OneByOne<K> {
    ghost ahead = { λ k. K.ahead k.link };

    ghost written = { λ k. K.written k.link };

    ghost is_shut = { λ k. K.is_shut k.link };

    ghost number_of = { λ k. K.number_of k.link };

    ghost fault_count = { λ k. K.fault_count k.link };

    fn faults(&self) -> u64 {
        self.link.faults()
    }

    fn number(&self) -> u64 {
        self.link.number()
    }

    fn read(&mut self, buffer: &mut [u8]) -> Result<usize, ReadFault> {
        let [first, ..] = buffer else {
            return self.link.read(buffer);
        };
        let mut one = [*first];
        let n = self.link.read(&mut one)?;
        *first = one[0];
        Ok(n)
    }

    fn write(&mut self, bytes: &[u8]) -> Result<usize, WriteError> {
        self.link.write(bytes)
    }

    fn shut(&mut self) {
        self.link.shut();
    }
}

/// These bytes come, and then the end; the calls of these numbers are refused.
pub(crate) fn failing_link(
    alloc: Global,
    bytes: &[u8],
    numbers: &[u64],
) -> Result<MemLink, NoMemory> {
    let numbers = Items::from_vec(numbers.to_vec(alloc)?);
    let calls = Calls::failing_at(alloc, numbers)?;
    let bytes = ByteText::from_slice(alloc, bytes)?;
    Ok(MemLink::new(alloc, bytes, calls))
}

/// These bytes come, and then the end.
pub(crate) fn link(alloc: Global, bytes: &[u8]) -> Result<MemLink, NoMemory> {
    failing_link(alloc, bytes, &[])
}

pub(crate) fn connected(
    alloc: Global,
    bytes: &[u8],
) -> Result<ServerConnection<MemLink>, NoMemory> {
    ServerConnection::new(alloc, link(alloc, bytes)?)
}

/// The same, a byte at a time.
pub(crate) fn dribbling(
    alloc: Global,
    bytes: &[u8],
) -> Result<ServerConnection<OneByOne<MemLink>>, NoMemory> {
    let link = link(alloc, bytes)?;
    ServerConnection::new(alloc, OneByOne { link })
}

/// A reply's frame behind those before.
pub(crate) fn add_reply(alloc: Global, frames: &mut Vec<u8>, reply: &Response) -> Result<(), Fail> {
    append_response(alloc, u32::MAX, reply, frames)?;
    Ok(())
}

/// Drops a reply in a call of its own: dropped at the end of a branch it takes the check minutes.
pub(crate) fn discard_reply(reply: Response) {
    drop(reply);
}

/// Adds a reply that is needed no more.
pub(crate) fn add_owned(alloc: Global, frames: &mut Vec<u8>, reply: Response) -> Result<(), Fail> {
    let added = add_reply(alloc, frames, &reply);
    discard_reply(reply);
    added
}
