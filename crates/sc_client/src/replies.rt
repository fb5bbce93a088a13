//! Frames out and replies in, over the parts of a connection.
ghost use Rattle.std.specs.Prelude.{◌≡◌, ◌≤◌, ◌<◌, length};
ghost use Rattle.sc_client.specs.Conversations.{CountedBy, HearsBy, IsReading, SendsBy, held};

use crate::request_error::RequestError;
use sc_link::{Link, send_all};
use sc_wire::{Framer, Response};
use std::alloc::Global;

/// Takes the first reply of what is held or comes. It reads until that is whole, and no further than the buffer's end.
pub(crate) fn next_reply<K: Link>(
    alloc: Global,
    link: &mut K,
    framer: &mut Framer,
    buffer: &mut [u8],
) -> Result<Response, RequestError>
    requires limit { framer.old.limit ≡ 16777216 }
    requires room { 0 < length buffer.old }
    ensures limit { framer.new.limit ≡ 16777216 }
    ensures heard { HearsBy (held framer.old.rest (K.ahead link.old)) result (held framer.new.rest (K.ahead link.new)) }
    ensures reading { IsReading result }
    ensures written { K.written link.new ≡ K.written link.old }
    ensures later { K.fault_count link.old ≤ K.fault_count link.new }
    ensures counted { CountedBy result (K.fault_count link.old) (K.fault_count link.new) }
{
    loop {
        if let Some(reply) = framer.next_message::<Response>(alloc)? {
            return Ok(reply);
        }
        let n = link.read(buffer)?;
        if n == 0 {
            return Err(RequestError::EndOfStream);
        }
        framer.feed(alloc, &buffer[..n])?;
    }
}

/// Writes a frame, and takes the first reply.
pub(crate) fn exchange<K: Link>(
    alloc: Global,
    link: &mut K,
    framer: &mut Framer,
    buffer: &mut [u8],
    frame: &[u8],
) -> Result<Response, RequestError>
    requires limit { framer.old.limit ≡ 16777216 }
    requires room { 0 < length buffer.old }
    ensures limit { framer.new.limit ≡ 16777216 }
    ensures sent { SendsBy frame.now result (K.written link.old) (K.written link.new) }
    ensures heard { HearsBy (held framer.old.rest (K.ahead link.old)) result (held framer.new.rest (K.ahead link.new)) }
    ensures later { K.fault_count link.old ≤ K.fault_count link.new }
    ensures counted { CountedBy result (K.fault_count link.old) (K.fault_count link.new) }
{
    send_all(link, frame)?;
    let reply = next_reply(alloc, link, framer, buffer)?;
    Ok(reply)
}
