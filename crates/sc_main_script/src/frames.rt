//! How a request comes on a connection.
ghost use Rattle.std.specs.Prelude.{◌≡◌, IfOk};
ghost use Rattle.sc_main_script.specs.Frames.{frame_of};

use sc_entry::{ByteText, NoMemory};
use sc_model::Request;
use sc_wire::encode_frame;
use std::alloc::Global;

/// The frame of a request.
///
/// # Errors
///
/// `NoMemory` where there is none for it. A payload that a frame's length can't say takes more memory than any script gives.
#[tactic(auto, unfolding(crate::specs::Frames::frame_of))]
pub fn frame(alloc: Global, request: &Request) -> Result<ByteText, NoMemory>
    ensures { IfOk result (λ bytes. bytes ≡ frame_of request.now) }
{
    match encode_frame(alloc, u32::MAX, request) {
        Ok(bytes) => Ok(ByteText::from_vec(bytes)),
        Err(_) => Err(NoMemory),
    }
}
