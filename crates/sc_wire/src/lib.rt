//! What goes over a connection: how each message is spelled as bytes and read again, and how frames are cut out
//! of bytes that come in any pieces.
#![tactic(auto)]

mod bincode;
mod compile;
mod containers;
mod counts;
mod error;
mod frame;
mod framer;
mod message;
mod primitives;
mod reader;
mod request;
mod response;
mod several;
mod statistics;
mod storage;
mod wire;

pub use bincode::BincodeCodec;
pub use error::DecodeError;
pub use frame::{FrameError, append_frame, encode_frame};
pub use framer::{Framer, any_cutting};
pub use message::{
    append_request, append_response, decode_request, decode_response, encode_request,
    encode_response, messages_are_read,
};
pub use reader::Reader;
pub use sc_entry::{CacheMode, GetPathResult};
pub use sc_model::{
    ColorMode, Compile, CompileFinished, CompileResponse, Request, Response, StorageHandshakeInfo,
    Variable,
};
pub use several::{put2, put3, put4, put5};
pub use wire::Wire;
