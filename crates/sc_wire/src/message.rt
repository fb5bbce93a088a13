//! Requests and responses, by their own words.
ghost use Rattle.std.specs.Prelude.{◌≡◌, ◌++◌, ◌≤◌, length, IfOk, IfErr, OnErr};
ghost use Rattle.sc_wire.specs.Frames.{frame, FramesAreApart, IsTooLong, SpellsAndReads};
ghost use Rattle.sc_wire.specs.Gives.{Decodes};
ghost use Rattle.sc_wire.specs.Requests.{read_request, spell_request, request as request_codec};
ghost use Rattle.sc_wire.specs.Responses.{payload, read_response, response as response_codec};

use crate::bincode::BincodeCodec;
use crate::error::DecodeError;
use crate::frame::{FrameError, append_frame};
use sc_entry::NoMemory;
use sc_model::{Request, Response};
use std::alloc::Global;

/// The request's spelling.
#[tactic(auto, unfolding(crate::specs::Requests::spell_request))]
pub fn encode_request(alloc: Global, request: &Request) -> Result<Vec<u8>, NoMemory>
    ensures { IfOk result (λ bytes. bytes.items ≡ spell_request request.now) }
{
    BincodeCodec::encode(alloc, request)
}

/// The response's spelling.
#[tactic(auto, unfolding(crate::specs::Responses::payload))]
pub fn encode_response(alloc: Global, response: &Response) -> Result<Vec<u8>, NoMemory>
    ensures { IfOk result (λ bytes. bytes.items ≡ payload response.now) }
{
    BincodeCodec::encode(alloc, response)
}

/// The request that the bytes spell, all of the bytes.
#[tactic(auto, unfolding(crate::specs::Requests::read_request))]
pub fn decode_request(alloc: Global, bytes: &[u8]) -> Result<Request, DecodeError>
    ensures { Decodes result (read_request bytes.now) }
{
    BincodeCodec::decode(alloc, bytes)
}

/// The response that the bytes spell, all of the bytes.
#[tactic(auto, unfolding(crate::specs::Responses::read_response))]
pub fn decode_response(alloc: Global, bytes: &[u8]) -> Result<Response, DecodeError>
    ensures { Decodes result (read_response bytes.now) }
{
    BincodeCodec::decode(alloc, bytes)
}

/// Adds the request's frame at the end, and answers its payload's length. What refuses adds nothing.
#[tactic(auto, unfolding(crate::specs::Requests::spell_request))]
pub fn append_request(
    alloc: Global,
    limit: u32,
    request: &Request,
    out: &mut Vec<u8>,
) -> Result<u32, FrameError>
    ensures framed { IfOk result (λ _. out.new.items ≡ out.old.items ++ frame (spell_request request.now)) }
    ensures length { IfOk result (λ n. n ≡ length (spell_request request.now)) }
    ensures within { IfOk result (λ n. n ≤ limit) }
    ensures too_long { IfErr result (λ error. IsTooLong error limit (spell_request request.now)) }
    ensures err { OnErr result (out.new.items ≡ out.old.items) }
{
    append_frame(alloc, limit, request, out)
}

/// Adds the response's frame at the end, and answers its payload's length. What refuses adds nothing.
#[tactic(auto, unfolding(crate::specs::Responses::payload))]
pub fn append_response(
    alloc: Global,
    limit: u32,
    response: &Response,
    out: &mut Vec<u8>,
) -> Result<u32, FrameError>
    ensures framed { IfOk result (λ _. out.new.items ≡ out.old.items ++ frame (payload response.now)) }
    ensures length { IfOk result (λ n. n ≡ length (payload response.now)) }
    ensures within { IfOk result (λ n. n ≤ limit) }
    ensures too_long { IfErr result (λ error. IsTooLong error limit (payload response.now)) }
    ensures err { OnErr result (out.new.items ≡ out.old.items) }
{
    append_frame(alloc, limit, response, out)
}

/// What a message spells is read as that message and no other, alone and in a frame before any bytes; and no
/// frame begins another.
pub fn messages_are_read()
    ensures requests { SpellsAndReads request_codec }
    ensures responses { SpellsAndReads response_codec }
    ensures apart { FramesAreApart }
{}
