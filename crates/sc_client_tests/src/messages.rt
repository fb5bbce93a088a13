//! A message by itself, and a request that no daemon need serve. They stand here since each crate that drops messages proves how.
use crate::links::discard_reply;
use sc_model::{Request, Response};
use sc_wire::{Framer, decode_request, decode_response, encode_request, encode_response};
use std::alloc::Global;
use std::test::Fail;

/// How a request for statistics is spelled.
const GET_STATS: &[u8] = b"\x01\0\0\0";

/// Drops a request in a call of its own: dropped where it was looked at it takes the check minutes.
fn discard_request(request: Request) {
    drop(request);
}

fn request_is(alloc: Global, request: &Request, expected: &[u8]) -> Result<bool, Fail> {
    let bytes = encode_request(alloc, request)?;
    Ok(bytes.as_slice() == expected)
}

/// Whether a request for statistics is spelled so.
fn spells_request(alloc: Global, expected: &[u8]) -> Result<bool, Fail> {
    let request = Request::GetStats;
    let spelled = request_is(alloc, &request, expected);
    discard_request(request);
    spelled
}

fn is_get_stats(request: &Request) -> bool {
    matches!(request, Request::GetStats)
}

/// Whether this is that request, which is dropped.
fn asks_for_statistics(request: Request) -> bool {
    let asks = is_get_stats(&request);
    discard_request(request);
    asks
}

/// Whether these bytes are read as that request.
fn reads_request(alloc: Global, bytes: &[u8]) -> bool {
    match decode_request(alloc, bytes) {
        Ok(request) => asks_for_statistics(request),
        Err(_) => false,
    }
}

#[test]
fn ample_request(rt: HostRuntime) -> Result<(), Fail> {
    assert!(rt; spells_request(rt.alloc(), GET_STATS)?);
    assert!(rt; reads_request(rt.alloc(), GET_STATS));
    Ok(())
}

/// Whether the next request is that one.
fn comes_next(alloc: Global, framer: &mut Framer) -> bool {
    match framer.next_request(alloc) {
        Ok(Some(request)) => asks_for_statistics(request),
        Ok(None) => false,
        Err(_) => false,
    }
}

fn comes(alloc: Global, framer: &mut Framer, piece: &[u8]) -> Result<bool, Fail> {
    framer.feed(alloc, piece)?;
    Ok(comes_next(alloc, framer))
}

#[test]
fn ample_next_request(rt: HostRuntime) -> Result<(), Fail> {
    let mut framer = Framer::new(rt.alloc(), 8_388_608);
    assert!(rt; comes(rt.alloc(), &mut framer, b"\0\0\0\x04\x01\0\0\0")?);
    Ok(())
}

/// How the answer is spelled that statistics were emptied.
const ZEROED: &[u8] = b"\x01\0\0\0";

fn response_is(alloc: Global, response: &Response, expected: &[u8]) -> Result<bool, Fail> {
    let bytes = encode_response(alloc, response)?;
    Ok(bytes.as_slice() == expected)
}

/// Whether that answer is spelled so.
fn spells_response(alloc: Global, expected: &[u8]) -> Result<bool, Fail> {
    let response = Response::ZeroStats;
    let spelled = response_is(alloc, &response, expected);
    discard_reply(response);
    spelled
}

fn is_zeroed(response: &Response) -> bool {
    matches!(response, Response::ZeroStats)
}

/// Whether this is that answer, which is dropped.
fn tells_zeroed(response: Response) -> bool {
    let tells = is_zeroed(&response);
    discard_reply(response);
    tells
}

/// Whether these bytes are read as that answer.
fn reads_response(alloc: Global, bytes: &[u8]) -> bool {
    match decode_response(alloc, bytes) {
        Ok(response) => tells_zeroed(response),
        Err(_) => false,
    }
}

#[test]
fn ample_response(rt: HostRuntime) -> Result<(), Fail> {
    assert!(rt; spells_response(rt.alloc(), ZEROED)?);
    assert!(rt; reads_response(rt.alloc(), ZEROED));
    Ok(())
}
