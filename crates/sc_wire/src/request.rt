//! Requests, as they travel.
ghost use Rattle.sc_wire.specs.Requests.{request};

use crate::error::DecodeError;
use crate::reader::Reader;
use crate::several::{put2, put3};
use crate::wire::Wire;
use sc_entry::NoMemory;
use sc_model::Request;
use std::alloc::Global;

impl Wire for Request {
    ghost codec = { request };

    fn take(alloc: Global, reader: &mut Reader) -> Result<Request, DecodeError> {
        match u32::take(alloc, reader)? {
            0 => Ok(Request::ZeroStats),
            1 => Ok(Request::GetStats),
            2 => Ok(Request::DistStatus),
            3 => Ok(Request::Shutdown),
            4 => Ok(Request::Compile(Wire::take(alloc, reader)?)),
            5 => Ok(Request::StorageHandshake),
            6 => Ok(Request::StorageGetPath(Wire::take(alloc, reader)?)),
            7 => Ok(Request::StorageGetRaw(Wire::take(alloc, reader)?)),
            8 => Ok(Request::StoragePutRaw(Wire::take(alloc, reader)?, Wire::take(alloc, reader)?)),
            9 => Ok(Request::StorageGetPreprocessorEntry(Wire::take(alloc, reader)?)),
            10 => Ok(Request::StoragePutPreprocessorEntry(
                Wire::take(alloc, reader)?,
                Wire::take(alloc, reader)?,
            )),
            11 => Ok(Request::RecordStats(Wire::take(alloc, reader)?)),
            _ => Err(DecodeError::BadFrame),
        }
    }

    fn put(&self, out: &mut Vec<u8>) -> Result<(), NoMemory> {
        match self {
            Request::ZeroStats => 0u32.put(out),
            Request::GetStats => 1u32.put(out),
            Request::DistStatus => 2u32.put(out),
            Request::Shutdown => 3u32.put(out),
            Request::Compile(compile) => put2(&4u32, compile, out),
            Request::StorageHandshake => 5u32.put(out),
            Request::StorageGetPath(key) => put2(&6u32, key, out),
            Request::StorageGetRaw(key) => put2(&7u32, key, out),
            Request::StoragePutRaw(key, bytes) => put3(&8u32, key, bytes, out),
            Request::StorageGetPreprocessorEntry(key) => put2(&9u32, key, out),
            Request::StoragePutPreprocessorEntry(key, bytes) => put3(&10u32, key, bytes, out),
            Request::RecordStats(delta) => put2(&11u32, delta, out),
        }
    }
}
