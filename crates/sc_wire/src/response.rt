//! Responses, as they travel.
ghost use Rattle.sc_wire.specs.Responses.{response};

use crate::error::DecodeError;
use crate::reader::Reader;
use crate::several::put2;
use crate::wire::Wire;
use sc_entry::NoMemory;
use sc_model::Response;
use std::alloc::Global;

impl Wire for Response {
    ghost codec = { response };

    fn take(alloc: Global, reader: &mut Reader) -> Result<Response, DecodeError> {
        match u32::take(alloc, reader)? {
            0 => Ok(Response::Compile(Wire::take(alloc, reader)?)),
            1 => Ok(Response::ZeroStats),
            2 => Ok(Response::Stats(Wire::take(alloc, reader)?)),
            3 => Ok(Response::DistStatus(Wire::take(alloc, reader)?)),
            4 => Ok(Response::ShuttingDown(Wire::take(alloc, reader)?)),
            5 => Ok(Response::CompileFinished(Wire::take(alloc, reader)?)),
            6 => Ok(Response::StorageHandshake(Wire::take(alloc, reader)?)),
            7 => Ok(Response::StorageGetPath(Wire::take(alloc, reader)?)),
            8 => Ok(Response::StorageGetRaw(Wire::take(alloc, reader)?)),
            9 => Ok(Response::StoragePutRaw(Wire::take(alloc, reader)?)),
            10 => Ok(Response::StorageGetPreprocessorEntry(Wire::take(alloc, reader)?)),
            11 => Ok(Response::StoragePutPreprocessorEntry(Wire::take(alloc, reader)?)),
            12 => Ok(Response::RecordStats),
            13 => Ok(Response::ArtifactNotification(Wire::take(alloc, reader)?)),
            _ => Err(DecodeError::BadFrame),
        }
    }

    fn put(&self, out: &mut Vec<u8>) -> Result<(), NoMemory> {
        match self {
            Response::Compile(answer) => put2(&0u32, answer, out),
            Response::ZeroStats => 1u32.put(out),
            Response::Stats(info) => put2(&2u32, info, out),
            Response::DistStatus(info) => put2(&3u32, info, out),
            Response::ShuttingDown(info) => put2(&4u32, info, out),
            Response::CompileFinished(done) => put2(&5u32, done, out),
            Response::StorageHandshake(info) => put2(&6u32, info, out),
            Response::StorageGetPath(path) => put2(&7u32, path, out),
            Response::StorageGetRaw(bytes) => put2(&8u32, bytes, out),
            Response::StoragePutRaw(done) => put2(&9u32, done, out),
            Response::StorageGetPreprocessorEntry(entry) => put2(&10u32, entry, out),
            Response::StoragePutPreprocessorEntry(done) => put2(&11u32, done, out),
            Response::RecordStats => 12u32.put(out),
            Response::ArtifactNotification(bytes) => put2(&13u32, bytes, out),
        }
    }
}
