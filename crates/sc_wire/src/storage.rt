//! What is told of a store and what its calls answer, as they travel.
ghost use Rattle.sc_wire.specs.Storages.{cache_mode, handshake_info, get_path_result};

use crate::error::DecodeError;
use crate::reader::Reader;
use crate::several::{put2, put3};
use crate::wire::Wire;
use sc_entry::{ByteText, CacheMode, GetPathResult, Items, NoMemory, Text};
use sc_model::StorageHandshakeInfo;
use std::alloc::Global;

impl Wire for CacheMode {
    ghost codec = { cache_mode };

    fn take(alloc: Global, reader: &mut Reader) -> Result<CacheMode, DecodeError> {
        match u32::take(alloc, reader)? {
            0 => Ok(CacheMode::ReadOnly),
            1 => Ok(CacheMode::ReadWrite),
            _ => Err(DecodeError::BadFrame),
        }
    }

    fn put(&self, out: &mut Vec<u8>) -> Result<(), NoMemory> {
        match self {
            CacheMode::ReadOnly => 0u32.put(out),
            CacheMode::ReadWrite => 1u32.put(out),
        }
    }
}

impl Wire for StorageHandshakeInfo {
    ghost codec = { handshake_info };

    fn take(alloc: Global, reader: &mut Reader) -> Result<StorageHandshakeInfo, DecodeError> {
        let (location, (cache_type_name, basedirs)): (Text, (Text, Items<ByteText>)) = Wire::take(
            alloc, reader,
        )?;
        let (use_preprocessor_cache_mode, (cache_mode, max_size)): (
            bool,
            (CacheMode, Option<u64>),
        ) = Wire::take(alloc, reader)?;
        Ok(StorageHandshakeInfo {
            location,
            cache_type_name,
            basedirs,
            use_preprocessor_cache_mode,
            cache_mode,
            max_size,
        })
    }

    fn put(&self, out: &mut Vec<u8>) -> Result<(), NoMemory> {
        put3(&self.location, &self.cache_type_name, &self.basedirs, out)?;
        put3(
            &self.use_preprocessor_cache_mode,
            &self.cache_mode,
            &self.max_size,
            out,
        )
    }
}

impl Wire for GetPathResult {
    ghost codec = { get_path_result };

    fn take(alloc: Global, reader: &mut Reader) -> Result<GetPathResult, DecodeError> {
        match u32::take(alloc, reader)? {
            0 => Ok(GetPathResult::Found(Wire::take(alloc, reader)?)),
            1 => Ok(GetPathResult::Miss),
            2 => Ok(GetPathResult::Unsupported),
            _ => Err(DecodeError::BadFrame),
        }
    }

    fn put(&self, out: &mut Vec<u8>) -> Result<(), NoMemory> {
        match self {
            GetPathResult::Found(path) => put2(&0u32, path, out),
            GetPathResult::Miss => 1u32.put(out),
            GetPathResult::Unsupported => 2u32.put(out),
        }
    }
}
