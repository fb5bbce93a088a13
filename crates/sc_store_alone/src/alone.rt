//! What a store that stands alone was answered, as the answer of a call.
ghost use Rattle.std.specs.Prelude.{◌≡◌, IfErr, IfOk};
ghost use Rattle.sc_store_alone.specs.Lookups as lookups;
ghost use Rattle.sc_store_alone.specs.Storages as storages;

use crate::storage_error::StorageError;
use sc_entry::{ByteText, Cache, CacheRead, GetPathResult, NoMemory, ReadEntryError};
use sc_model::{Answer, Written};
use std::alloc::Global;

/// Bytes as the entry that they spell.
pub fn entry_of(alloc: Global, bytes: ByteText) -> Result<Cache, NoMemory>
    requires { lookups.AreSpelled bytes }
    ensures { IfOk result (λ cache. lookups.IsEntry bytes cache) }
{
    match CacheRead::from(alloc, bytes) {
        Ok(entry) => Ok(Cache::Hit(entry)),
        Err(ReadEntryError::NoMemory) => Err(NoMemory),
        Err(ReadEntryError::BadEntry) => unreachable!(),
    }
}

/// What a lookup was answered as an entry. A refusal is the answer.
pub(crate) fn cache_in(alloc: Global, answer: Answer) -> Result<Cache, StorageError>
    requires { storages.HitIsSpelled answer }
    ensures found { IfOk result (λ cache. storages.IsCached answer cache) }
    ensures refused { IfErr result (λ error. storages.IsRefusal error answer) }
{
    match answer {
        Answer::Hit(bytes, _) => {
            let cache = entry_of(alloc, bytes)?;
            Ok(cache)
        }
        Answer::Refused(cause) => Err(StorageError::Refused(cause)),
        Answer::Miss => Ok(Cache::Miss),
        Answer::Found(_) => Ok(Cache::Miss),
        Answer::Size(_, _) => Ok(Cache::Miss),
    }
}

/// What a lookup was answered as the bytes that it found. A refusal is the answer.
pub(crate) fn bytes_in(answer: Answer) -> Result<Option<ByteText>, StorageError>
    ensures found { IfOk result (λ bytes. storages.AreIn answer bytes) }
    ensures refused { IfErr result (λ error. storages.IsRefusal error answer) }
{
    match answer {
        Answer::Hit(bytes, _) => Ok(Some(bytes)),
        Answer::Refused(cause) => Err(StorageError::Refused(cause)),
        Answer::Miss => Ok(None),
        Answer::Found(_) => Ok(None),
        Answer::Size(_, _) => Ok(None),
    }
}

/// An entry, and its bytes.
pub(crate) fn both_in(
    alloc: Global,
    answer: Answer,
) -> Result<(Cache, Option<ByteText>), StorageError>
    requires { storages.HitIsSpelled answer }
    ensures found { IfOk result (λ both. storages.IsCached answer both.0 × storages.AreIn answer both.1) }
    ensures refused { IfErr result (λ error. storages.IsRefusal error answer) }
{
    match answer {
        Answer::Hit(bytes, _) => {
            let cache = entry_of(alloc, bytes.try_clone()?)?;
            Ok((cache, Some(bytes)))
        }
        Answer::Refused(cause) => Err(StorageError::Refused(cause)),
        Answer::Miss => Ok((Cache::Miss, None)),
        Answer::Found(_) => Ok((Cache::Miss, None)),
        Answer::Size(_, _) => Ok((Cache::Miss, None)),
    }
}

/// Where a file stands.
pub(crate) fn path_in(answer: Answer) -> GetPathResult
    ensures { storages.IsPath answer result }
{
    match answer {
        Answer::Found(path) => GetPathResult::Found(path),
        Answer::Hit(_, _) => GetPathResult::Miss,
        Answer::Miss => GetPathResult::Miss,
        Answer::Refused(_) => GetPathResult::Miss,
        Answer::Size(_, _) => GetPathResult::Miss,
    }
}

/// How a put ended.
pub(crate) fn ended(how: Written) -> Result<(), StorageError>
    ensures done { IfOk result (λ _. how ≡ Written.Done) }
    ensures refused { IfErr result (λ error. storages.IsWritten error how) }
{
    match how {
        Written::Done => Ok(()),
        Written::Refused(cause) => Err(StorageError::Refused(cause)),
    }
}
