//! Why a call of a store was refused.
ghost use Rattle.std.specs.Prelude.{◌≡◌, ◌++◌, Some, codes};
ghost use Rattle.sc_model.specs.Plan as plans;
ghost use Rattle.sc_store_alone.specs.Storages.{error_text};
ghost use Rattle.sc_store_alone.specs.declared.storage_error.StorageError.TheVariants as errors;

use sc_entry::NoMemory;
use sc_model::{Cause, RemoteFault, Store};
use std::alloc::{AllocError, AllocFailed};
use std::fmt;

/// Why a call of a store was refused.
#[derive(Drop)]
pub enum StorageError {
    NoMemory,
    /// By the store, for this cause.
    Refused(Cause),
    /// By a level that has to be written, for this cause.
    Level(u64, Cause),
    /// An entry was put over no levels.
    NoLevels,
    /// The store doesn't have this call.
    Unsupported,
}

impl From<NoMemory> for StorageError {
    ghost from_gives = { λ _ error. error ≡ errors.NoMemory };

    fn from(_: NoMemory) -> StorageError {
        StorageError::NoMemory
    }
}

impl From<AllocError> for StorageError {
    ghost from_gives = { λ _ error. error ≡ errors.NoMemory };

    fn from(_: AllocError) -> StorageError {
        StorageError::NoMemory
    }
}

impl<T: Drop> From<AllocFailed<T>> for StorageError {
    ghost from_gives = { λ _ error. error ≡ errors.NoMemory };

    fn from(_: AllocFailed<T>) -> StorageError {
        StorageError::NoMemory
    }
}

fn remote_text(fault: RemoteFault) -> &'static str
    ensures { result.now ≡ codes "remote fault: " ++ plans.remote_text fault }
{
    match fault {
        RemoteFault::AlreadyExists => "remote fault: AlreadyExists",
        RemoteFault::RateLimited => "remote fault: RateLimited",
        RemoteFault::Other => "remote fault: Other",
    }
}

/// A cause in words.
#[derive(Drop)]
struct CauseText {
    cause: Cause,
}

impl fmt::Display for CauseText {
    ghost output = { λ text. Some (plans.cause_text text.cause) };

    fn fmt<W: fmt::Write>(&self, f: &mut fmt::Formatter<W>) -> fmt::Result {
        match self.cause {
            Cause::FileTooLarge => f.write_str("File too large"),
            Cause::Io => f.write_str("disk fault"),
            Cause::Reserved => f.write_str("space is reserved"),
            Cause::BadKey => f.write_str("bad key"),
            Cause::BadEntry => f.write_str("Failed to parse cache entry"),
            Cause::ReadOnly(Store::Disk) => f.write_str("Cannot write to a read-only cache"),
            Cause::ReadOnly(Store::Remote) => f.write_str("storage is read-only"),
            Cause::ReadOnly(Store::Wrapper) => f.write_str("Cannot write to read-only storage"),
            Cause::RemoteFault(fault) => f.write_str(remote_text(fault)),
            Cause::NotOpen(number) => write!(f, "entry {} is not open", number),
        }
    }
}

impl fmt::Display for StorageError {
    ghost output = { λ error. Some (error_text error) };

    fn fmt<W: fmt::Write>(&self, f: &mut fmt::Formatter<W>) -> fmt::Result {
        match self {
            StorageError::NoMemory => f.write_str("out of memory"),
            StorageError::Refused(cause) => write!(f, "{}", CauseText { cause: *cause }),
            StorageError::Level(level, cause) => {
                let text = CauseText { cause: *cause };
                write!(f, "Failed to write to cache level {}: {}", level, text)
            }
            StorageError::NoLevels => f.write_str("No cache levels configured"),
            StorageError::Unsupported => {
                f.write_str("put_raw not implemented for this storage backend")
            }
        }
    }
}

impl fmt::Debug for StorageError {
    fn fmt<W: fmt::Write>(&self, f: &mut fmt::Formatter<W>) -> fmt::Result {
        write!(f, "{}", self)
    }
}

impl std::error::Error for StorageError {}
