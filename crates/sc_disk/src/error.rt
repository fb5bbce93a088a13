ghost use Rattle.std.specs.Prelude.{◌≡◌, Some};
ghost use Rattle.sc_disk.specs.declared.error.Error.TheVariants as errors;
ghost use Rattle.sc_disk.specs.Refusals.{error_of, error_text};

use crate::disk::DiskError;
use sc_entry::NoMemory;
use std::alloc::{AllocError, AllocFailed};
use std::fmt;

/// Why a store of files refused.
#[derive(Clone, Copy, Debug, Drop, PartialEq, Eq)]
pub enum Error {
    NoMemory,
    /// The declared size, or the measured one at a commit, is over the capacity.
    FileTooLarge,
    /// The key isn't indexed.
    FileNotInCache,
    /// The disk failed; it counted this.
    Io,
    /// The size fits, but not beside the open reservations.
    Reserved,
    /// The text is no file key.
    BadKey,
}

impl From<NoMemory> for Error {
    ghost from_gives = { λ _ error. error ≡ errors.NoMemory };

    fn from(_: NoMemory) -> Error {
        Error::NoMemory
    }
}

impl From<AllocError> for Error {
    ghost from_gives = { λ _ error. error ≡ errors.NoMemory };

    fn from(_: AllocError) -> Error {
        Error::NoMemory
    }
}

impl<T: Drop> From<AllocFailed<T>> for Error {
    ghost from_gives = { λ _ error. error ≡ errors.NoMemory };

    fn from(_: AllocFailed<T>) -> Error {
        Error::NoMemory
    }
}

impl From<DiskError> for Error {
    ghost from_gives = { λ refused error. error ≡ error_of refused };

    fn from(refused: DiskError) -> Error {
        match refused {
            DiskError::NoMemory => Error::NoMemory,
            DiskError::Fault => Error::Io,
        }
    }
}

impl fmt::Display for Error {
    ghost output = { λ error. Some (error_text error) };

    fn fmt<W: fmt::Write>(&self, f: &mut fmt::Formatter<W>) -> fmt::Result {
        f.write_str(match self {
            Error::NoMemory => "out of memory",
            Error::FileTooLarge => "File too large",
            Error::FileNotInCache => "File not in cache",
            Error::Io => "disk fault",
            Error::Reserved => "space is reserved",
            Error::BadKey => "bad key",
        })
    }
}

impl std::error::Error for Error {}
