ghost use Rattle.std.specs.Prelude.{◌≡◌};
ghost use Rattle.sc_entry.specs.declared.file_error.FileError.TheVariants as file_errors;

use crate::memory::NoMemory;
use std::alloc::{AllocError, AllocFailed};

/// Why a file isn't read or placed.
#[derive(Clone, Copy, Debug, Drop, PartialEq, Eq)]
pub enum FileError {
    NoMemory,
    /// The files refused; they counted this.
    FileFault,
}

impl From<NoMemory> for FileError {
    ghost from_gives = { λ _ error. error ≡ file_errors.NoMemory };

    fn from(_: NoMemory) -> FileError {
        FileError::NoMemory
    }
}

impl From<AllocError> for FileError {
    ghost from_gives = { λ _ error. error ≡ file_errors.NoMemory };

    fn from(_: AllocError) -> FileError {
        FileError::NoMemory
    }
}

impl<T: Drop> From<AllocFailed<T>> for FileError {
    ghost from_gives = { λ _ error. error ≡ file_errors.NoMemory };

    fn from(_: AllocFailed<T>) -> FileError {
        FileError::NoMemory
    }
}
