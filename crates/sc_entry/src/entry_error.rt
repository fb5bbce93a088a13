ghost use Rattle.std.specs.Prelude.{◌≡◌};
ghost use Rattle.sc_entry.specs.declared.entry_error.PutError.TheVariants as put_errors;
ghost use Rattle.sc_entry.specs.declared.entry_error.ReadEntryError.TheVariants as read_errors;
ghost use Rattle.sc_entry.specs.declared.entry_error.GetError.TheVariants as get_errors;
ghost use Rattle.sc_entry.specs.EntryAnswers.{get_error_of};

use crate::memory::NoMemory;
use crate::stream_error::WriteError;
use std::alloc::{AllocError, AllocFailed};

/// A required object isn't in an entry.
#[derive(Clone, Copy, Debug, Drop, PartialEq, Eq)]
pub struct DecompressionFailure;

/// Why an object isn't put into an entry.
#[derive(Clone, Copy, Debug, Drop, PartialEq, Eq)]
pub enum PutError {
    NoMemory,
    /// An object of this name is there.
    NameTaken,
    /// The name is empty, or over 65,535 bytes long.
    BadName,
    /// 65,535 objects are there.
    TooManyObjects,
}

/// Why bytes aren't read as an entry.
#[derive(Clone, Copy, Debug, Drop, PartialEq, Eq)]
pub enum ReadEntryError {
    NoMemory,
    /// They spell no list of objects.
    BadEntry,
}

/// Why an object isn't written to a sink.
#[derive(Clone, Copy, Debug, Drop, PartialEq, Eq)]
pub enum GetError {
    NoMemory,
    /// The entry has no object of this name.
    DecompressionFailure,
    /// The sink refused; it counted this.
    WriteFault,
}

impl From<NoMemory> for PutError {
    ghost from_gives = { λ _ error. error ≡ put_errors.NoMemory };

    fn from(_: NoMemory) -> PutError {
        PutError::NoMemory
    }
}

impl From<AllocError> for PutError {
    ghost from_gives = { λ _ error. error ≡ put_errors.NoMemory };

    fn from(_: AllocError) -> PutError {
        PutError::NoMemory
    }
}

impl From<NoMemory> for ReadEntryError {
    ghost from_gives = { λ _ error. error ≡ read_errors.NoMemory };

    fn from(_: NoMemory) -> ReadEntryError {
        ReadEntryError::NoMemory
    }
}

impl From<AllocError> for ReadEntryError {
    ghost from_gives = { λ _ error. error ≡ read_errors.NoMemory };

    fn from(_: AllocError) -> ReadEntryError {
        ReadEntryError::NoMemory
    }
}

impl<T: Drop> From<AllocFailed<T>> for ReadEntryError {
    ghost from_gives = { λ _ error. error ≡ read_errors.NoMemory };

    fn from(_: AllocFailed<T>) -> ReadEntryError {
        ReadEntryError::NoMemory
    }
}

impl From<DecompressionFailure> for GetError {
    ghost from_gives = { λ _ error. error ≡ get_errors.DecompressionFailure };

    fn from(_: DecompressionFailure) -> GetError {
        GetError::DecompressionFailure
    }
}

impl From<WriteError> for GetError {
    ghost from_gives = { λ refused error. error ≡ get_error_of refused };

    fn from(refused: WriteError) -> GetError {
        match refused {
            WriteError::NoMemory => GetError::NoMemory,
            WriteError::WriteFault => GetError::WriteFault,
        }
    }
}
