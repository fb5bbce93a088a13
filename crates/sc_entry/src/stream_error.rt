ghost use Rattle.std.specs.Prelude.{◌≡◌};
ghost use Rattle.sc_entry.specs.declared.stream_error.ReadError.TheVariants as read_errors;
ghost use Rattle.sc_entry.specs.declared.stream_error.WriteError.TheVariants as write_errors;

use crate::memory::NoMemory;
use std::alloc::{AllocError, AllocFailed};

/// A read was refused; its source counted it.
#[derive(Clone, Copy, Debug, Drop, PartialEq, Eq)]
pub struct ReadFault;

/// Why bytes could not be read.
#[derive(Clone, Copy, Debug, Drop, PartialEq, Eq)]
pub enum ReadError {
    NoMemory,
    /// The source refused; it counted this.
    ReadFault,
}

/// Why bytes could not be written.
#[derive(Clone, Copy, Debug, Drop, PartialEq, Eq)]
pub enum WriteError {
    NoMemory,
    /// The sink refused, or took nothing; it counted this.
    WriteFault,
}

impl From<ReadFault> for ReadError {
    ghost from_gives = { λ _ error. error ≡ read_errors.ReadFault };

    fn from(_: ReadFault) -> ReadError {
        ReadError::ReadFault
    }
}

impl From<NoMemory> for ReadError {
    ghost from_gives = { λ _ error. error ≡ read_errors.NoMemory };

    fn from(_: NoMemory) -> ReadError {
        ReadError::NoMemory
    }
}

impl From<AllocError> for ReadError {
    ghost from_gives = { λ _ error. error ≡ read_errors.NoMemory };

    fn from(_: AllocError) -> ReadError {
        ReadError::NoMemory
    }
}

impl<T: Drop> From<AllocFailed<T>> for ReadError {
    ghost from_gives = { λ _ error. error ≡ read_errors.NoMemory };

    fn from(_: AllocFailed<T>) -> ReadError {
        ReadError::NoMemory
    }
}

impl From<NoMemory> for WriteError {
    ghost from_gives = { λ _ error. error ≡ write_errors.NoMemory };

    fn from(_: NoMemory) -> WriteError {
        WriteError::NoMemory
    }
}

impl From<AllocError> for WriteError {
    ghost from_gives = { λ _ error. error ≡ write_errors.NoMemory };

    fn from(_: AllocError) -> WriteError {
        WriteError::NoMemory
    }
}
