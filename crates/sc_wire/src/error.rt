ghost use Rattle.std.specs.Prelude.{◌≡◌};
ghost use Rattle.sc_wire.specs.declared.error.DecodeError.TheVariants as errors;

use std::alloc::{AllocError, AllocFailed};

/// Why bytes could not be read.
#[derive(Clone, Copy, Debug, Drop, PartialEq, Eq)]
pub enum DecodeError {
    NoMemory,
    BadFrame,
}

impl From<AllocError> for DecodeError {
    ghost from_gives = { λ _ e. e ≡ errors.NoMemory };

    fn from(_: AllocError) -> DecodeError {
        DecodeError::NoMemory
    }
}

impl<T: Drop> From<AllocFailed<T>> for DecodeError {
    ghost from_gives = { λ _ e. e ≡ errors.NoMemory };

    fn from(_: AllocFailed<T>) -> DecodeError {
        DecodeError::NoMemory
    }
}

impl From<sc_entry::NoMemory> for DecodeError {
    ghost from_gives = { λ _ e. e ≡ errors.NoMemory };

    fn from(_: sc_entry::NoMemory) -> DecodeError {
        DecodeError::NoMemory
    }
}
