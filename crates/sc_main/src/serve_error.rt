//! Why a server ends that isn't to stop.
ghost use Rattle.std.specs.Prelude.{◌≡◌};
ghost use Rattle.sc_main.specs.declared.serve_error.ServeError.TheVariants as errors;

use sc_entry::NoMemory;
use sc_link::AcceptFault;
use std::alloc::AllocError;

/// Why a server ends that isn't to stop.
#[derive(Clone, Copy, Debug, Drop, PartialEq, Eq)]
pub enum ServeError {
    /// Memory ran out within an action, so that what it had taken can't be given back, or for the server itself.
    NoMemory,
    /// The acceptor refused; it counted this.
    AcceptFault,
}

impl From<NoMemory> for ServeError {
    ghost from_gives = { λ _ error. error ≡ errors.NoMemory };

    fn from(_: NoMemory) -> ServeError {
        ServeError::NoMemory
    }
}

impl From<AllocError> for ServeError {
    ghost from_gives = { λ _ error. error ≡ errors.NoMemory };

    fn from(_: AllocError) -> ServeError {
        ServeError::NoMemory
    }
}

impl From<AcceptFault> for ServeError {
    ghost from_gives = { λ _ error. error ≡ errors.AcceptFault };

    fn from(_: AcceptFault) -> ServeError {
        ServeError::AcceptFault
    }
}
