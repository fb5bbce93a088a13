ghost use Rattle.std.specs.Prelude.{◌≡◌, Some};
ghost use Rattle.sc_wire_address.specs.Addresses.{error_text};
ghost use Rattle.sc_wire_address.specs.declared.address_error.AddressError.TheVariants as errors;

use sc_entry::NoMemory;
use std::alloc::AllocError;
use std::fmt;
use std::fmt::{Display, Formatter, Write};

/// Why a text is read as no address.
#[derive(Clone, Copy, Debug, Drop, PartialEq, Eq)]
pub enum AddressError {
    NoMemory,
    /// An abstract name has a backslash that begins no escape.
    BadEscape,
}

impl From<NoMemory> for AddressError {
    ghost from_gives = { λ _ error. error ≡ errors.NoMemory };

    fn from(_: NoMemory) -> AddressError {
        AddressError::NoMemory
    }
}

impl From<AllocError> for AddressError {
    ghost from_gives = { λ _ error. error ≡ errors.NoMemory };

    fn from(_: AllocError) -> AddressError {
        AddressError::NoMemory
    }
}

impl Display for AddressError {
    ghost output = { λ error. Some (error_text error) };

    fn fmt<W: Write>(&self, f: &mut Formatter<W>) -> fmt::Result {
        f.write_str(match self {
            AddressError::NoMemory => "out of memory",
            AddressError::BadEscape => "bad escape",
        })
    }
}

impl std::error::Error for AddressError {}
