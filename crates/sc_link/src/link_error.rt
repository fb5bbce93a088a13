ghost use Rattle.std.specs.Prelude.{◌≡◌, Some};
ghost use Rattle.sc_link.specs.Refusals.{accept_text, connect_text, listen_text};
ghost use Rattle.sc_link.specs.declared.link_error.ConnectError.TheVariants as connect_errors;
ghost use Rattle.sc_link.specs.declared.link_error.ListenError.TheVariants as listen_errors;

use sc_entry::NoMemory;
use std::alloc::AllocError;
use std::fmt;
use std::fmt::{Display, Formatter, Write};

/// Why no link was made to a server.
#[derive(Clone, Copy, Debug, Drop, PartialEq, Eq)]
pub enum ConnectError {
    NoMemory,
    /// The connector refused; it counted this.
    LinkFault,
}

/// An acceptor refused; it counted this.
#[derive(Clone, Copy, Debug, Drop, PartialEq, Eq)]
pub struct AcceptFault;

/// Why no acceptor was made.
#[derive(Clone, Copy, Debug, Drop, PartialEq, Eq)]
pub enum ListenError {
    NoMemory,
    /// Somebody listens at the address; the maker counted this.
    AddrInUse,
    /// The maker refused otherwise; it counted this.
    AcceptFault,
}

impl From<NoMemory> for ConnectError {
    ghost from_gives = { λ _ error. error ≡ connect_errors.NoMemory };

    fn from(_: NoMemory) -> ConnectError {
        ConnectError::NoMemory
    }
}

impl From<AllocError> for ConnectError {
    ghost from_gives = { λ _ error. error ≡ connect_errors.NoMemory };

    fn from(_: AllocError) -> ConnectError {
        ConnectError::NoMemory
    }
}

impl From<NoMemory> for ListenError {
    ghost from_gives = { λ _ error. error ≡ listen_errors.NoMemory };

    fn from(_: NoMemory) -> ListenError {
        ListenError::NoMemory
    }
}

impl From<AllocError> for ListenError {
    ghost from_gives = { λ _ error. error ≡ listen_errors.NoMemory };

    fn from(_: AllocError) -> ListenError {
        ListenError::NoMemory
    }
}

impl Display for ConnectError {
    ghost output = { λ error. Some (connect_text error) };

    fn fmt<W: Write>(&self, f: &mut Formatter<W>) -> fmt::Result {
        f.write_str(match self {
            ConnectError::NoMemory => "out of memory",
            ConnectError::LinkFault => "link fault",
        })
    }
}

impl Display for AcceptFault {
    ghost output = { λ _. Some accept_text };

    fn fmt<W: Write>(&self, f: &mut Formatter<W>) -> fmt::Result {
        f.write_str("accept fault")
    }
}

impl Display for ListenError {
    ghost output = { λ error. Some (listen_text error) };

    fn fmt<W: Write>(&self, f: &mut Formatter<W>) -> fmt::Result {
        f.write_str(match self {
            ListenError::NoMemory => "out of memory",
            ListenError::AddrInUse | ListenError::AcceptFault => "accept fault",
        })
    }
}

impl std::error::Error for ConnectError {}

impl std::error::Error for AcceptFault {}

impl std::error::Error for ListenError {}
