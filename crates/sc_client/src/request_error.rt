ghost use Rattle.std.specs.Prelude.{◌≡◌, Some};
ghost use Rattle.sc_client.specs.Refusals.{decode_refusal, error_of, frame_refusal, request_text, write_refusal};
ghost use Rattle.sc_client.specs.declared.request_error.RequestError.TheVariants as request_errors;

use sc_entry::{NoMemory, ReadFault, WriteError};
use sc_wire::{DecodeError, FrameError};
use std::alloc::AllocError;
use std::fmt;
use std::fmt::{Display, Formatter, Write};

/// Why a connection gave no reply.
#[derive(Clone, Copy, Debug, Drop, PartialEq, Eq)]
pub enum RequestError {
    NoMemory,
    /// A reply's length is over the limit, its payload spells no reply, or the request itself is too long for a frame.
    BadFrame,
    /// The end came before a whole reply.
    EndOfStream,
    /// A read was refused; the link counted this.
    ReadFault,
    /// A write was refused; the link counted this.
    WriteFault,
}

/// Why a connection touches its link no more.
#[derive(Clone, Copy, Debug, Drop, PartialEq, Eq)]
pub enum Refusal {
    /// Memory ran out in the middle of a frame.
    NoMemory,
    ReadFault,
    WriteFault,
}

impl From<NoMemory> for RequestError {
    ghost from_gives = { λ _ error. error ≡ request_errors.NoMemory };

    fn from(_: NoMemory) -> RequestError {
        RequestError::NoMemory
    }
}

impl From<AllocError> for RequestError {
    ghost from_gives = { λ _ error. error ≡ request_errors.NoMemory };

    fn from(_: AllocError) -> RequestError {
        RequestError::NoMemory
    }
}

impl From<ReadFault> for RequestError {
    ghost from_gives = { λ _ error. error ≡ request_errors.ReadFault };

    fn from(_: ReadFault) -> RequestError {
        RequestError::ReadFault
    }
}

impl From<WriteError> for RequestError {
    ghost from_gives = { λ refused error. error ≡ write_refusal refused };

    fn from(refused: WriteError) -> RequestError {
        match refused {
            WriteError::NoMemory => RequestError::NoMemory,
            WriteError::WriteFault => RequestError::WriteFault,
        }
    }
}

impl From<DecodeError> for RequestError {
    ghost from_gives = { λ refused error. error ≡ decode_refusal refused };

    fn from(refused: DecodeError) -> RequestError {
        match refused {
            DecodeError::NoMemory => RequestError::NoMemory,
            DecodeError::BadFrame => RequestError::BadFrame,
        }
    }
}

impl From<FrameError> for RequestError {
    ghost from_gives = { λ refused error. error ≡ frame_refusal refused };

    fn from(refused: FrameError) -> RequestError {
        match refused {
            FrameError::NoMemory => RequestError::NoMemory,
            FrameError::TooLong(_) => RequestError::BadFrame,
        }
    }
}

impl From<Refusal> for RequestError {
    ghost from_gives = { λ refusal error. error ≡ error_of refusal };

    fn from(refusal: Refusal) -> RequestError {
        match refusal {
            Refusal::NoMemory => RequestError::NoMemory,
            Refusal::ReadFault => RequestError::ReadFault,
            Refusal::WriteFault => RequestError::WriteFault,
        }
    }
}

impl RequestError {
    /// The refusal in words.
    pub fn text(&self) -> &'static str
        ensures { result.now ≡ request_text self.now }
    {
        match self {
            RequestError::NoMemory => "out of memory",
            RequestError::BadFrame => "bad frame",
            RequestError::EndOfStream => "end of stream",
            RequestError::ReadFault => "read fault",
            RequestError::WriteFault => "write fault",
        }
    }
}

impl Display for RequestError {
    ghost output = { λ error. Some (request_text error) };

    fn fmt<W: Write>(&self, f: &mut Formatter<W>) -> fmt::Result {
        f.write_str(self.text())
    }
}

impl std::error::Error for RequestError {}
