ghost use Rattle.std.specs.Prelude.{◌≡◌, ◌++◌, Some, IfOk};
ghost use Rattle.sc_client.specs.Refusals.{client_text, of_connect, of_new_command, of_request, of_sink, readable, shown_text};
ghost use Rattle.sc_client.specs.declared.client_error.ClientError.TheVariants as client_errors;

use crate::request_error::RequestError;
use sc_command::{CommandRefusal, NewCommandError};
use sc_entry::{ByteText, NoMemory, WriteError};
use sc_link::ConnectError;
use sc_model::Response;
use std::alloc::{AllocError, Global};
use std::fmt;
use std::fmt::{Debug, Display, Formatter, Write};

/// Why a client's call answers nothing else.
#[derive(Drop)]
pub enum ClientError {
    NoMemory,
    /// A reply's length is over the limit, its payload spells no reply, or the request itself is too long for a frame.
    BadFrame,
    /// The end came before a whole reply.
    EndOfStream,
    /// A read of the link was refused; it counted this.
    ReadFault,
    /// A write of the link was refused; it counted this.
    WriteFault,
    /// The connector refused; it counted this.
    LinkFault,
    /// Each of eleven connects was refused, the last so.
    TimedOut(ConnectError),
    /// A whole reply of another kind came: this one.
    Unexpected(Response),
    /// No folder has a program of this name.
    NotFound(ByteText),
    /// The server supports no such compiler, for this reason.
    NotSupported(ByteText),
    /// The creator made no command; it counted this.
    NoChild,
    /// The command that was run here, or its child, refused; their creator counted this.
    Command(CommandRefusal),
    /// A write to one of the client's own streams was refused; that one counted this.
    OutputFault,
}

impl From<NoMemory> for ClientError {
    ghost from_gives = { λ _ error. error ≡ client_errors.NoMemory };

    fn from(_: NoMemory) -> ClientError {
        ClientError::NoMemory
    }
}

impl From<AllocError> for ClientError {
    ghost from_gives = { λ _ error. error ≡ client_errors.NoMemory };

    fn from(_: AllocError) -> ClientError {
        ClientError::NoMemory
    }
}

impl From<RequestError> for ClientError {
    ghost from_gives = { λ refused error. error ≡ of_request refused };

    fn from(refused: RequestError) -> ClientError {
        match refused {
            RequestError::NoMemory => ClientError::NoMemory,
            RequestError::BadFrame => ClientError::BadFrame,
            RequestError::EndOfStream => ClientError::EndOfStream,
            RequestError::ReadFault => ClientError::ReadFault,
            RequestError::WriteFault => ClientError::WriteFault,
        }
    }
}

impl From<ConnectError> for ClientError {
    ghost from_gives = { λ refused error. error ≡ of_connect refused };

    fn from(refused: ConnectError) -> ClientError {
        match refused {
            ConnectError::NoMemory => ClientError::NoMemory,
            ConnectError::LinkFault => ClientError::LinkFault,
        }
    }
}

/// Of a write to one of the client's own streams.
impl From<WriteError> for ClientError {
    ghost from_gives = { λ refused error. error ≡ of_sink refused };

    fn from(refused: WriteError) -> ClientError {
        match refused {
            WriteError::NoMemory => ClientError::NoMemory,
            WriteError::WriteFault => ClientError::OutputFault,
        }
    }
}

impl From<NewCommandError> for ClientError {
    ghost from_gives = { λ refused error. error ≡ of_new_command refused };

    fn from(refused: NewCommandError) -> ClientError {
        match refused {
            NewCommandError::NoMemory => ClientError::NoMemory,
            NewCommandError::NoChild => ClientError::NoChild,
        }
    }
}

/// A text of two pieces, one behind the other.
fn joined(alloc: Global, front: &str, rest: &[u8]) -> Result<ByteText, NoMemory>
    ensures { IfOk result (λ text. text ≡ front.now ++ rest.now) }
{
    let mut text = ByteText::from_slice(alloc, front.as_bytes())?;
    text.append(rest)?;
    Ok(text)
}

/// Bytes as a formatter can show them.
fn readable(bytes: &[u8]) -> &str
    ensures { result.now ≡ readable bytes.now }
{
    match str::from_utf8(bytes) {
        Ok(text) => text,
        Err(_) => "(not UTF-8)",
    }
}

impl ClientError {
    /// The refusal in words. Names and reasons stand in it as they came, byte for byte.
    pub fn text(&self, alloc: Global) -> Result<ByteText, NoMemory>
        ensures { IfOk result (λ text. text ≡ client_text self.now) }
    {
        match self {
            ClientError::NoMemory => joined(alloc, "out of memory", b""),
            ClientError::BadFrame => joined(alloc, "bad frame", b""),
            ClientError::EndOfStream => joined(alloc, "end of stream", b""),
            ClientError::ReadFault => joined(alloc, "read fault", b""),
            ClientError::WriteFault => joined(alloc, "write fault", b""),
            ClientError::LinkFault => joined(alloc, "link fault", b""),
            ClientError::TimedOut(refused) => timed_out(alloc, *refused),
            ClientError::Unexpected(_) => joined(alloc, "Unexpected server response!", b""),
            ClientError::NotFound(name) => joined(alloc, "cannot find ", name.as_slice()),
            ClientError::NotSupported(why) => {
                joined(alloc, "Compiler not supported: ", why.as_slice())
            }
            ClientError::NoChild => joined(alloc, NewCommandError::NoChild.text(), b""),
            ClientError::Command(refused) => joined(alloc, refused.text(), b""),
            ClientError::OutputFault => joined(alloc, "write fault", b""),
        }
    }
}

/// That a server let no client connect, for this reason at last.
fn timed_out(alloc: Global, refused: ConnectError) -> Result<ByteText, NoMemory>
    ensures { IfOk result (λ text. text ≡ client_text (client_errors.TimedOut refused)) }
{
    let front = "Connection to server timed out: ";
    match refused {
        ConnectError::NoMemory => joined(alloc, front, b"out of memory"),
        ConnectError::LinkFault => joined(alloc, front, b"link fault"),
    }
}

/// Names and reasons that are no text are told to be none; `text` has their bytes.
impl Display for ClientError {
    ghost output = { λ error. Some (shown_text error) };

    fn fmt<W: Write>(&self, f: &mut Formatter<W>) -> fmt::Result {
        match self {
            ClientError::NoMemory => f.write_str("out of memory"),
            ClientError::BadFrame => f.write_str("bad frame"),
            ClientError::EndOfStream => f.write_str("end of stream"),
            ClientError::ReadFault => f.write_str("read fault"),
            ClientError::WriteFault | ClientError::OutputFault => f.write_str("write fault"),
            ClientError::LinkFault => f.write_str("link fault"),
            ClientError::TimedOut(refused) => {
                write!(f, "Connection to server timed out: {refused}")
            }
            ClientError::Unexpected(_) => f.write_str("Unexpected server response!"),
            ClientError::NotFound(name) => write!(f, "cannot find {}", readable(name.as_slice())),
            ClientError::NotSupported(why) => {
                write!(f, "Compiler not supported: {}", readable(why.as_slice()))
            }
            ClientError::NoChild => f.write_str(NewCommandError::NoChild.text()),
            ClientError::Command(refused) => f.write_str(refused.text()),
        }
    }
}

impl Debug for ClientError {
    fn fmt<W: Write>(&self, f: &mut Formatter<W>) -> fmt::Result {
        Display::fmt(self, f)
    }
}

impl std::error::Error for ClientError {}
