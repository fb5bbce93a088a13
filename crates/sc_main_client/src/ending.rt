//! How a client's command ends.
ghost use Rattle.std.specs.Prelude.{◌≡◌};
ghost use Rattle.sc_entry.specs.Causes.{Rose, Told};
ghost use Rattle.sc_entry.specs.Streams.{WritesAll};
ghost use Rattle.sc_main_client.specs.Ending.{TextEnds, ended_of};

use sc_client::ClientError;
use sc_entry::{Sink, WriteError, write_all};
use sc_main_report::Ended;

/// The end of a command whose client's call answered this.
pub(crate) fn ended_of(error: &ClientError) -> Ended
    ensures { result ≡ ended_of error.now }
{
    match error {
        ClientError::NoMemory => Ended::NoMemory,
        ClientError::BadFrame
        | ClientError::EndOfStream
        | ClientError::ReadFault
        | ClientError::WriteFault
        | ClientError::LinkFault
        | ClientError::TimedOut(_)
        | ClientError::NoChild
        | ClientError::Command(_) => Ended::LinkFault,
        ClientError::Unexpected(_) => Ended::Unexpected,
        ClientError::NotFound(_) | ClientError::NotSupported(_) => Ended::Status(1),
        ClientError::OutputFault => Ended::WriteFault,
    }
}

/// Writes a text, which is all that is left to do.
pub(crate) fn write_text<O: Sink>(out: &mut O, text: &[u8]) -> Ended
    ensures { TextEnds (Told (WritesAll text.now) (O.written out.old) (O.written out.new)) (Rose (O.fault_count out.old) (O.fault_count out.new)) result }
{
    match write_all(out, text) {
        Ok(()) => Ended::Status(0),
        Err(WriteError::NoMemory) => Ended::NoMemory,
        Err(WriteError::WriteFault) => Ended::WriteFault,
    }
}
