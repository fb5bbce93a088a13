//! What a client does once it knows what came of a compile.
ghost use Rattle.sc_client.specs.Deciding.{next_of, after_first, after_start, at_refusal, Decides};

use crate::client_error::ClientError;
use crate::request_error::RequestError;
use crate::talking::Talk;
use sc_entry::{ByteText, Items};
use sc_model::{CompileFinished, CompileResponse, Response};
use std::alloc::Global;

/// What is to be done.
#[derive(Drop)]
pub(crate) enum Next {
    /// To show what the server's compile printed, behind these notifications.
    Finish(Items<ByteText>, CompileFinished),
    /// To compile here, behind these notifications.
    Compile(Items<ByteText>),
    /// To answer this.
    Fail(ClientError),
}

/// By a first reply other than that the compile was started.
fn after_first(alloc: Global, reply: Response) -> Next
    ensures { Decides (after_first reply) result }
{
    match reply {
        Response::Compile(CompileResponse::UnhandledCompile) => Next::Compile(Items::new(alloc)),
        Response::Compile(CompileResponse::UnsupportedCompiler(why)) => {
            Next::Fail(ClientError::NotSupported(why))
        }
        reply => Next::Fail(ClientError::Unexpected(reply)),
    }
}

/// By what refused a reading. The stream's end always leads to a compile here, any other refusal only where they are to be
/// ignored; want of memory never does.
fn at_refusal(notes: Items<ByteText>, refused: RequestError, ignore: bool) -> Next
    ensures { Decides (at_refusal ignore notes refused) result }
{
    match refused {
        RequestError::NoMemory => Next::Fail(ClientError::NoMemory),
        RequestError::EndOfStream => Next::Compile(notes),
        refused => {
            if ignore {
                return Next::Compile(notes);
            }
            Next::Fail(ClientError::from(refused))
        }
    }
}

/// By what came last, once the compile was started.
fn after_start(notes: Items<ByteText>, last: Result<Response, RequestError>, ignore: bool) -> Next
    ensures { Decides (after_start ignore notes last) result }
{
    match last {
        Ok(Response::CompileFinished(finished)) => Next::Finish(notes, finished),
        Ok(reply) => Next::Fail(ClientError::Unexpected(reply)),
        Err(refused) => at_refusal(notes, refused, ignore),
    }
}

/// By all that came.
pub(crate) fn next_of(alloc: Global, talk: Talk, ignore: bool) -> Next
    ensures { Decides (next_of ignore talk) result }
{
    match talk {
        Talk::Refused(refused) => Next::Fail(ClientError::from(refused)),
        Talk::Answered(reply) => after_first(alloc, reply),
        Talk::Started(notes, last) => after_start(notes, last, ignore),
    }
}
