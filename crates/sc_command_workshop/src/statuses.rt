//! How children end, as answers tell it.
ghost use Rattle.std.specs.Prelude.{◌≡◌};
ghost use Rattle.sc_command_workshop.specs.Executing.{status_of, told_output};

use sc_command::Output;
use sc_model::{self, Status};
use std::os::unix::process::ExitStatusExt;
use std::process::ExitStatus;

fn status_of(status: ExitStatus) -> Status
    ensures { result ≡ status_of status }
{
    match (status.code(), status.signal()) {
        (Some(code), _) => Status::Code(code as u8),
        (None, Some(signal)) => Status::Signal(signal as u8),
        (None, None) => Status::Neither,
    }
}

/// What a child wrote and how it ended, as answers tell it.
pub(crate) fn told_output(output: Output) -> sc_model::Output
    ensures { result ≡ told_output output }
{
    let Output {
        status,
        stdout,
        stderr,
    } = output;
    sc_model::Output {
        status: status_of(status),
        stdout,
        stderr,
    }
}
