ghost use Rattle.std.specs.Prelude.{◌≡◌};
ghost use Rattle.std.specs.Process.{exit_code, exit_signal};
ghost use Rattle.sc_command.specs.Statuses.{code_of, signal_of};

use std::os::unix::process::ExitStatusExt;
use std::process::ExitStatus;

/// How a child ended, as the system's wait tells it.
pub type ExitStatusValue = i32;

/// The status that a value of the system's wait tells. Low seven bits of 0 say that the child ended by itself, with the
/// code in bits 8 to 15; low seven bits of 127 tell neither a code nor a signal; else they are the signal that ended it.
pub fn exit_status(value: ExitStatusValue) -> ExitStatus
    ensures code { exit_code result ≡ code_of value }
    ensures signal { exit_signal result ≡ signal_of value }
{
    ExitStatus::from_raw(value)
}
