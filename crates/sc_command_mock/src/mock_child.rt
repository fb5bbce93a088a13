ghost use Rattle.std.specs.Prelude.{◌≡◌, [], false, Some, Ok, Err, MatchOption, is_some, unwrap_or};
ghost use Rattle.std.specs.Result.{result_ok};
ghost use Rattle.sc_command.specs.declared.refusal.CommandRefusal.TheVariants as refusals;

use crate::fault::Refused;
use sc_command::{CommandChild, CommandError, CommandRefusal, Output, WaitFault};
use sc_entry::{ByteText, Calls, MemSink, MemSource};
use std::alloc::Global;
use std::process::ExitStatus;

/// A child that gives what it was made of.
#[derive(Drop)]
pub struct MockChild {
    alloc: Global,
    /// What is handed out as its standard input.
    pub stdin: Option<MemSink>,
    /// What it writes to its standard output.
    pub stdout: Option<ByteText>,
    /// What it writes to its standard error.
    pub stderr: Option<ByteText>,
    /// What it answers to a wait.
    pub wait_result: Result<ExitStatus, WaitFault>,
}

impl MockChild {
    /// A child that ends with a status, and writes these bytes.
    pub fn new(alloc: Global, status: ExitStatus, stdout: ByteText, stderr: ByteText) -> MockChild
        ensures stdin { MatchOption result.stdin ⊥ (λ sink. sink.bytes ≡ []) }
        ensures stdout { MatchOption result.stdout ⊥ (λ bytes. bytes ≡ stdout) }
        ensures stderr { MatchOption result.stderr ⊥ (λ bytes. bytes ≡ stderr) }
        ensures ending { result.wait_result ≡ Ok status }
    {
        MockChild {
            alloc,
            stdin: Some(MemSink::new(alloc, Calls::new(alloc))),
            stdout: Some(stdout),
            stderr: Some(stderr),
            wait_result: Ok(status),
        }
    }

    /// A child without streams, whose wait is refused.
    pub fn with_error(alloc: Global, error: WaitFault) -> MockChild
        ensures streams { (is_some result.stdin ≡ false) × (is_some result.stdout ≡ false) × (is_some result.stderr ≡ false) }
        ensures ending { result.wait_result ≡ Err error }
    {
        MockChild {
            alloc,
            stdin: None,
            stdout: None,
            stderr: None,
            wait_result: Err(error),
        }
    }
}

fn fault(_: WaitFault) -> Refused
    ensures { result.refusal ≡ refusals.WaitFault }
{
    Refused::new(CommandRefusal::WaitFault)
}

/// The bytes of a stream; none where it was taken.
fn bytes_of(alloc: Global, stream: Option<ByteText>) -> ByteText
    ensures { result ≡ unwrap_or stream [] }
{
    match stream {
        Some(bytes) => bytes,
        None => ByteText::new(alloc),
    }
}

impl CommandChild for MockChild {
    type I = MemSink;

    type O = MemSource;

    type E = MemSource;

    type Fault = Refused;

    ghost streams = { λ c. record { stdin = is_some c.stdin; stdout = is_some c.stdout; stderr = is_some c.stderr } };

    ghost content = { λ c. Some (record { stdout = unwrap_or c.stdout []; stderr = unwrap_or c.stderr []; ending = result_ok c.wait_result }) };

    fn take_stdin(&mut self) -> Option<MemSink> {
        self.stdin.take()
    }

    fn take_stdout(&mut self) -> Option<MemSource> {
        let bytes = self.stdout.take()?;
        Some(MemSource::new(bytes, Calls::new(self.alloc)))
    }

    fn take_stderr(&mut self) -> Option<MemSource> {
        let bytes = self.stderr.take()?;
        Some(MemSource::new(bytes, Calls::new(self.alloc)))
    }

    fn wait(self) -> Result<ExitStatus, Refused> {
        match self.wait_result {
            Ok(status) => Ok(status),
            Err(error) => Err(fault(error)),
        }
    }

    fn wait_with_output(self) -> Result<Output, CommandError<Refused>> {
        let MockChild {
            alloc,
            stdout,
            stderr,
            wait_result,
            ..
        } = self;
        let status = match wait_result {
            Ok(status) => status,
            Err(error) => return Err(CommandError::Fault(fault(error))),
        };
        Ok(Output {
            status,
            stdout: bytes_of(alloc, stdout),
            stderr: bytes_of(alloc, stderr),
        })
    }
}
