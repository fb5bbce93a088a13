//! A program that runs: the edge to the outside. It tells nothing of what it gives.
ghost use Rattle.std.specs.Prelude.{◌≡◌, None, is_some, IfErr};
ghost use Rattle.sc_command.specs.Children.{IfFault};
ghost use Rattle.sc_command.specs.declared.refusal.CommandRefusal.TheVariants as refusals;

use crate::drained::Drained;
use crate::process_fault::ProcessFault;
use crate::real_streams::WriterSink;
use sc_command::{AcquiredOwned, CommandChild, CommandError, CommandRefusal, Output};
use sc_entry::{ByteText, ReadError};
use std::alloc::Global;
use std::process;
use std::process::{ChildStdin, ExitStatus};
use std::sync::Wait;
use std::thread::Threads;

/// A program that was started. Dropped before it was waited for, it is killed and waited for.
struct Running {
    process: process::Child,
}

impl Drop for Running {
    fn drop(self) {
        let Running { mut process } = self;
        if process.kill().is_ok() {
            let _ = process.wait();
        }
    }
}

/// A child that runs a program, and holds a token as long.
#[derive(Drop)]
pub struct Child<R: Threads + Wait + Copy + Drop> {
    alloc: Global,
    running: Running,
    stdin: Option<WriterSink<ChildStdin>>,
    stdout: Option<Drained<R>>,
    stderr: Option<Drained<R>>,
    token: AcquiredOwned<R>,
}

impl<R: Threads + Wait + Copy + Drop> Child<R> {
    /// A program that was started, whose streams are read from now on. None where no thread can be made.
    pub(crate) fn start(
        rt: R,
        alloc: Global,
        process: process::Child,
        token: AcquiredOwned<R>,
    ) -> Option<Child<R>> {
        let mut running = Running { process };
        let stdin = running.process.stdin.take().map(WriterSink::new);
        let stdout = match running.process.stdout.take() {
            Some(stream) => Some(Drained::start(rt, alloc, stream)?),
            None => None,
        };
        let stderr = match running.process.stderr.take() {
            Some(stream) => Some(Drained::start(rt, alloc, stream)?),
            None => None,
        };
        Some(Child {
            alloc,
            running,
            stdin,
            stdout,
            stderr,
            token,
        })
    }
}

impl Running {
    /// Waits until the program has ended.
    fn wait(&mut self) -> Result<ExitStatus, ProcessFault>
        ensures { IfErr result (λ fault. fault.refusal ≡ refusals.WaitFault) }
    {
        match self.process.wait() {
            Ok(status) => Ok(status),
            Err(_) => Err(ProcessFault::new(CommandRefusal::WaitFault)),
        }
    }
}

/// All that a stream gave; nothing where it was taken.
fn collected<R: Threads + Copy + Drop>(
    alloc: Global,
    stream: Option<Drained<R>>,
) -> Result<ByteText, CommandError<ProcessFault>>
    ensures { IfFault result (λ fault. fault.refusal ≡ refusals.WaitFault) }
{
    let Some(stream) = stream else {
        return Ok(ByteText::new(alloc));
    };
    match stream.into_bytes() {
        Ok(bytes) => Ok(bytes),
        Err(ReadError::NoMemory) => Err(CommandError::NoMemory),
        Err(ReadError::ReadFault) => Err(CommandError::Fault(ProcessFault::new(
            CommandRefusal::WaitFault,
        ))),
    }
}

impl<R: Threads + Wait + Copy + Drop> CommandChild for Child<R> {
    type I = WriterSink<ChildStdin>;

    type O = Drained<R>;

    type E = Drained<R>;

    type Fault = ProcessFault;

    ghost streams = { λ c. record { stdin = is_some c.stdin; stdout = is_some c.stdout; stderr = is_some c.stderr } };

    ghost content = { λ _. None };

    fn take_stdin(&mut self) -> Option<WriterSink<ChildStdin>> {
        self.stdin.take()
    }

    fn take_stdout(&mut self) -> Option<Drained<R>> {
        self.stdout.take()
    }

    fn take_stderr(&mut self) -> Option<Drained<R>> {
        self.stderr.take()
    }

    // The token is bound first, so that it goes back last.
    fn wait(self) -> Result<ExitStatus, ProcessFault> {
        let Child {
            token: _held,
            mut running,
            stdin,
            ..
        } = self;
        drop(stdin);
        running.wait()
    }

    fn wait_with_output(self) -> Result<Output, CommandError<ProcessFault>> {
        let Child {
            token: _held,
            mut running,
            alloc,
            stdin,
            stdout,
            stderr,
        } = self;
        drop(stdin);
        let stdout = collected(alloc, stdout)?;
        let stderr = collected(alloc, stderr)?;
        match running.wait() {
            Ok(status) => Ok(Output {
                status,
                stdout,
                stderr,
            }),
            Err(fault) => Err(CommandError::Fault(fault)),
        }
    }
}
