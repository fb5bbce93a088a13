ghost use Rattle.std.specs.Prelude.{◌≡◌, Option, Some, option_map, IfSome, IfErr, is_some};
ghost use Rattle.std.specs.Result.{result_ok};
ghost use Rattle.sc_entry.specs.Causes.{IfTold};
ghost use Rattle.sc_command.specs.Children.{Streams, Content, stdin_taken, stdout_taken, stderr_taken, without_stdout, without_stderr, GivesOutput, IfFault};
ghost use Rattle.sc_command.specs.declared.refusal.CommandRefusal.TheVariants as refusals;

use crate::fault::CommandFault;
use crate::output::Output;
use crate::refusal::CommandError;
use sc_entry::{Sink, Source};
use std::process::ExitStatus;

/// A child: a command that was spawned.
pub trait CommandChild {
    /// Its standard input.
    type I: Sink + Drop;

    /// Its standard output.
    type O: Source + Drop;

    /// Its standard error.
    type E: Source + Drop;

    /// A refusal of it, of its command and of their creator.
    type Fault: CommandFault + Drop;

    /// Which of its streams can be taken.
    ghost streams: { Self → Streams };

    /// What it still gives and how it ends, where it tells. No call changes whether it tells.
    ghost content: { Self → Option Content };

    /// Its standard input, once. Dropped, it ends.
    fn take_stdin(&mut self) -> Option<Self::I>
        ensures once { is_some result ≡ (streams self.old).stdin }
        ensures taken { streams self.new ≡ stdin_taken (streams self.old) }
        ensures content { content self.new ≡ content self.old };

    /// Its standard output, once.
    fn take_stdout(&mut self) -> Option<Self::O>
        ensures once { is_some result ≡ (streams self.old).stdout }
        ensures taken { streams self.new ≡ stdout_taken (streams self.old) }
        ensures content { content self.new ≡ option_map without_stdout (content self.old) }
        ensures left { IfSome result (λ stream. IfTold (content self.old) (λ c. Self.O.left stream ≡ Some c.stdout)) };

    /// Its standard error, once.
    fn take_stderr(&mut self) -> Option<Self::E>
        ensures once { is_some result ≡ (streams self.old).stderr }
        ensures taken { streams self.new ≡ stderr_taken (streams self.old) }
        ensures content { content self.new ≡ option_map without_stderr (content self.old) }
        ensures left { IfSome result (λ stream. IfTold (content self.old) (λ c. Self.E.left stream ≡ Some c.stderr)) };

    /// Waits until it has ended. What it wrote and nobody took is lost.
    fn wait(self) -> Result<ExitStatus, Self::Fault>
        ensures told { IfTold (content self) (λ c. result_ok result ≡ c.ending) }
        ensures fault { IfErr result (λ fault. Self.Fault.refusal fault ≡ refusals.WaitFault) };

    /// Waits until it has ended, and gives what it wrote on those streams that nobody took.
    fn wait_with_output(self) -> Result<Output, CommandError<Self::Fault>>
        ensures told { IfTold (content self) (λ c. GivesOutput c result) }
        ensures fault { IfFault result (λ fault. Self.Fault.refusal fault ≡ refusals.WaitFault) };
}
