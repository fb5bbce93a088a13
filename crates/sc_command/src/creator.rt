ghost use Rattle.std.specs.Prelude.{◌≡◌, ◌≤◌, ℕ, Bool, [], false, List, Option, IfOk};
ghost use Rattle.sc_entry.specs.Causes.{Rose, IfTold};
ghost use Rattle.sc_command.specs.Creating.{NewAnswer, NewCause};
ghost use Rattle.sc_command.specs.Settings.{fresh_setting};

use crate::client::Client;
use crate::command_child::CommandChild;
use crate::refusal::{CommandRefusal, NewCommandError};
use crate::run_command::RunCommand;
use sc_entry::{ByteText, NoMemory};
use std::alloc::Global;

/// Something that makes commands, and counts the refusals of its commands and their children.
pub trait CommandCreator {
    /// What it runs on.
    type Runtime;

    /// What it makes.
    type Cmd: RunCommand;

    /// The commands that it will make, where it tells them. No call changes whether it tells.
    ghost queue: { Self → Option (List Self.Cmd) };

    /// Whether its commands spawn the children of a list, which can be used up.
    ghost is_listed: { Bool };

    /// How often it refused, and its commands and their children did.
    ghost fault_count: { Self → ℕ };

    /// A creator whose children take their tokens from a client.
    fn new(rt: Self::Runtime, alloc: Global, client: &Client) -> Result<Self, NoMemory>
        ensures faults { IfOk result (λ creator. fault_count creator ≡ 0) }
        ensures queue { IfOk result (λ creator. IfTold (queue creator) (λ commands. commands ≡ [])) };

    /// How often it refused. The count never falls.
    fn faults(&self) -> u64
        ensures { result ≡ fault_count self.now };

    /// A command that runs a program. A creator that tells its commands gives the first.
    fn new_command(&mut self, program: &ByteText) -> Result<Self::Cmd, NewCommandError>
        ensures first { NewAnswer (queue self.old) result (queue self.new) }
        ensures unspent { IfOk result (λ command. Self.Cmd.is_spent command ≡ false) }
        ensures words { IfOk result (λ command. IfTold (Self.Cmd.arguments command) (λ words. words ≡ [])) }
        ensures setting { IfOk result (λ command. IfTold (Self.Cmd.setting command) (λ setting. setting ≡ fresh_setting program.now)) }
        ensures cause { NewCause is_listed (fault_count self.old) (fault_count self.new) result };

    /// Books a refusal of one of its commands or children, and tells why it refused.
    fn book(
        &mut self,
        fault: <<Self::Cmd as RunCommand>::C as CommandChild>::Fault,
    ) -> CommandRefusal
        ensures refusal { result ≡ Self.Cmd.C.Fault.refusal fault }
        ensures cause { Rose (fault_count self.old) (fault_count self.new) }
        ensures queue { queue self.new ≡ queue self.old };
}

/// A creator that threads share: each has one of its own.
pub trait CommandCreatorSync: CommandCreator {
    /// A creator of the same commands for another thread.
    fn try_clone(&self) -> Result<Self, NoMemory>
        ensures faults { IfOk result (λ creator. Self.fault_count creator ≡ Self.fault_count self.now) };

    /// A command that runs a program.
    fn new_command_sync(&mut self, program: &ByteText) -> Result<Self::Cmd, NewCommandError>
        ensures first { NewAnswer (Self.queue self.old) result (Self.queue self.new) }
        ensures unspent { IfOk result (λ command. Self.Cmd.is_spent command ≡ false) }
        ensures words { IfOk result (λ command. IfTold (Self.Cmd.arguments command) (λ words. words ≡ [])) }
        ensures setting { IfOk result (λ command. IfTold (Self.Cmd.setting command) (λ setting. setting ≡ fresh_setting program.now)) }
        ensures cause { NewCause Self.is_listed (Self.fault_count self.old) (Self.fault_count self.new) result }
    {
        self.new_command(program)
    }
}
