ghost use Rattle.std.specs.Prelude.{◌≡◌, [], true, false, Some, IfOk};
ghost use Rattle.sc_command.specs.Children.{IfFault};
ghost use Rattle.sc_command.specs.Settings.{fresh_setting, with_jobserver};
ghost use Rattle.sc_command.specs.Spawning.{SpawnAnswer};
ghost use Rattle.sc_command.specs.declared.refusal.CommandRefusal.TheVariants as refusals;
ghost use Rattle.sc_host.specs.Programs.{AreTexts, SystemAnswer};
ghost use Rattle.sc_host.specs.Refusing.{IsRefused};

use crate::child::Child;
use crate::process_fault::ProcessFault;
use crate::system_command::system_command;
use sc_command::{
    Client, CommandError, CommandRefusal, RunCommand, Setting, SpawnError, StdioMode, append_words,
};
use sc_entry::{ByteText, Items, NoMemory};
use std::alloc::Global;
use std::process::{Command, Processes, SystemProcess};
use std::sync::Wait;
use std::thread::Threads;

/// A command that runs a program of the system. Its child holds a token of a client as long as it runs.
#[derive(Drop)]
pub struct AsyncCommand<R: Processes<Started = SystemProcess> + Threads + Wait + Copy + Drop> {
    rt: R,
    alloc: Global,
    jobserver: Client,
    arguments: Items<ByteText>,
    setting: Setting,
    is_spent: bool,
}

impl<R: Processes<Started = SystemProcess> + Threads + Wait + Copy + Drop> AsyncCommand<R> {
    /// A program without arguments, in this process's environment, folder and streams.
    pub fn new(rt: R, alloc: Global, program: ByteText, jobserver: Client) -> AsyncCommand<R>
        ensures arguments { result.arguments ≡ [] }
        ensures setting { result.setting ≡ fresh_setting program }
        ensures spent { result.is_spent ≡ false }
    {
        AsyncCommand {
            rt,
            alloc,
            jobserver,
            arguments: Items::new(alloc),
            setting: Setting::new(alloc, program),
            is_spent: false,
        }
    }

    /// The command as the system takes it: with its arguments and variables, and without the variables by which make
    /// and cargo hand their own tokens down. A word that isn't UTF-8 is refused.
    pub fn to_command(&self) -> Result<Command, SpawnError>
        ensures { SystemAnswer self.now.setting self.now.arguments result }
    {
        system_command(self.alloc, &self.setting, self.arguments.as_slice())
    }
}

fn refused<A>(refusal: CommandRefusal) -> Result<A, CommandError<ProcessFault>>
    ensures { IsRefused (λ fault. fault.refusal) refusal result }
{
    Err(CommandError::Fault(ProcessFault::new(refusal)))
}

impl<R: Processes<Started = SystemProcess> + Threads + Wait + Copy + Drop> AsyncCommand<R> {
    /// Starts the program with a token of the client, which this waits for.
    fn start(&self, mut command: Command) -> Result<Child<R>, CommandError<ProcessFault>>
        ensures { IfFault result (λ fault. fault.refusal ≡ refusals.SpawnFault) }
    {
        let token = self.jobserver.try_clone()?.acquire_owned(self.rt);
        let Ok(process) = command.spawn(&self.rt) else {
            return refused(CommandRefusal::SpawnFault);
        };
        match Child::start(self.rt, self.alloc, process, token) {
            Some(child) => Ok(child),
            None => refused(CommandRefusal::SpawnFault),
        }
    }
}

impl<R: Processes<Started = SystemProcess> + Threads + Wait + Copy + Drop> RunCommand
    for AsyncCommand<R> {
    type C = Child<R>;

    type Plan = ();

    ghost arguments = { λ c. Some c.arguments };

    ghost setting = { λ c. Some c.setting };

    ghost is_spent = { λ c. c.is_spent };

    ghost plan = { λ _. tt };

    ghost gives = { λ _ _ _. Unit {0} };

    fn arg(&mut self, word: &ByteText) -> Result<(), NoMemory> {
        let word = word.try_clone()?;
        self.arguments.push(word)
    }

    fn args(&mut self, words: &[ByteText]) -> Result<(), NoMemory> {
        append_words(&mut self.arguments, words)
    }

    fn env(&mut self, name: &ByteText, value: &ByteText) -> Result<(), NoMemory> {
        self.setting.variables.set(name, value)
    }

    fn envs(&mut self, variables: &[(ByteText, ByteText)]) -> Result<(), NoMemory> {
        self.setting.variables.set_all(variables)
    }

    fn env_clear(&mut self) {
        self.setting.variables.clear();
        self.setting.clears = true;
    }

    fn current_dir(&mut self, folder: &ByteText) -> Result<(), NoMemory> {
        self.setting.folder = Some(folder.try_clone()?);
        Ok(())
    }

    fn stdin(&mut self, mode: StdioMode) {
        self.setting.stdin = mode;
    }

    fn stdout(&mut self, mode: StdioMode) {
        self.setting.stdout = mode;
    }

    fn stderr(&mut self, mode: StdioMode) {
        self.setting.stderr = mode;
    }

    fn share_jobserver(&mut self)
        ensures set { self.new.setting ≡ with_jobserver self.old.setting }
        ensures same { (self.new.arguments ≡ self.old.arguments) × (self.new.is_spent ≡ self.old.is_spent) }
    {
        self.jobserver.configure(&mut self.setting);
    }

    fn spawn(&mut self) -> Result<Child<R>, CommandError<ProcessFault>>
        ensures answer { SpawnAnswer (λ fault. fault.refusal) self.old.is_spent result }
        ensures spent { self.new.is_spent ≡ true }
        ensures same { (self.new.arguments ≡ self.old.arguments) × (self.new.setting ≡ self.old.setting) }

        // No program is started with a word that isn't UTF-8.
        ensures texts { IfOk result (λ _. AreTexts self.old.setting self.old.arguments) }
    {
        if self.is_spent {
            return refused(CommandRefusal::Spent);
        }
        self.is_spent = true;
        match self.to_command() {
            Ok(command) => self.start(command),
            Err(SpawnError::NoMemory) => Err(CommandError::NoMemory),
            Err(SpawnError::SpawnFault) => refused(CommandRefusal::SpawnFault),
        }
    }
}
