ghost use Rattle.std.specs.Prelude.{◌≡◌, ◌++◌, ◌∷◌, [], ℕ, Bool, true, false, List, Option, Result, option_map, OnOk, OnErr};
ghost use Rattle.sc_entry.specs.Causes.{IfTold, Told};
ghost use Rattle.sc_command.specs.Settings.{with_variable, with_variables, with_nothing, with_folder, with_stdin, with_stdout, with_stderr, AddsFirst, SetsFirst, MayShare};
ghost use Rattle.sc_command.specs.Spawning.{SpawnAnswer, SpawnGives};
ghost use Rattle.sc_command.specs.declared.setting.Setting.{Setting};
ghost use Rattle.sc_command.specs.declared.refusal.SpawnError.{SpawnError};

use crate::command_child::CommandChild;
use crate::refusal::{CommandError, SpawnError};
use crate::setting::{Setting, StdioMode};
use sc_entry::{ByteText, NoMemory};

/// A command: a program with its arguments, which can be spawned once.
pub trait RunCommand {
    /// What it spawns.
    type C: CommandChild;

    /// What its spawn goes by, beside its arguments.
    type Plan;

    /// Its arguments, where it tells them. No call changes whether it tells.
    ghost arguments: { Self → Option (List (List ℕ)) };

    /// How it runs its program, where it tells that. No call changes whether it tells.
    ghost setting: { Self → Option Setting };

    /// Whether it was spawned before.
    ghost is_spent: { Self → Bool };

    /// What its spawn goes by.
    ghost plan: { Self → Self.Plan };

    /// What a spawn by this plan with these arguments may give.
    ghost gives: { Self.Plan → List (List ℕ) → Result Self.C SpawnError → Type 0 };

    /// Adds an argument at the end.
    fn arg(&mut self, word: &ByteText) -> Result<(), NoMemory>
        ensures appended { OnOk result (arguments self.new ≡ option_map (λ words. words ++ word.now ∷ []) (arguments self.old)) }
        ensures err { OnErr result (arguments self.new ≡ arguments self.old) }
        ensures same { (setting self.new ≡ setting self.old) × (is_spent self.new ≡ is_spent self.old) × (plan self.new ≡ plan self.old) };

    /// Adds arguments at the end. Where memory runs out, the first of them may stand there.
    fn args(&mut self, words: &[ByteText]) -> Result<(), NoMemory>
        ensures appended { OnOk result (arguments self.new ≡ option_map (λ before. before ++ words.now) (arguments self.old)) }
        ensures err { OnErr result (Told (AddsFirst words.now) (arguments self.old) (arguments self.new)) }
        ensures same { (setting self.new ≡ setting self.old) × (is_spent self.new ≡ is_spent self.old) × (plan self.new ≡ plan self.old) };

    /// Sets a variable. A name that is there keeps its place.
    fn env(&mut self, name: &ByteText, value: &ByteText) -> Result<(), NoMemory>
        ensures set { OnOk result (setting self.new ≡ option_map (with_variable name.now value.now) (setting self.old)) }
        ensures err { OnErr result (setting self.new ≡ setting self.old) }
        ensures same { (arguments self.new ≡ arguments self.old) × (is_spent self.new ≡ is_spent self.old) × (plan self.new ≡ plan self.old) };

    /// Sets variables, one after the other. Where memory runs out, the first of them may be set.
    fn envs(&mut self, variables: &[(ByteText, ByteText)]) -> Result<(), NoMemory>
        ensures set { OnOk result (setting self.new ≡ option_map (with_variables variables.now) (setting self.old)) }
        ensures err { OnErr result (Told (SetsFirst variables.now) (setting self.old) (setting self.new)) }
        ensures same { (arguments self.new ≡ arguments self.old) × (is_spent self.new ≡ is_spent self.old) × (plan self.new ≡ plan self.old) };

    /// Clears the environment, and forgets the variables that were set.
    fn env_clear(&mut self)
        ensures set { setting self.new ≡ option_map with_nothing (setting self.old) }
        ensures same { (arguments self.new ≡ arguments self.old) × (is_spent self.new ≡ is_spent self.old) × (plan self.new ≡ plan self.old) };

    /// Sets where the child runs.
    fn current_dir(&mut self, folder: &ByteText) -> Result<(), NoMemory>
        ensures set { OnOk result (setting self.new ≡ option_map (with_folder folder.now) (setting self.old)) }
        ensures err { OnErr result (setting self.new ≡ setting self.old) }
        ensures same { (arguments self.new ≡ arguments self.old) × (is_spent self.new ≡ is_spent self.old) × (plan self.new ≡ plan self.old) };

    fn stdin(&mut self, mode: StdioMode)
        ensures set { setting self.new ≡ option_map (with_stdin mode) (setting self.old) }
        ensures same { (arguments self.new ≡ arguments self.old) × (is_spent self.new ≡ is_spent self.old) × (plan self.new ≡ plan self.old) };

    fn stdout(&mut self, mode: StdioMode)
        ensures set { setting self.new ≡ option_map (with_stdout mode) (setting self.old) }
        ensures same { (arguments self.new ≡ arguments self.old) × (is_spent self.new ≡ is_spent self.old) × (plan self.new ≡ plan self.old) };

    fn stderr(&mut self, mode: StdioMode)
        ensures set { setting self.new ≡ option_map (with_stderr mode) (setting self.old) }
        ensures same { (arguments self.new ≡ arguments self.old) × (is_spent self.new ≡ is_spent self.old) × (plan self.new ≡ plan self.old) };

    /// Lets the child use the tokens of this process, where the command can.
    fn share_jobserver(&mut self)
        ensures set { MayShare (setting self.old) (setting self.new) }
        ensures same { (arguments self.new ≡ arguments self.old) × (is_spent self.new ≡ is_spent self.old) × (plan self.new ≡ plan self.old) }
    {}

    /// Spawns a child. A command is spawned once: whatever the first spawn answers, each later one answers `Spent`.
    fn spawn(&mut self) -> Result<Self::C, CommandError<<Self::C as CommandChild>::Fault>>
        ensures answer { SpawnAnswer Self.C.Fault.refusal (is_spent self.old) result }
        ensures gives { is_spent self.old ≡ false → IfTold (arguments self.old) (λ words. SpawnGives (gives (plan self.old) words) result) }
        ensures spent { is_spent self.new ≡ true }
        ensures same { (arguments self.new ≡ arguments self.old) × (setting self.new ≡ setting self.old) };
}
