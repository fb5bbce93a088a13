//! The workshop that runs compilers.
ghost use Rattle.std.specs.Prelude.{◌≡◌, ◌≤◌, ◌∷◌, [], ℕ, List, Option, true, Some, None, IfOk, OnOk};
ghost use Rattle.sc_entry.specs.Entries.{objects};
ghost use Rattle.sc_entry.specs.Failing.{one_more};
ghost use Rattle.sc_model.specs.GoodNames.{is_good_answer};
ghost use Rattle.sc_compile.specs.Placings.{Places};
ghost use Rattle.sc_compile.specs.declared.place_line.PlaceLine.{PlaceLine};
ghost use Rattle.sc_compile.specs.declared.run_line.RunLine.{RunLine};
ghost use Rattle.sc_model.specs.Levels.{and_one};
ghost use Rattle.sc_model.specs.World.{Place, RunCause};
ghost use Rattle.sc_model.specs.declared.event.RunAnswer.{RunAnswer};
ghost use Rattle.sc_command_workshop.specs.Collecting.{Collects};
ghost use Rattle.sc_command_workshop.specs.Executing.{ExecutesFirst};
ghost use Rattle.sc_command_workshop.specs.Placing.{PlaceCounts, PlacesEntry};
ghost use Rattle.sc_command_workshop.specs.Shops.{Keeps, RunsBy, shop_faults};

use crate::placing::{Placed, place};
use crate::running::run_by;
use crate::texts::{chain_of, unheld};
use sc_command::CommandCreator;
use sc_compile::{RunLine, SingleCompileCommand, Workshop};
use sc_entry::{ByteText, FileObjectSource, Files, Items, NoMemory, Text};
use sc_model::RunAnswer;
use std::alloc::Global;

/// A workshop that runs compilers by a creator of commands, and reads and places their outputs by files.
#[derive(Drop)]
pub struct CommandWorkshop<K: CommandCreator, F: Files> {
    creator: K,
    files: F,
    /// How often an entry couldn't hold what was collected, or couldn't be placed for what it holds.
    refused: u64,
}

impl<K: CommandCreator, F: Files> CommandWorkshop<K, F> {
    /// A workshop over a creator and files.
    pub fn new(creator: K, files: F) -> CommandWorkshop<K, F>
        ensures creator { result.creator ≡ creator }
        ensures files { result.files ≡ files }
        ensures refused { result.refused ≡ 0 }
    {
        CommandWorkshop {
            creator,
            files,
            refused: 0,
        }
    }

    /// The creator of its commands.
    pub fn creator(&self) -> &K
        ensures { result.now ≡ self.now.creator }
    {
        &self.creator
    }

    /// The files of its outputs.
    pub fn files(&self) -> &F
        ensures { result.now ≡ self.now.files }
    {
        &self.files
    }

    /// Counts a refusal of its own.
    fn refuse(&mut self)
        ensures refused { self.new.refused ≡ one_more self.old.refused }
        ensures later { self.old.refused ≤ self.new.refused }
        ensures same { (self.new.creator ≡ self.old.creator) × (self.new.files ≡ self.old.files) }
    {
        self.refused = self.refused.saturating_add(1);
    }

    /// What was gathered, where an entry can hold it; else a fault, which is counted.
    fn keep(
        &mut self,
        alloc: Global,
        key: &Text,
        gathered: RunAnswer,
    ) -> Result<RunAnswer, NoMemory>
        ensures kept { IfOk result (λ answer. Keeps (is_good_answer gathered) gathered answer self.old.refused self.new.refused) }
        ensures good { IfOk result (λ answer. is_good_answer answer ≡ true) }
        ensures same { (self.new.creator ≡ self.old.creator) × (self.new.files ≡ self.old.files) }
        ensures later { self.old.refused ≤ self.new.refused }
    {
        match RunLine::new(alloc, key.try_clone()?.into_byte_text(), gathered)? {
            Some(line) => Ok(line.answer),
            None => {
                let fault = unheld(alloc)?;
                self.refuse();
                Ok(fault)
            }
        }
    }

    /// A placing that is refused for what the entry holds, and counted.
    fn refuse_entry(&mut self, alloc: Global, text: &str) -> Result<Option<Items<Text>>, NoMemory>
        ensures told { IfOk result (λ p. p ≡ Some (text.now ∷ [])) }
        ensures refused { OnOk result (self.new.refused ≡ one_more self.old.refused) }
        ensures same { (self.new.creator ≡ self.old.creator) × (self.new.files ≡ self.old.files) }
        ensures later { self.old.refused ≤ self.new.refused }
    {
        let chain = chain_of(alloc, text)?;
        self.refuse();
        Ok(Some(chain))
    }
}

impl<K: CommandCreator, F: Files> Workshop for CommandWorkshop<K, F>
where
    K::Cmd: Drop,
{
    ghost runs = { λ _. None };

    ghost placings = { λ _. None };

    ghost lines = { λ _. None };

    ghost refusals = { λ _. None };

    ghost fault_count = { λ w. shop_faults (K.fault_count w.creator) (F.fault_count w.files) w.refused };

    fn faults(&self) -> u64 {
        let creator = self.creator.faults();
        let files = self.files.faults();
        creator.saturating_add(files).saturating_add(self.refused)
    }

    fn run(
        &mut self,
        alloc: Global,
        key: &Text,
        command: &SingleCompileCommand,
        outputs: &[FileObjectSource],
    ) -> Result<RunAnswer, NoMemory>
        ensures runs { IfOk result (λ a. ◌≡◌ {A = Option (List (List ℕ × RunAnswer))} None (and_one None (key.now, a))) }
        ensures placings { OnOk result (◌≡◌ {A = Option (List Place)} None None) }
        ensures lines { OnOk result (◌≡◌ {A = Option (List RunLine)} None None) }
        ensures refusals { OnOk result (◌≡◌ {A = Option (List PlaceLine)} None None) }
        ensures later { shop_faults (K.fault_count self.old.creator) (F.fault_count self.old.files) self.old.refused ≤ shop_faults (K.fault_count self.new.creator) (F.fault_count self.new.files) self.new.refused }
        ensures cause { IfOk result (λ a. RunCause a (shop_faults (K.fault_count self.old.creator) (F.fault_count self.old.files) self.old.refused) (shop_faults (K.fault_count self.new.creator) (F.fault_count self.new.files) self.new.refused)) }
        ensures good { IfOk result (λ a. is_good_answer a ≡ true) }
        ensures answer { OnOk result (Unit {0}) }

        // The creator's first command was run, and its outputs collected.
        ensures told { IfOk result (λ a. (gathered : RunAnswer) × Keeps (is_good_answer gathered) gathered a self.old.refused self.new.refused
            × RunsBy (ExecutesFirst K.Cmd.gives K.Cmd.plan K.Cmd.arguments K.Cmd.C.content command.now.arguments)
            (K.queue self.old.creator) (K.queue self.new.creator) (K.fault_count self.old.creator) (K.fault_count self.new.creator)
            (Collects (F.held self.old.files) outputs.now (F.fault_count self.old.files) (F.fault_count self.new.files)) (F.fault_count self.new.files ≡ F.fault_count self.old.files) gathered) }
        ensures files { F.held self.new.files ≡ F.held self.old.files }
    {
        let gathered = run_by(alloc, &mut self.creator, &mut self.files, command, outputs)?;
        let answer = self.keep(alloc, key, gathered)?;
        Ok(answer)
    }

    fn place(
        &mut self,
        alloc: Global,
        _key: &Text,
        outputs: &[FileObjectSource],
        entry: &ByteText,
    ) -> Result<Option<Items<Text>>, NoMemory>
        ensures runs { OnOk result (◌≡◌ {A = Option (List (List ℕ × RunAnswer))} None None) }
        ensures lines { OnOk result (◌≡◌ {A = Option (List RunLine)} None None) }
        ensures refusals { OnOk result (◌≡◌ {A = Option (List PlaceLine)} None None) }
        ensures later { shop_faults (K.fault_count self.old.creator) (F.fault_count self.old.files) self.old.refused ≤ shop_faults (K.fault_count self.new.creator) (F.fault_count self.new.files) self.new.refused }
        ensures placings { IfOk result (λ p. Places (record { outputs = outputs.now; bytes = entry.now }) None None (shop_faults (K.fault_count self.old.creator) (F.fault_count self.old.files) self.old.refused) (shop_faults (K.fault_count self.new.creator) (F.fault_count self.new.files) self.new.refused) p) }
        ensures answer { OnOk result (Unit {0}) }

        // The entry's objects stand at the outputs' paths.
        ensures told { IfOk result (λ p. PlacesEntry (objects entry.now) outputs.now p (F.held self.old.files) (F.held self.new.files)) }
        ensures refused { IfOk result (λ p. PlaceCounts (F.fault_count self.old.files) (F.fault_count self.new.files) self.old.refused self.new.refused p) }
        ensures creator { self.new.creator ≡ self.old.creator }
    {
        match place(alloc, &mut self.files, outputs, entry)? {
            Placed::Done => Ok(None),
            Placed::BadEntry => self.refuse_entry(alloc, "Failed to parse cache entry"),
            Placed::Lacking => self.refuse_entry(alloc, "failed to decompress content"),
            Placed::FileFault => Ok(Some(chain_of(alloc, "file fault")?)),
        }
    }
}
