//! The workshop of a script.

ghost use Rattle.std.specs.Prelude.{◌≡◌, ◌≤◌, IfOk, IfSome, OnOk, OnErr, Some, true, length, option_map};
ghost use Rattle.sc_compile.specs.Answers.{script_answer};
ghost use Rattle.sc_model.specs.GoodNames.{is_chain, is_good_answer};
ghost use Rattle.sc_compile.specs.Placings.{refusal_at};
ghost use Rattle.sc_compile.specs.Shop.{after_placing, after_refusal, after_run, new_shop};

use crate::answers::{copied, is_fault, no_answer, with_outputs};
use crate::place_line::PlaceLine;
use crate::placement::Placement;
use crate::run_line::RunLine;
use crate::workshop::Workshop;
use sc_compile_table::{Book, Table};
use sc_entry::{ByteText, FileObjectSource, Items, NoMemory, Text};
use sc_model::{RunAnswer, SingleCompileCommand};
use std::alloc::Global;
use std::marker::Model;

/// A workshop that answers by lines. The `i`th run under a key takes the key's `i`th line, and later ones take the last;
/// without a line it is a fault. A placing under a key fails where the key has a line on placings. Contracts see it as its
/// lines, what it did, and how often it failed.
#[derive(Drop)]
pub struct ScriptWorkshop {
    alloc: Global,
    /// The lines on runs, and the runs that were done.
    runs: Book<RunLine, RunAnswer>,
    refusals: Table<PlaceLine>,
    placings: Vec<Placement>,
    faults: u64,
}

impl Model for ScriptWorkshop {
    ghost use Rattle.sc_compile.specs.Shop.{Shop};

    ghost Value = { Shop };

    ghost view = { λ s. record { lines = s.runs.values; refusals = s.refusals; runs = s.runs.done; placings = s.placings.items; faults = s.faults } };
}

impl ScriptWorkshop {
    /// A workshop that did nothing yet.
    pub fn new(
        alloc: Global,
        lines: Vec<RunLine>,
        refusals: Vec<PlaceLine>,
    ) -> Result<ScriptWorkshop, NoMemory>
        ensures { IfOk result (λ s. s ≡ new_shop lines.items refusals.items) }
    {
        let runs = Book::new(alloc, lines)?;
        let refusals = Table::new(alloc, refusals)?;
        Ok(ScriptWorkshop {
            alloc,
            runs,
            refusals,
            placings: Vec::new(alloc),
            faults: 0,
        })
    }

    /// How many runs it did.
    pub fn run_count(&self) -> usize
        ensures { result ≡ length self.now.runs }
    {
        self.runs.done_count()
    }

    /// How many placings it did.
    pub fn placing_count(&self) -> usize
        ensures { result ≡ length self.now.placings }
    {
        self.placings.len()
    }

    fn answer(
        &self,
        alloc: Global,
        key: &Text,
        outputs: &[FileObjectSource],
    ) -> Result<RunAnswer, NoMemory>
        ensures value { IfOk result (λ a. a ≡ script_answer self.now.lines key.now self.now.runs outputs.now) }
        ensures good { IfOk result (λ a. is_good_answer a ≡ true) }
    {
        let bytes = ByteText::from_slice(alloc, key.as_bytes())?;
        match self.runs.next(&bytes) {
            None => no_answer(alloc, key),
            Some(line) => with_outputs(alloc, outputs, &line.answer),
        }
    }

    fn keep(&mut self, key: &Text, answer: &RunAnswer) -> Result<(), NoMemory>
        ensures ok { OnOk result (self.new ≡ after_run self.old key.now answer.now) }
        ensures later { self.old.faults ≤ self.new.faults }
        ensures err { OnErr result (self.new ≡ self.old) }
    {
        let key = ByteText::from_slice(self.alloc, key.as_bytes())?;
        self.runs.keep(&key, copied(answer)?)?;
        if is_fault(answer) {
            self.faults = self.faults.saturating_add(1);
        }
        Ok(())
    }

    /// Why the placings under a key fail, if they do.
    fn refusal(&self, alloc: Global, key: &Text) -> Result<Option<Items<Text>>, NoMemory>
        ensures value { IfOk result (λ refusal. refusal ≡ refusal_at self.now.refusals key.now) }
        ensures good { IfOk result (λ refusal. IfSome refusal (λ chain. is_chain chain ≡ true)) }
    {
        let key = ByteText::from_slice(alloc, key.as_bytes())?;
        match self.refusals.first(&key) {
            None => Ok(None),
            Some(line) => Ok(Some(line.chain.clone()?)),
        }
    }

    /// Counts a placing that failed.
    fn refuse(&mut self)
        ensures counted { self.new ≡ after_refusal self.old }
        ensures later { self.old.faults ≤ self.new.faults }
    {
        self.faults = self.faults.saturating_add(1);
    }

    fn keep_placing(
        &mut self,
        outputs: &[FileObjectSource],
        entry: &ByteText,
    ) -> Result<(), NoMemory>
        ensures ok { OnOk result (self.new ≡ after_placing self.old (record { outputs = outputs.now; bytes = entry.now })) }
        ensures err { OnErr result (self.new ≡ self.old) }
    {
        let outputs = Items::from_vec(outputs.to_vec(self.alloc)?);
        let entry = entry.try_clone()?;
        self.placings.push(Placement { outputs, entry })?;
        Ok(())
    }
}

impl Workshop for ScriptWorkshop {
    ghost runs = { λ s. Some s.runs };

    ghost placings = { λ s. Some s.placings };

    ghost lines = { λ s. Some s.lines };

    ghost refusals = { λ s. Some s.refusals };

    ghost fault_count = { λ s. s.faults };

    fn faults(&self) -> u64 {
        self.faults
    }

    fn run(
        &mut self,
        alloc: Global,
        key: &Text,
        _command: &SingleCompileCommand,
        outputs: &[FileObjectSource],
    ) -> Result<RunAnswer, NoMemory> {
        let answer = self.answer(alloc, key, outputs)?;
        self.keep(key, &answer)?;
        Ok(answer)
    }

    fn place(
        &mut self,
        alloc: Global,
        key: &Text,
        outputs: &[FileObjectSource],
        entry: &ByteText,
    ) -> Result<Option<Items<Text>>, NoMemory> {
        if let Some(chain) = self.refusal(alloc, key)? {
            self.refuse();
            return Ok(Some(chain));
        }
        self.keep_placing(outputs, entry)?;
        Ok(None)
    }
}
