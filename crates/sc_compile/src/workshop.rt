//! What runs compilers.

ghost use Rattle.std.specs.Prelude.{◌≡◌, ◌≤◌, IfOk, OnOk, List, ℕ, Option, true};
ghost use Rattle.sc_entry.specs.Causes.{IfTold};
ghost use Rattle.sc_model.specs.Levels.{and_one};
ghost use Rattle.sc_model.specs.World.{Place, RunCause};
ghost use Rattle.sc_model.specs.declared.event.RunAnswer.{RunAnswer};
ghost use Rattle.sc_compile.specs.Answers.{told_answer};
ghost use Rattle.sc_model.specs.GoodNames.{is_good_answer};
ghost use Rattle.sc_compile.specs.Placings.{Places, told_refusal};
ghost use Rattle.sc_compile.specs.declared.place_line.PlaceLine.{PlaceLine};
ghost use Rattle.sc_compile.specs.declared.run_line.RunLine.{RunLine};

use sc_entry::{ByteText, FileObjectSource, Items, NoMemory, Text};
use sc_model::{RunAnswer, SingleCompileCommand};
use std::alloc::Global;

/// What runs compilers, and places what an entry holds.
pub trait Workshop {
    /// The runs that it did, with their keys and answers, where it tells them.
    ghost runs: { Self → Option (List (List ℕ × RunAnswer)) };

    /// The placings that it did, where it tells them.
    ghost placings: { Self → Option (List Place) };

    /// The lines that it answers by, where it tells them.
    ghost lines: { Self → Option (List RunLine) };

    /// The lines by which it refuses placings, where it tells them.
    ghost refusals: { Self → Option (List PlaceLine) };

    /// How often it has failed.
    ghost fault_count: { Self → ℕ };

    /// How often it has failed. The count stops at the end of `u64`.
    fn faults(&self) -> u64
        ensures { result ≡ fault_count self.now };

    /// Runs a command under a key, and collects its outputs. A fault, or a chain of texts in place of the objects, comes
    /// only where the count rose. The objects are fewer than 65,533, with distinct names of 1 to 65,535 bytes of UTF-8,
    /// none `stdout` or `stderr`; a chain has at least one text.
    fn run(
        &mut self,
        alloc: Global,
        key: &Text,
        command: &SingleCompileCommand,
        outputs: &[FileObjectSource],
    ) -> Result<RunAnswer, NoMemory>
        ensures runs { IfOk result (λ a. runs self.new ≡ and_one (runs self.old) (key.now, a)) }
        ensures placings { OnOk result (placings self.new ≡ placings self.old) }
        ensures lines { OnOk result (lines self.new ≡ lines self.old) }
        ensures refusals { OnOk result (refusals self.new ≡ refusals self.old) }
        ensures later { fault_count self.old ≤ fault_count self.new }
        ensures cause { IfOk result (λ a. RunCause a (fault_count self.old) (fault_count self.new)) }
        ensures good { IfOk result (λ a. is_good_answer a ≡ true) }
        ensures answer { IfOk result (λ a. IfTold (told_answer (lines self.old) key.now (runs self.old) outputs.now) (λ b. a ≡ b)) };

    /// Places an entry's objects at the outputs' paths. `None` is done; else it is a fault's chain of texts.
    fn place(
        &mut self,
        alloc: Global,
        key: &Text,
        outputs: &[FileObjectSource],
        entry: &ByteText,
    ) -> Result<Option<Items<Text>>, NoMemory>
        ensures runs { OnOk result (runs self.new ≡ runs self.old) }
        ensures lines { OnOk result (lines self.new ≡ lines self.old) }
        ensures refusals { OnOk result (refusals self.new ≡ refusals self.old) }
        ensures later { fault_count self.old ≤ fault_count self.new }
        ensures placings { IfOk result (λ p. Places (record { outputs = outputs.now; bytes = entry.now }) (placings self.old) (placings self.new) (fault_count self.old) (fault_count self.new) p) }
        ensures answer { IfOk result (λ p. IfTold (told_refusal (refusals self.old) key.now) (λ refusal. p ≡ refusal)) };
}
