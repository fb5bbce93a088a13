//! What a script says of runs.

ghost use Rattle.std.specs.Prelude.{◌≡◌, true, IfOk};
ghost use Rattle.sc_model.specs.GoodNames.{is_good_answer};

use sc_compile_table::Keyed;
use sc_entry::{ByteText, NoMemory};
use sc_model::{RunAnswer, is_good_answer};
use std::alloc::Global;

/// A line of a script that says what a run under a key answers. Its objects are fewer than 65,533, with distinct names of
/// 1 to 65,535 bytes, none `stdout` or `stderr`; a chain has at least one text.
#[derive(Drop)]
pub struct RunLine {
    pub key: ByteText,
    pub answer: RunAnswer,
    pub ghost good: { is_good_answer answer ≡ true },
}

impl Keyed for RunLine {
    ghost key = { λ l. l.key };

    fn key(&self) -> &ByteText {
        &self.key
    }
}

impl RunLine {
    ghost use Rattle.sc_compile.specs.Lines.{make_line};

    /// The line, where its answer is one that a workshop may give.
    pub fn new(alloc: Global, key: ByteText, answer: RunAnswer) -> Result<Option<RunLine>, NoMemory>
        ensures { IfOk result (λ line. line ≡ make_line key answer) }
    {
        if is_good_answer(alloc, &answer)? {
            Ok(Some(RunLine { key, answer }))
        } else {
            Ok(None)
        }
    }
}
