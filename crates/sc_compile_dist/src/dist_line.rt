//! What a script says of jobs that are distributed.

ghost use Rattle.std.specs.Prelude.{◌≡◌, true};
ghost use Rattle.sc_compile_dist.specs.GoodJobs.{is_good_dist};

use sc_compile_table::Keyed;
use sc_entry::ByteText;
use sc_model::DistAnswer;

/// A line of a script that says what a distributed job under a key comes to. Its objects are fewer than 65,533, with distinct
/// names of 1 to 65,535 bytes, none `stdout` or `stderr`; a chain has at least one text.
#[derive(Drop)]
pub struct DistLine {
    pub key: ByteText,
    pub answer: DistAnswer,
    pub ghost good: { is_good_dist answer ≡ true },
}

impl Keyed for DistLine {
    ghost key = { λ l. l.key };

    fn key(&self) -> &ByteText {
        &self.key
    }
}
