//! What a script says of runs.
use sc_entry::Text;
use sc_model::RunAnswer;

/// What the runs under a key answer, as a line of a script says it.
#[derive(Drop)]
pub struct RunRule {
    pub key: Text,
    pub answer: RunAnswer,
}
