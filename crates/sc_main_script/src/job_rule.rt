//! What a script says of distributed jobs.
use sc_entry::Text;
use sc_model::DistAnswer;

/// What the distributed jobs under a key come to, as a line of a script says it.
#[derive(Drop)]
pub struct JobRule {
    pub key: Text,
    pub answer: DistAnswer,
}

/// The words for what a distributed job comes to.
#[derive(Clone, Copy)]
pub enum JobOutcome {
    Done,
    Http,
    Large,
    Other,
}
