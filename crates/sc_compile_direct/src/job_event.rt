//! What a job does.

use sc_model::What;

/// An event of a job, and when it was.
#[derive(Drop)]
pub struct JobEvent {
    pub moment: u64,
    pub what: What,
}
