//! What a script says.
use crate::job_rule::JobRule;
use crate::level_rule::LevelRule;
use crate::place_rule::PlaceRule;
use crate::run_rule::RunRule;
use sc_compile::{KeyLine, Tool};
use sc_entry::{ByteText, Items};
use sc_model::{Policy, Step};

/// What a good script says.
#[derive(Drop)]
pub struct Script {
    /// The bytes that come on each connection.
    pub inputs: Items<ByteText>,
    pub tokens: u64,
    /// How many bytes a frame's payload may have.
    pub limit: u64,
    /// How the levels are written.
    pub policy: Policy,
    /// The levels in their order.
    pub levels: Items<LevelRule>,
    pub tools: Items<Tool>,
    pub runs: Items<RunRule>,
    /// Why key steps give no key.
    pub keys: Items<KeyLine>,
    /// Why placings fail.
    pub places: Items<PlaceRule>,
    /// What distributed jobs come to. Where there is none there is no distributed client.
    pub jobs: Items<JobRule>,
    /// Each step by itself: a line with a count stands for so many.
    pub steps: Items<Step>,
}

/// Why a script could not be read.
#[derive(Clone, Copy, Debug, Drop, PartialEq, Eq)]
pub enum ScriptError {
    Memory,
    /// The number of the first bad line, counted from 1.
    Bad(u64),
}
