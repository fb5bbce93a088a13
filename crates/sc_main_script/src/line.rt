//! What a line of a script says.
use crate::job_rule::JobRule;
use crate::place_rule::PlaceRule;
use crate::policies::PolicyName;
use crate::run_rule::RunRule;
use sc_compile::{KeyLine, Tool};
use sc_entry::{ByteText, CacheMode, Text};
use sc_model::{LevelKind, LevelPolicy, Request};

/// A level, with its own policy where the line ends in one.
#[derive(Clone, Copy)]
pub struct LevelLine {
    pub kind: LevelKind,
    /// How many bytes a disk level may hold; 0 at a remote one.
    pub capacity: u64,
    pub mode: CacheMode,
    pub policy: Option<LevelPolicy>,
}

/// What a level holds at the start.
#[derive(Drop)]
pub struct HoldLine {
    /// The level's number, counted from 0.
    pub level: u64,
    pub key: Text,
    pub bytes: ByteText,
}

/// A line of a script.
#[derive(Drop)]
pub enum Line {
    Version,
    Connections(u64),
    Tokens(u64),
    Limit(u64),
    Policy(PolicyName),
    Level(LevelLine),
    Hold(HoldLine),
    /// The call on a level's device that fails.
    Fail { level: u64, call: u64 },
    Tool(Tool),
    Run(RunRule),
    /// Why the key steps of a key give none.
    KeyStep(KeyLine),
    Place(PlaceRule),
    Job(JobRule),
    /// Bytes that come on a connection.
    Bytes { connection: u64, bytes: ByteText },
    /// A request that comes on a connection.
    Ask { connection: u64, request: Request },
    Read { connection: u64, most: u64 },
    Serve { connection: u64, times: u64 },
    /// A step at a write in the background.
    Back(u64),
    /// A step that lets so many nanoseconds pass.
    Pass(u64),
}
