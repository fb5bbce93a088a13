//! What a script says of a level.
use sc_entry::{ByteText, CacheMode, Items, Text};
use sc_model::LevelKind;

/// What a script says of a level.
#[derive(Drop)]
pub struct LevelRule {
    pub kind: LevelKind,
    /// How many bytes a disk level may hold; 0 at a remote one.
    pub capacity: u64,
    pub mode: CacheMode,
    /// What it holds at the start, each key once, in the order of the lines.
    pub holds: Items<(Text, ByteText)>,
    /// The numbers of the calls on its device that fail, counted from 1; a 0 is without effect.
    pub fails: Items<u64>,
}
