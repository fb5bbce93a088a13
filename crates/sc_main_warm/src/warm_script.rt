//! What a script of warm says.
use sc_entry::{Items, Text};
use sc_main_script::LevelRule;

/// What a script of warm says.
#[derive(Drop)]
pub struct WarmScript {
    /// The level whose entries are copied.
    pub from: LevelRule,
    /// The level that they are put into.
    pub to: LevelRule,
    /// The keys in the order of their lines, as often as they are listed. They need be no store keys.
    pub keys: Items<Text>,
}
