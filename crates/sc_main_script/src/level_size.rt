//! What a level holds.

/// What a level holds at the end of a drive.
#[derive(Clone, Copy)]
pub struct LevelSize {
    /// The bytes of all entries.
    pub bytes: u64,
    pub entries: u64,
}
