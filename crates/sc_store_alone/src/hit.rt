//! What a lookup found.
use sc_entry::ByteText;

/// What a lookup over levels found, and at which level.
#[derive(Drop)]
pub struct Hit {
    pub level: u64,
    pub bytes: ByteText,
    /// Whether a run of this daemon made the bytes.
    pub mark: bool,
}
