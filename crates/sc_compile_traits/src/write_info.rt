//! What is told of a write.

use sc_entry::ByteText;

/// What is told of a compile's write to the cache.
#[derive(Debug, Drop)]
pub struct CacheWriteInfo {
    /// The compile's first output as it is shown.
    pub object_file_pretty: ByteText,
    /// How long the write took, in nanoseconds.
    pub duration: u64,
}
