use crate::byte_text::ByteText;

/// What a look-up of the file that a key's entry stands in gave.
#[derive(Drop)]
pub enum GetPathResult {
    /// The file's path.
    Found(ByteText),
    /// No entry was there.
    Miss,
    /// The store keeps no files.
    Unsupported,
}
