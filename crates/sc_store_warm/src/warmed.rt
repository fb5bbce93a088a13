//! What became of a key.
use sc_store_alone::StorageError;

/// What became of a key whose entry was to be copied from one store into another.
#[derive(Drop)]
pub enum Warmed {
    /// The source's entry, of so many bytes, was put under the key.
    Copied(u64),
    /// The source has nothing under the key.
    Absent,
    /// The source's bytes spell no entry. They were not put.
    Torn,
    /// The source refused to be read, for this cause. Nothing was put.
    FromRefused(StorageError),
    /// The target refused the entry, for this cause.
    ToRefused(StorageError),
}
