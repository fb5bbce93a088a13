use sc_entry::CacheMode;

/// A disk store, as a configuration says it.
#[derive(Drop)]
pub struct DiskConfig<D> {
    /// The disk of entries.
    pub main: D,
    /// The disk of preprocessor entries.
    pub pre: D,
    /// The most bytes that the files of both disks may take together.
    pub max_size: u64,
    /// Whether the store is to keep entries of the preprocessor.
    pub use_preprocessor_cache_mode: bool,
    pub mode: CacheMode,
}
