//! What the cache is to do with a compile.

/// Whether the run of a command may be stored.
#[derive(Clone, Copy, Debug, Drop, PartialEq, Eq)]
pub enum Cacheable {
    Yes,
    No,
}

/// What a compile asks of the cache.
#[derive(Clone, Copy, Debug, Drop, PartialEq, Eq)]
pub enum CacheControl {
    /// It is looked up, and what is run is stored.
    Default,
    /// No lookup, and nothing is stored.
    ForceNoCache,
    /// No lookup, but what is run is stored.
    ForceRecache,
}
