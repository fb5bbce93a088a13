use crate::cache_read::CacheRead;
use std::fmt;
use std::fmt::{Debug, Formatter, Write};

/// What a look-up in a store gave.
#[derive(Drop)]
pub enum Cache {
    /// The entry was there.
    Hit(CacheRead),
    /// No entry was there.
    Miss,
    /// Entries aren't to be looked up.
    None,
    /// The entry is to be made anew.
    Recache,
}

impl Debug for Cache {
    fn fmt<W: Write>(&self, f: &mut Formatter<W>) -> fmt::Result {
        match self {
            Cache::Hit(_) => f.write_str("Cache::Hit(...)"),
            Cache::Miss => f.write_str("Cache::Miss"),
            Cache::None => f.write_str("Cache::None"),
            Cache::Recache => f.write_str("Cache::Recache"),
        }
    }
}
