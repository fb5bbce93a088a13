//! The debug text of a cache.
use crate::cache::LruCache;
use crate::meter::Meter;
use std::fmt;
use std::hash::{BuildHasher, Hash};

/// As a map, the most recently used pair first.
impl<K: Eq + Hash + fmt::Debug, V: fmt::Debug, S: BuildHasher, M: Meter<K, V>> fmt::Debug
    for LruCache<K, V, S, M> {
    fn fmt<W: fmt::Write>(&self, f: &mut fmt::Formatter<W>) -> fmt::Result {
        f.debug_map().entries(self.iter().rev()).finish()
    }
}
