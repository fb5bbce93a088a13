//! Inserts in order.
use crate::cache::LruCache;
use crate::meter::Meter;
use std::alloc::AllocError;
use std::hash::{BuildHasher, Hash};

impl<K: Eq + Hash + Drop, V: Drop, S: BuildHasher, M: Meter<K, V>> Extend<(K, V)>
    for LruCache<K, V, S, M> {
    ghost use Rattle.sc_lru.specs.LruCache.{Extends};

    ghost extend_gives = { Extends M.measure K.eq };

    // For want of memory the pairs before the one that found none are there, and it and those behind it are gone.
    fn extend<I: IntoIterator<Item = (K, V)>>(&mut self, iter: I) -> Result<(), AllocError> {
        let mut rest = iter.into_iter();
        while let Some(pair) = rest.next() {
            let (key, value) = pair;
            self.insert(key, value)?;
        }
        Ok(())
    }
}
