//! The iterator that lends a cache's pairs, their values to write.
use crate::cache::LruCache;
use crate::meter::Count;
use std::hash::{BuildHasher, Hash};

/// A cache's pairs, the least recently used first, each value by `&mut`. It lends one pair at a time, from either end.
///
/// It has no model, so that a contract can follow the loan: a clause sees the cache as `cache.now`, and the pairs that are left as `rest`.
/// For the same reason `next` lends a pair's value alone, and `key` tells the key before: a contract can't follow a `&mut` in a pair
/// or a struct that stands in an `Option`.
#[derive(Drop)]
pub struct IterMut<'a, K: Eq + Hash, V, S: BuildHasher> {
    cache: &'a mut LruCache<K, V, S, Count>,
    // The positions of the first pair that is left, and of the last.
    front: usize,
    back: usize,
    // How many pairs were lent in front, and how many are left.
    lent: usize,
    left: usize,
}

impl<K: Eq + Hash, V, S: BuildHasher> LruCache<K, V, S, Count> {
    ghost use Rattle.std.specs.Prelude.{◌≡◌};
    ghost use Rattle.sc_lru.specs.IterMut.{rest, IsReady};

    /// The pairs, the least recently used first, each value to write. The order stays.
    ///
    /// A cache with another meter has none, since a write could change a measure.
    pub fn iter_mut(&mut self) -> IterMut<'_, K, V, S>
        ensures same_reference { result.cache.ghost_name ≡ self.entry.ghost_name }
        ensures cache { result.cache.now ≡ self.old }
        ensures rest { rest result ≡ self.old.entries }
        ensures ready { IsReady K.eq result }
    {
        let left = self.len();
        let (front, back) = self.ends();
        IterMut {
            cache: self,
            front,
            back,
            lent: 0,
            left,
        }
    }
}

impl<'a, K: Eq + Hash, V, S: BuildHasher> IterMut<'a, K, V, S> {
    ghost use Rattle.std.specs.Prelude.{◌≡◌, ◌-◌, ◌<◌, ◌↔◌, drop, length, option_copied, slice_get, take, IfSome, IsSome};
    ghost use Rattle.std.specs.Borrow.{sem};
    ghost use Rattle.std.specs.Map.{keys_of};
    ghost use Rattle.std.specs.Option.{option_copied_mut, option_map};
    ghost use Rattle.sc_lru.specs.IterMut.{first_written, last_written, lends_first, lends_last, rest, IsReady};

    /// The value of the first pair that is left, which `key` tells before.
    pub fn next(&mut self) -> Option<&mut V>
        requires { IsReady K.eq self.old }
        ensures* writes_back { sem 𝓛 (lends_first K.row V.row S.row S.Hasher.row K.Hash S.BuildHasher S.Hasher.Hasher self.entry result) }
        ensures some { IsSome result ↔ (0 < length (rest self.old)) }
        ensures value { option_copied_mut result ≡ option_map (λ e. e.1) (slice_get (rest self.old) 0) }
        ensures ready { IfSome result (λ _. (v : V) → IsReady K.eq (first_written K.eq self.old v)) }
        ensures rest { IfSome result (λ _. (v : V) → rest (first_written K.eq self.old v) ≡ drop 1 (rest self.old)) }
    {
        if self.left == 0 {
            return None;
        }
        let at = self.front;
        self.front = self.cache.position_after(at);
        self.lent += 1;
        self.left -= 1;
        let (_, value) = self.cache.pair_mut(at);
        Some(value)
    }

    /// The value of the last pair that is left, which `key_back` tells before.
    pub fn next_back(&mut self) -> Option<&mut V>
        requires { IsReady K.eq self.old }
        ensures* writes_back { sem 𝓛 (lends_last K.row V.row S.row S.Hasher.row K.Hash S.BuildHasher S.Hasher.Hasher self.entry result) }
        ensures some { IsSome result ↔ (0 < length (rest self.old)) }
        ensures value { option_copied_mut result ≡ option_map (λ e. e.1) (slice_get (rest self.old) (length (rest self.old) - 1)) }
        ensures ready { IfSome result (λ _. (v : V) → IsReady K.eq (last_written K.eq self.old v)) }
        ensures rest { IfSome result (λ _. (v : V) → rest (last_written K.eq self.old v) ≡ take (length (rest self.old) - 1) (rest self.old)) }
    {
        if self.left == 0 {
            return None;
        }
        let at = self.back;
        self.back = self.cache.position_before(at);
        self.left -= 1;
        let (_, value) = self.cache.pair_mut(at);
        Some(value)
    }

    /// The key of the first pair that is left.
    pub fn key(&self) -> Option<&K>
        requires { IsReady K.eq self.now }
        ensures { option_copied result ≡ slice_get (keys_of (rest self.now)) 0 }
    {
        if self.left == 0 {
            return None;
        }
        self.cache.key_at(self.front)
    }

    /// The key of the last pair that is left.
    pub fn key_back(&self) -> Option<&K>
        requires { IsReady K.eq self.now }
        ensures { option_copied result ≡ slice_get (keys_of (rest self.now)) (length (rest self.now) - 1) }
    {
        if self.left == 0 {
            return None;
        }
        self.cache.key_at(self.back)
    }

    /// The number of pairs that are left.
    pub fn len(&self) -> usize
        requires { IsReady K.eq self.now }
        ensures { result ≡ length (rest self.now) }
    {
        self.left
    }
}
