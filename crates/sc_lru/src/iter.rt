//! The iterator that lends a cache's pairs.
ghost use Rattle.std.specs.Prelude.{◌≡◌, length, ⊤};
ghost use Rattle.std.specs.Iterator.{at_most};
ghost use Rattle.std.specs.Map.Iter.{TakesFirst, TakesLast, deref_pair};

use crate::node::Node;
use indexmap::IndexMap;
use std::alloc::AllocError;
use std::hash::{BuildHasher, Hash};
use std::iter::FusedIterator;
use std::marker::Model;

/// A cache's pairs, the least recently used first. A clause sees it as the pairs that are left.
#[derive(Drop)]
pub struct Iter<'a, K: Eq + Hash, V, S: BuildHasher> {
    map: &'a IndexMap<K, Node<V>, S>,
    front: usize,
    back: usize,
    left: usize,
}

impl<'a, K: Eq + Hash, V, S: BuildHasher> Model for Iter<'a, K, V, S> {
    ghost use Rattle.std.specs.Prelude.{List};
    ghost use Rattle.sc_lru.specs.Linked.{window, IsWindow};

    ghost Value = { List (K × V) };

    ghost view = { λ i. window i.map.now.entries i.front i.left };

    ghost invariant = { λ i. IsWindow i.map.now.entries i.front i.back i.left };
}

impl<'a, K: Eq + Hash, V, S: BuildHasher> Iter<'a, K, V, S> {
    ghost use Rattle.sc_lru.specs.Linked.{window, IsWindow};

    // The pairs at `left` positions, from `front` to `back`.
    pub(crate) fn new(
        map: &'a IndexMap<K, Node<V>, S>,
        front: usize,
        back: usize,
        left: usize,
    ) -> Self
        requires { IsWindow map.now.entries front back left }
        ensures { result ≡ window map.now.entries front left }
    {
        Iter {
            map,
            front,
            back,
            left,
        }
    }
}

impl<'a, K: Eq + Hash, V, S: BuildHasher> Iterator for Iter<'a, K, V, S> {
    type Item = (&'a K, &'a V);

    ghost next_gives = { TakesFirst deref_pair };

    ghost remaining = { λ s. at_most (length s) };

    fn next(&mut self) -> Option<(&'a K, &'a V)> {
        if self.left == 0 {
            return None;
        }
        let map = self.map;
        let (key, node) = map.get_index(self.front).unwrap();
        self.front = node.after;
        self.left -= 1;
        Some((key, &node.value))
    }

    fn size_hint(&self) -> (usize, Option<usize>) {
        let len = self.len();
        (len, Some(len))
    }
}

impl<'a, K: Eq + Hash, V, S: BuildHasher> DoubleEndedIterator for Iter<'a, K, V, S> {
    ghost next_back_gives = { TakesLast deref_pair };

    fn next_back(&mut self) -> Option<(&'a K, &'a V)> {
        if self.left == 0 {
            return None;
        }
        let map = self.map;
        let (key, node) = map.get_index(self.back).unwrap();
        self.back = node.before;
        self.left -= 1;
        Some((key, &node.value))
    }
}

impl<'a, K: Eq + Hash, V, S: BuildHasher> ExactSizeIterator for Iter<'a, K, V, S> {
    fn len(&self) -> usize {
        self.left
    }
}

impl<'a, K: Eq + Hash, V, S: BuildHasher> FusedIterator for Iter<'a, K, V, S> {}

impl<'a, K: Eq + Hash, V, S: BuildHasher> Clone for Iter<'a, K, V, S> {
    ghost is_clone = { λ s r. r ≡ s };

    ghost is_infallible = { λ _. ⊤ };

    fn clone(&self) -> Result<Iter<'a, K, V, S>, AllocError> {
        Ok(Iter {
            map: self.map,
            front: self.front,
            back: self.back,
            left: self.left,
        })
    }
}
