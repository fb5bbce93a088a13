//! The iterator that takes a cache's pairs out.
ghost use Rattle.std.specs.Prelude.{◌≡◌, length};
ghost use Rattle.std.specs.Iterator.{at_most};
ghost use Rattle.std.specs.Map.Iter.{GivesInOrder, GivesInReverse, TakesFirst, TakesLast};

use crate::cache::LruCache;
use crate::linked::Order;
use crate::meter::Meter;
use std::hash::{BuildHasher, Hash};
use std::iter::FusedIterator;
use std::marker::Model;

/// A cache's pairs by value, the least recently used first. A clause sees it as the pairs that are left.
#[derive(Drop)]
pub struct IntoIter<K: Eq + Hash, V, S: BuildHasher> {
    order: Order<K, V, S>,
}

impl<K: Eq + Hash, V, S: BuildHasher> Model for IntoIter<K, V, S> {
    ghost use Rattle.std.specs.Prelude.{List};

    ghost Value = { List (K × V) };

    ghost view = { λ i. i.order.entries };
}

impl<K: Eq + Hash, V, S: BuildHasher> IntoIter<K, V, S> {
    pub(crate) fn new(order: Order<K, V, S>) -> Self
        ensures { result ≡ order.entries }
    {
        IntoIter { order }
    }
}

impl<K: Eq + Hash + Drop, V: Drop, S: BuildHasher + Drop> Iterator for IntoIter<K, V, S> {
    type Item = (K, V);

    ghost next_gives = { TakesFirst (λ pair. pair) };

    ghost remaining = { λ s. at_most (length s) };

    fn next(&mut self) -> Option<(K, V)> {
        self.order.pop_first()
    }

    fn size_hint(&self) -> (usize, Option<usize>) {
        let len = self.len();
        (len, Some(len))
    }
}

impl<K: Eq + Hash + Drop, V: Drop, S: BuildHasher + Drop> DoubleEndedIterator
    for IntoIter<K, V, S> {
    ghost next_back_gives = { TakesLast (λ pair. pair) };

    fn next_back(&mut self) -> Option<(K, V)> {
        self.order.pop_last()
    }
}

impl<K: Eq + Hash + Drop, V: Drop, S: BuildHasher + Drop> ExactSizeIterator for IntoIter<K, V, S> {
    fn len(&self) -> usize {
        self.order.len()
    }
}

impl<K: Eq + Hash + Drop, V: Drop, S: BuildHasher + Drop> FusedIterator for IntoIter<K, V, S> {}

impl<K: Eq + Hash + Drop, V: Drop, S: BuildHasher + Drop, M: Meter<K, V> + Drop> IntoIterator
    for LruCache<K, V, S, M> {
    type Item = (K, V);

    type IntoIter = IntoIter<K, V, S>;

    ghost into_iter_gives = { λ c r. (r ≡ c.entries) × GivesInOrder (K × V) × GivesInReverse (K × V) };

    fn into_iter(self) -> IntoIter<K, V, S> {
        IntoIter::new(self.into_order())
    }
}
