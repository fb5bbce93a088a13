//! An order of use whose map keeps its pairs in that order: a use shifts those behind it. The tests compare the linked order with it.
ghost use Rattle.std.specs.Prelude.{◌≡◌, ◌+◌, ◌<◌, ◌≤◌, [], ◌∷◌, ◌++◌, None, drop, is_some, slice_get, OnOk, IsOk};
ghost use Rattle.std.specs.Map.{lookup, lookup_entry, remove_entry};
ghost use Rattle.sc_lru.specs.Order.{touched, KeepsRoom};

use indexmap::IndexMap;
use indexmap::map::Iter;
use std::alloc::{AllocError, Global};
use std::hash::{BuildHasher, Hash};
use std::marker::Model;

/// Pairs in the order of their use, the least recently used first.
#[derive(Drop)]
pub(crate) struct Order<K: Eq + Hash, V, S: BuildHasher> {
    map: IndexMap<K, V, S>,
}

impl<K: Eq + Hash, V, S: BuildHasher> Model for Order<K, V, S> {
    ghost use Rattle.std.specs.List.{IsDistinct};
    ghost use Rattle.std.specs.Map.{keys_of};
    ghost use Rattle.indexmap.specs.IndexMap.{hasher_of, spare};
    ghost use Rattle.sc_lru.specs.Order.{Order as Pairs, order, order_code};

    ghost Value = { Pairs K V S };

    ghost coded = { order_code K.code V.code S.code };

    ghost view = { λ o. order o.map.entries (keys_of o.map.entries) (hasher_of o.map) (spare o.map) };

    ghost invariant = { λ o. IsDistinct K.eq (keys_of o.map.entries) };
}

impl<K: Eq + Hash, V, S: BuildHasher> Order<K, V, S> {
    /// An empty order.
    pub fn new(alloc: Global, hash_builder: S) -> Self
        ensures empty { result.entries ≡ [] }
        ensures hasher { result.hasher ≡ hash_builder }
    {
        Order {
            map: IndexMap::with_hasher(alloc, hash_builder),
        }
    }

    /// The pairs in their order.
    pub fn iter(&self) -> Iter<'_, K, V>
        ensures { result ≡ self.now.entries }
    {
        self.map.iter()
    }

    /// Makes the key's pair the last, and says whether there is one.
    pub fn touch(&mut self, key: &K) -> bool
        ensures found { result ≡ is_some (lookup (K.eq key.now) self.old.entries) }
        ensures entries { self.new.entries ≡ touched (K.eq key.now) self.old.entries }
        ensures room { KeepsRoom self.old self.new }
    {
        match self.map.get_index_of(key) {
            Some(i) => {
                let last = self.map.len() - 1;
                self.map.move_index(i, last);
                true
            }
            None => false,
        }
    }

    /// Takes the key's pair out.
    pub fn remove_entry(&mut self, key: &K) -> Option<(K, V)>
        ensures value { result ≡ lookup_entry (K.eq key.now) self.old.entries }
        ensures entries { self.new.entries ≡ remove_entry (K.eq key.now) self.old.entries }
        ensures absent { lookup (K.eq key.now) self.new.entries ≡ None }
        ensures room { KeepsRoom self.old self.new }
    {
        self.map.shift_remove_entry(key)
    }

    /// Takes the first pair out.
    pub fn pop_first(&mut self) -> Option<(K, V)>
        ensures value { result ≡ slice_get self.old.entries 0 }
        ensures entries { self.new.entries ≡ drop 1 self.old.entries }
        ensures room { KeepsRoom self.old self.new }
    {
        self.map.shift_remove_index(0)
    }

    /// Takes all pairs out.
    pub fn clear(&mut self)
    where
        K: Drop,
        V: Drop,
        ensures empty { self.new.entries ≡ [] }
        ensures room { KeepsRoom self.old self.new }
    {
        self.map.clear();
    }

    /// Makes room for more pairs.
    pub fn reserve(&mut self, additional: usize) -> Result<(), AllocError>
        ensures entries { self.new.entries ≡ self.old.entries }
        ensures ok { OnOk result (additional ≤ self.new.spare) }
        ensures succeeds { additional ≤ self.old.spare → IsOk result }
        ensures room { KeepsRoom self.old self.new }
    {
        self.map.reserve(additional)
    }
}

impl<K: Eq + Hash + Drop, V: Drop, S: BuildHasher> Order<K, V, S> {
    /// Puts a new pair last.
    pub fn push_last(&mut self, key: K, value: V)
        requires absent { lookup (K.eq key) self.old.entries ≡ None }
        requires room { 0 < self.old.spare }
        ensures entries { self.new.entries ≡ self.old.entries ++ (key, value) ∷ [] }
        ensures spare { self.old.spare ≤ self.new.spare + 1 }
        ensures hasher { self.new.hasher ≡ self.old.hasher }
    {
        self.map.insert(key, value).unwrap();
    }
}
