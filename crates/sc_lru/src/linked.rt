//! An order of use whose pairs are linked by their positions: a use changes links alone.
ghost use Rattle.std.specs.Prelude.{◌≡◌, ℕ, ◌+◌, ◌-◌, ◌<◌, ◌≤◌, [], ◌∷◌, ◌++◌, None, Some, length, drop, is_some, position, slice_get, option_copied, IfNone, IfSome, OnOk, IsOk};
ghost use Rattle.std.specs.List.{IsDistinct};
ghost use Rattle.std.specs.Map.{keys_of, lookup, lookup_entry, remove_entry};
ghost use Rattle.std.specs.Option.{option_copied_mut, option_map};
ghost use Rattle.std.specs.Map.Iter.{deref_pair, TakesLast};
ghost use Rattle.sc_lru.specs.Order.{position_at, touched, vacated, vacated_first, with_entries, written_at, IsPosition, KeepsRoom};
ghost use Rattle.indexmap.specs.IndexMap.{set_value_at};

use crate::iter::Iter;
use crate::links::{link, move_last, take};
use crate::node::Node;
use indexmap::IndexMap;
use std::alloc::{AllocError, Global};
use std::hash::{BuildHasher, Hash};
use std::marker::Model;

/// Pairs in the order of their use, the least recently used first.
#[derive(Drop)]
pub(crate) struct Order<K: Eq + Hash, V, S: BuildHasher> {
    map: IndexMap<K, Node<V>, S>,
    first: usize,
    last: usize,
}

impl<K: Eq + Hash, V, S: BuildHasher> Model for Order<K, V, S> {
    ghost use Rattle.std.specs.Map.{keys_of};
    ghost use Rattle.indexmap.specs.IndexMap.{hasher_of, spare};
    ghost use Rattle.sc_lru.specs.Order.{Order as Pairs, order, order_code};
    ghost use Rattle.sc_lru.specs.Linked.{pairs_of, IsLinked};

    ghost Value = { Pairs K V S };

    ghost coded = { order_code K.code V.code S.code };

    ghost view = { λ o. order (pairs_of o.map.entries o.first) (keys_of o.map.entries) (hasher_of o.map) (spare o.map) };

    ghost invariant = { λ o. IsLinked K.eq o.map.entries o.first o.last };
}

impl<K: Eq + Hash, V, S: BuildHasher> Order<K, V, S> {
    /// An empty order, which allocates nothing until its first pair.
    pub fn new(alloc: Global, hash_builder: S) -> Self
        ensures empty { result.entries ≡ [] }
        ensures slots { result.slots ≡ [] }
        ensures hasher { result.hasher ≡ hash_builder }
    {
        let map = IndexMap::with_hasher(alloc, hash_builder);
        Order {
            map,
            first: 0,
            last: 0,
        }
    }

    /// The number of pairs.
    pub fn len(&self) -> usize
        ensures len { result ≡ length self.now.entries }
        ensures slots { result ≡ length self.now.slots }
        ensures distinct { IsDistinct K.eq (keys_of self.now.entries) }
    {
        let _ = &self.first;
        self.map.len()
    }

    /// Whether the key has a pair.
    pub fn contains_key(&self, key: &K) -> bool
        ensures { result ≡ is_some (lookup (K.eq key.now) self.now.entries) }
    {
        self.map.contains_key(key)
    }

    /// The key's position in the table.
    pub fn position_of(&self, key: &K) -> Option<usize>
        ensures position { result ≡ position (K.eq key.now) self.now.slots }
        ensures found { is_some result ≡ is_some (lookup (K.eq key.now) self.now.entries) }
        ensures within { IfSome result (λ at. at < length self.now.entries) }
    {
        self.map.get_index_of(key)
    }

    /// The pairs in their order.
    pub fn iter(&self) -> Iter<'_, K, V, S>
        ensures { result ≡ self.now.entries }
    {
        let left = self.map.len();
        Iter::new(&self.map, self.first, self.last, left)
    }

    /// Makes the key's pair the last, and says whether there is one.
    pub fn touch(&mut self, key: &K) -> bool
        ensures found { result ≡ is_some (lookup (K.eq key.now) self.old.entries) }
        ensures order { self.new ≡ with_entries self.old (touched (K.eq key.now) self.old.entries) }
    {
        let Some(at) = self.map.get_index_of(key) else {
            return false;
        };
        self.first = move_last(&mut self.map, self.first, self.last, at);
        self.last = at;
        true
    }

    /// Takes the key's pair out. The pair at the last position comes to its position.
    pub fn remove_entry(&mut self, key: &K) -> Option<(K, V)>
        ensures value { result ≡ lookup_entry (K.eq key.now) self.old.entries }
        ensures entries { self.new.entries ≡ remove_entry (K.eq key.now) self.old.entries }
        ensures slots { self.new.slots ≡ vacated (K.eq key.now) self.old.slots }
        ensures absent { lookup (K.eq key.now) self.new.entries ≡ None }
        ensures missing { IfNone result (self.new ≡ self.old) }
        ensures room { KeepsRoom self.old self.new }
    {
        let Some(at) = self.map.get_index_of(key) else {
            return None;
        };
        let (first, last, key, value) = take(&mut self.map, self.first, self.last, at);
        self.first = first;
        self.last = last;
        Some((key, value))
    }

    /// Takes the first pair out. The pair at the last position comes to its position.
    pub fn pop_first(&mut self) -> Option<(K, V)>
        ensures value { result ≡ slice_get self.old.entries 0 }
        ensures entries { self.new.entries ≡ drop 1 self.old.entries }
        ensures slots { self.new.slots ≡ vacated_first K.eq self.old.entries self.old.slots }
        ensures missing { IfNone result (self.new ≡ self.old) }
        ensures room { KeepsRoom self.old self.new }
    {
        let at = self.first;
        if self.map.len() == 0 {
            return None;
        }
        let (first, last, key, value) = take(&mut self.map, at, self.last, at);
        self.first = first;
        self.last = last;
        Some((key, value))
    }

    /// Takes the last pair out.
    pub fn pop_last(&mut self) -> Option<(K, V)>
        ensures last { TakesLast (λ pair. pair) self.old.entries result self.new.entries }
        ensures room { KeepsRoom self.old self.new }
    {
        let at = self.last;
        if self.map.len() == 0 {
            return None;
        }
        let (first, last, key, value) = take(&mut self.map, self.first, at, at);
        self.first = first;
        self.last = last;
        Some((key, value))
    }

    /// The first pair. The order stays.
    pub fn first(&self) -> Option<(&K, &V)>
        ensures { option_map deref_pair result ≡ slice_get self.now.entries 0 }
    {
        let at = self.first;
        match self.map.get_index(at) {
            Some((key, node)) => Some((key, &node.value)),
            None => None,
        }
    }

    /// The positions of the first pair and of the last.
    pub fn ends(&self) -> (usize, usize)
        ensures first { result.0 ≡ position_at K.eq self.now.entries self.now.slots 0 }
        ensures last { result.1 ≡ position_at K.eq self.now.entries self.now.slots (length self.now.entries - 1) }
    {
        let (first, last) = (self.first, self.last);
        if self.map.len() == 0 {
            return (0, 0);
        }
        (first, last)
    }

    /// The position of the pair behind the one at `at`, and 0 behind the last.
    pub fn position_after(&self, at: usize) -> usize
        requires { IsPosition K.eq self.now.entries self.now.slots at }
        ensures { (i : ℕ) → i < length self.now.entries → at ≡ position_at K.eq self.now.entries self.now.slots i → result ≡ position_at K.eq self.now.entries self.now.slots (i + 1) }
    {
        if at == self.last {
            return 0;
        }
        self.map[at].after
    }

    /// The position of the pair before the one at `at`, and that one's before the first.
    pub fn position_before(&self, at: usize) -> usize
        requires { IsPosition K.eq self.now.entries self.now.slots at }
        ensures { (i : ℕ) → i < length self.now.entries → at ≡ position_at K.eq self.now.entries self.now.slots i → result ≡ position_at K.eq self.now.entries self.now.slots (i - 1) }
    {
        if at == self.first {
            return at;
        }
        self.map[at].before
    }

    /// The key at a position.
    pub fn key_at(&self, at: usize) -> Option<&K>
        ensures { (i : ℕ) → i < length self.now.entries → at ≡ position_at K.eq self.now.entries self.now.slots i → option_copied result ≡ slice_get (keys_of self.now.entries) i }
    {
        let _ = &self.first;
        match self.map.get_index(at) {
            Some((key, _)) => Some(key),
            None => None,
        }
    }

    /// Makes room for more pairs.
    pub fn reserve(&mut self, additional: usize) -> Result<(), AllocError>
        ensures entries { self.new.entries ≡ self.old.entries }
        ensures slots { self.new.slots ≡ self.old.slots }
        ensures ok { OnOk result (additional ≤ self.new.spare) }
        ensures succeeds { additional ≤ self.old.spare → IsOk result }
        ensures room { KeepsRoom self.old self.new }
    {
        self.map.reserve(additional)
    }

    /// Takes all pairs out.
    pub fn clear(&mut self)
    where
        K: Drop,
        V: Drop,
        ensures empty { self.new.entries ≡ [] }
        ensures slots { self.new.slots ≡ [] }
        ensures room { KeepsRoom self.old self.new }
    {
        self.map.clear();
        self.first = 0;
        self.last = 0;
    }
}

impl<K: Eq + Hash + Drop, V: Drop, S: BuildHasher> Order<K, V, S> {
    /// Puts a new pair last, at the position behind all others.
    pub fn push_last(&mut self, key: K, value: V)
        requires absent { lookup (K.eq key) self.old.entries ≡ None }
        requires room { 0 < self.old.spare }
        ensures entries { self.new.entries ≡ self.old.entries ++ (key, value) ∷ [] }
        ensures slots { self.new.slots ≡ self.old.slots ++ key ∷ [] }
        ensures spare { self.old.spare ≤ self.new.spare + 1 }
        ensures hasher { self.new.hasher ≡ self.old.hasher }
    {
        let at = self.map.len();
        let node = Node {
            before: 0,
            after: 0,
            value,
        };
        self.map.insert(key, node).unwrap();
        if at == 0 {
            self.first = 0;
            self.last = 0;
            return;
        }
        link(&mut self.map, self.last, at);
        self.last = at;
    }
}

impl<K: Eq + Hash, V, S: BuildHasher> Order<K, V, S> {
    ghost use Rattle.std.specs.Borrow.{sem};
    ghost use Rattle.sc_lru.specs.Lends.{ends_as, lends_pair, lends_value};

    /// The key's value. Its pair becomes the last.
    pub fn get(&mut self, key: &K) -> Option<&V>
        ensures* touches { sem 𝓛 (ends_as K.row V.row S.row S.Hasher.row K.Hash S.BuildHasher S.Hasher.Hasher self.entry (touched (K.eq key.now) self.old.entries)) }
        ensures value { option_copied result ≡ lookup (K.eq key.now) self.old.entries }
    {
        let Some(found) = self.map.get_index_of(key) else {
            return None;
        };
        self.first = move_last(&mut self.map, self.first, self.last, found);
        self.last = found;
        Some(&self.map[found].value)
    }

    /// The key's value to write. Its pair becomes the last.
    pub fn get_mut(&mut self, key: &K) -> Option<&mut V>
        ensures* writes_back { sem 𝓛 (lends_value K.row V.row S.row S.Hasher.row K.Hash S.BuildHasher S.Hasher.Hasher self.entry (K.eq key.now) (touched (K.eq key.now) self.old.entries) result) }
        ensures value { option_copied_mut result ≡ lookup (K.eq key.now) self.old.entries }
    {
        let Some(at) = self.map.get_index_of(key) else {
            return None;
        };
        self.first = move_last(&mut self.map, self.first, self.last, at);
        self.last = at;
        Some(self.map[at].value_mut())
    }

    /// The pair at a position, whose value can be written. The order stays.
    pub fn pair_mut(&mut self, at: usize) -> (&K, &mut V)
        requires { IsPosition K.eq self.old.entries self.old.slots at }
        ensures* writes_back { sem 𝓛 (lends_pair K.row V.row S.row S.Hasher.row K.Hash S.BuildHasher S.Hasher.Hasher self.entry at result.1) }
        ensures pair { (i : ℕ) → i < length self.old.entries → at ≡ position_at K.eq self.old.entries self.old.slots i → slice_get self.old.entries i ≡ Some (result.0.now, result.1.now) }
        ensures written { (i : ℕ) → i < length self.old.entries → at ≡ position_at K.eq self.old.entries self.old.slots i → (w : V) → written_at K.eq self.old.entries self.old.slots at w ≡ set_value_at self.old.entries i w }
    {
        let (key, node) = self.map.pair_mut(at);
        (key, node.value_mut())
    }
}
