//! `LruCache`. A clause sees a cache as its `entries`, the least recently used first, its `slots`, which are its keys by position,
//! its `capacity`, its `meter`, its `hasher`, and its `spare`, the number of inserts that can't fail.
ghost use Rattle.std.specs.Prelude.{◌≡◌, ℕ, ◌+◌, ◌-◌, ◌<◌, ◌≤◌, ◌↔◌, ◌∷◌, ◌++◌, [], None, Some, length, drop, is_some, position, slice_get, option_copied, option_map, IfErr, IfNone, IfOk, IfSome, IsOk, IsTrue, OnErr, OnOk};
ghost use Rattle.std.specs.List.{IsDistinct};
ghost use Rattle.std.specs.Map.{keys_of, lookup, lookup_entry, remove_entry};
ghost use Rattle.std.specs.Option.{option_copied_mut};
ghost use Rattle.std.specs.Map.Iter.{deref_pair, ShowsInOrder, ShowsInReverse};
ghost use Rattle.sc_lru.specs.LruCache.{inserted, suffix_within, total, with_entries, HasParts, IsUnchanged, KeepsParts};
ghost use Rattle.sc_lru.specs.Order.{position_at, touched, vacated, vacated_first, written_at, IsPosition};
ghost use Rattle.indexmap.specs.IndexMap.{set_value_at};

use crate::iter::Iter;
use crate::linked::Order;
use crate::meter::{Count, Meter};
use std::alloc::{AllocError, AllocFailed, Global};
use std::hash::{BuildHasher, BuildHasherDefault, FoldHasher, Hash};
use std::marker::Model;

/// The hasher of `new` and `with_meter`. Its seed is fixed: for keys that an attacker picks, hand in a hasher with a random one.
pub type DefaultHasher = BuildHasherDefault<FoldHasher>;

/// A cache of pairs in the order of their use, whose measures sum to at most its capacity.
///
/// The pairs stand in a table, each linked to those used just before and just after it, so a use changes links alone.
#[derive(Drop)]
pub struct LruCache<K: Eq + Hash, V, S: BuildHasher = DefaultHasher, M: Meter<K, V> = Count> {
    order: Order<K, V, S>,
    meter: M,
    size: u64,
    capacity: u64,
}

impl<K: Eq + Hash, V, S: BuildHasher, M: Meter<K, V>> Model for LruCache<K, V, S, M> {
    ghost use Rattle.std.specs.Prelude.{◌≡◌, ◌≤◌};
    ghost use Rattle.sc_lru.specs.LruCache.{LruCache as Cache, lru_cache, lru_cache_code, total};
    ghost use Rattle.sc_lru.specs.Order.{order_code};

    ghost Value = { Cache K V S M };

    ghost coded = { lru_cache_code (order_code K.code V.code S.code) M.code };

    ghost view = { λ c. lru_cache c.order c.capacity c.meter };

    ghost invariant = { λ c. (c.size ≡ total (M.measure c.meter) c.order.entries) × (c.size ≤ c.capacity) };
}

impl<K: Eq + Hash, V> LruCache<K, V, DefaultHasher, Count> {
    /// An empty cache of at most `capacity` pairs, which allocates nothing until its first pair.
    pub fn new(alloc: Global, capacity: u64) -> Self
        ensures empty { result.entries ≡ [] }
        ensures slots { result.slots ≡ [] }
        ensures capacity { result.capacity ≡ capacity }
    {
        LruCache::with_hasher(alloc, capacity, BuildHasherDefault::new())
    }
}

impl<K: Eq + Hash, V, M: Meter<K, V>> LruCache<K, V, DefaultHasher, M> {
    /// An empty cache whose pairs' measures by `meter` may sum to `capacity`.
    pub fn with_meter(alloc: Global, capacity: u64, meter: M) -> Self
        ensures empty { result.entries ≡ [] }
        ensures slots { result.slots ≡ [] }
        ensures capacity { result.capacity ≡ capacity }
        ensures meter { result.meter ≡ meter }
    {
        LruCache::with_meter_and_hasher(alloc, capacity, meter, BuildHasherDefault::new())
    }
}

impl<K: Eq + Hash, V, S: BuildHasher> LruCache<K, V, S, Count> {
    /// An empty cache of at most `capacity` pairs, which hashes by `hash_builder`.
    pub fn with_hasher(alloc: Global, capacity: u64, hash_builder: S) -> Self
        ensures empty { result.entries ≡ [] }
        ensures slots { result.slots ≡ [] }
        ensures capacity { result.capacity ≡ capacity }
        ensures hasher { result.hasher ≡ hash_builder }
    {
        LruCache::with_meter_and_hasher(alloc, capacity, Count, hash_builder)
    }
}

impl<K: Eq + Hash, V, S: BuildHasher, M: Meter<K, V>> LruCache<K, V, S, M> {
    /// An empty cache whose pairs' measures by `meter` may sum to `capacity`, and which hashes by `hash_builder`.
    pub fn with_meter_and_hasher(alloc: Global, capacity: u64, meter: M, hash_builder: S) -> Self
        ensures empty { result.entries ≡ [] }
        ensures slots { result.slots ≡ [] }
        ensures parts { HasParts result capacity meter hash_builder }
    {
        LruCache {
            order: Order::new(alloc, hash_builder),
            meter,
            size: 0,
            capacity,
        }
    }

    /// The number of pairs.
    pub fn len(&self) -> usize
        ensures len { result ≡ length self.now.entries }
        ensures slots { result ≡ length self.now.slots }
        ensures distinct { IsDistinct K.eq (keys_of self.now.entries) }
    {
        self.order.len()
    }

    /// Whether there is no pair.
    pub fn is_empty(&self) -> bool
        ensures { IsTrue result ↔ (self.now.entries ≡ []) }
    {
        self.order.len() == 0
    }

    /// The sum of the pairs' measures.
    pub fn size(&self) -> u64
        ensures size { result ≡ total (M.measure self.now.meter) self.now.entries }
        ensures within { result ≤ self.now.capacity }
    {
        self.size
    }

    /// The most that the pairs' measures may sum to.
    pub fn capacity(&self) -> u64
        ensures { result ≡ self.now.capacity }
    {
        self.capacity
    }

    /// Whether the key has a pair. The order stays.
    pub fn contains_key(&self, key: &K) -> bool
        ensures { result ≡ is_some (lookup (K.eq key.now) self.now.entries) }
    {
        self.order.contains_key(key)
    }

    /// The key's position in the table, below the number of pairs.
    ///
    /// A use leaves every position. A new pair that evicts none takes the position behind all others. When a pair is removed, the one
    /// at the last position comes to its position, and the others stay.
    pub fn position_of(&self, key: &K) -> Option<usize>
        ensures position { result ≡ position (K.eq key.now) self.now.slots }
        ensures found { is_some result ≡ is_some (lookup (K.eq key.now) self.now.entries) }
        ensures within { IfSome result (λ at. at < length self.now.entries) }
    {
        self.order.position_of(key)
    }

    /// The pairs, the least recently used first.
    pub fn iter(&self) -> Iter<'_, K, V, S>
        ensures rest { result ≡ self.now.entries }
        ensures runs { ShowsInOrder (deref_pair {K = K} {X = V}) }
        ensures runs_back { ShowsInReverse (deref_pair {K = K} {X = V}) }
    {
        self.order.iter()
    }

    /// The least recently used pair. The order stays.
    pub fn peek_lru(&self) -> Option<(&K, &V)>
        ensures { option_map deref_pair result ≡ slice_get self.now.entries 0 }
    {
        self.order.first()
    }

    ghost use Rattle.std.specs.Borrow.{sem};
    ghost use Rattle.sc_lru.specs.CacheLends.{ends_as};

    /// The key's value. Its pair becomes the most recently used, at the same position.
    pub fn get(&mut self, key: &K) -> Option<&V>
        ensures* touches { sem 𝓛 (ends_as K.row V.row S.row M.row S.Hasher.row K.Hash S.BuildHasher S.Hasher.Hasher M.Meter self.entry (touched (K.eq key.now) self.old.entries)) }
        ensures value { option_copied result ≡ lookup (K.eq key.now) self.old.entries }
    {
        self.order.get(key)
    }

    // The pairs, without their capacity.
    pub(crate) fn into_order(self) -> Order<K, V, S>
    where
        M: Drop,
        ensures { result.entries ≡ self.entries }
    {
        let LruCache {
            order,
            meter: _,
            size: _,
            capacity: _,
        } = self;
        order
    }

    /// Makes room for `additional` pairs more, whose inserts then can't fail. The pairs stay.
    pub fn reserve(&mut self, additional: usize) -> Result<(), AllocError>
        ensures ok { OnOk result (additional ≤ self.new.spare) }
        ensures succeeds { additional ≤ self.old.spare → IsOk result }
        ensures unchanged { IsUnchanged self.old self.new }
        ensures spare { self.old.spare ≤ self.new.spare }
        ensures parts { KeepsParts self.old self.new }
    {
        self.order.reserve(additional)
    }
}

impl<K: Eq + Hash, V, S: BuildHasher, M: Meter<K, V>> LruCache<K, V, S, M> {
    // Takes the key's pair out.
    fn remove_entry(&mut self, key: &K) -> Option<(K, V)>
        ensures value { result ≡ lookup_entry (K.eq key.now) self.old.entries }
        ensures entries { self.new.entries ≡ remove_entry (K.eq key.now) self.old.entries }
        ensures slots { self.new.slots ≡ vacated (K.eq key.now) self.old.slots }
        ensures absent { lookup (K.eq key.now) self.new.entries ≡ None }
        ensures missing { IfNone result (self.new ≡ self.old) }
        ensures spare { self.old.spare ≤ self.new.spare }
        ensures parts { KeepsParts self.old self.new }
    {
        let (key, value) = self.order.remove_entry(key)?;
        let measure = self.meter.measure(&key, &value);
        self.size -= measure;
        Some((key, value))
    }

    /// Takes the least recently used pair out.
    pub fn remove_lru(&mut self) -> Option<(K, V)>
        ensures value { result ≡ slice_get self.old.entries 0 }
        ensures entries { self.new.entries ≡ drop 1 self.old.entries }
        ensures slots { self.new.slots ≡ vacated_first K.eq self.old.entries self.old.slots }
        ensures missing { IfNone result (self.new ≡ self.old) }
        ensures spare { self.old.spare ≤ self.new.spare }
        ensures parts { KeepsParts self.old self.new }
    {
        let (key, value) = self.order.pop_first()?;
        let measure = self.meter.measure(&key, &value);
        self.size -= measure;
        Some((key, value))
    }
}

// Puts a new pair last, and takes pairs out from the front until those before it measure at most `limit`: what they measure
// then. The pair at the last position comes to that of a pair that goes, so the new one is put first: its links are at hand.
fn push_evicting<K: Eq + Hash + Drop, V: Drop, S: BuildHasher, M: Meter<K, V>>(
    order: &mut Order<K, V, S>,
    meter: &M,
    size: u64,
    limit: u64,
    key: K,
    value: V,
) -> u64
    requires size { size ≡ total (M.measure meter.now) order.old.entries }
    requires absent { lookup (K.eq key) order.old.entries ≡ None }
    requires room { 0 < order.old.spare }
    ensures entries { order.new.entries ≡ suffix_within (M.measure meter.now) limit order.old.entries ++ (key, value) ∷ [] }
    ensures size { result ≡ total (M.measure meter.now) (suffix_within (M.measure meter.now) limit order.old.entries) }
    ensures within { result ≤ limit }
    ensures slots { size ≤ limit → order.new.slots ≡ order.old.slots ++ key ∷ [] }
    ensures spare { order.old.spare ≤ order.new.spare + 1 }
    ensures hasher { order.new.hasher ≡ order.old.hasher }
{
    order.push_last(key, value);
    let mut left = size;
    while left > limit {
        let Some((gone, its_value)) = order.pop_first() else {
            unreachable!()
        };
        left -= meter.measure(&gone, &its_value);
    }
    left
}

impl<K: Eq + Hash + Drop, V: Drop, S: BuildHasher, M: Meter<K, V>> LruCache<K, V, S, M> {
    /// Takes the key's pair out, and answers its value.
    pub fn remove(&mut self, key: &K) -> Option<V>
        ensures value { result ≡ lookup (K.eq key.now) self.old.entries }
        ensures entries { self.new.entries ≡ remove_entry (K.eq key.now) self.old.entries }
        ensures slots { self.new.slots ≡ vacated (K.eq key.now) self.old.slots }
        ensures absent { lookup (K.eq key.now) self.new.entries ≡ None }
        ensures missing { IfNone result (self.new ≡ self.old) }
        ensures spare { self.old.spare ≤ self.new.spare }
        ensures parts { KeepsParts self.old self.new }
    {
        match self.remove_entry(key) {
            Some((_, value)) => Some(value),
            None => None,
        }
    }

    /// Takes all pairs out.
    pub fn clear(&mut self)
        ensures empty { self.new.entries ≡ [] }
        ensures slots { self.new.slots ≡ [] }
        ensures spare { self.old.spare ≤ self.new.spare }
        ensures parts { KeepsParts self.old self.new }
    {
        self.order.clear();
        self.size = 0;
    }

    // Takes the least recently used pairs out until the others measure at most `limit`.
    fn evict_to(&mut self, limit: u64)
        ensures entries { self.new.entries ≡ suffix_within (M.measure self.old.meter) limit self.old.entries }
        ensures within { total (M.measure self.old.meter) self.new.entries ≤ limit }
        ensures fits { total (M.measure self.old.meter) self.old.entries ≤ limit → self.new ≡ self.old }
        ensures spare { self.old.spare ≤ self.new.spare }
        ensures parts { KeepsParts self.old self.new }
    {
        while self.size() > limit {
            self.remove_lru();
        }
    }

    // Puts a new pair last, and takes the least recently used pairs out until all measure at most the capacity.
    fn push_within(&mut self, measure: u64, key: K, value: V)
        requires measured { measure ≡ M.measure self.old.meter key value }
        requires absent { lookup (K.eq key) self.old.entries ≡ None }
        requires room { 0 < self.old.spare }
        requires fits { measure ≤ self.old.capacity }
        ensures entries { self.new.entries ≡ suffix_within (M.measure self.old.meter) (self.old.capacity - measure) self.old.entries ++ (key, value) ∷ [] }
        ensures slots { total (M.measure self.old.meter) self.old.entries + measure ≤ self.old.capacity → self.new.slots ≡ self.old.slots ++ key ∷ [] }
        ensures spare { self.old.spare ≤ self.new.spare + 1 }
        ensures parts { KeepsParts self.old self.new }
    {
        let _fits = self.capacity;
        let room = self.capacity - measure;
        let left = push_evicting(&mut self.order, &self.meter, self.size, room, key, value);
        self.size = left + measure;
    }

    /// Puts a pair last in place of the key's old pair, whose value it answers, and takes the least recently used pairs out until
    /// the others measure at most the capacity. A pair that measures more by itself goes with all others.
    ///
    /// For want of memory the pair comes back, and no pair changes. A call can't fail while `spare` is positive.
    pub fn insert(&mut self, key: K, value: V) -> Result<Option<V>, AllocFailed<(K, V)>>
        ensures old { IfOk result (λ old. old ≡ lookup (K.eq key) self.old.entries) }
        ensures entries { OnOk result (self.new.entries ≡ inserted (M.measure self.old.meter) (K.eq key) self.old.capacity self.old.entries key value) }

        // A new pair that evicts none takes the position behind all others.
        ensures slots { OnOk result (lookup (K.eq key) self.old.entries ≡ None → total (M.measure self.old.meter) self.old.entries + M.measure self.old.meter key value ≤ self.old.capacity → self.new.slots ≡ self.old.slots ++ key ∷ []) }
        ensures value_returned { IfErr result (λ refused. refused.value ≡ (key, value)) }
        ensures err { OnErr result (IsUnchanged self.old self.new) }
        ensures succeeds { 0 < self.old.spare → IsOk result }
        ensures spare { self.old.spare ≤ self.new.spare + 1 }
        ensures parts { KeepsParts self.old self.new }
    {
        if self.reserve(1).is_err() {
            return Err(AllocFailed {
                value: (key, value),
            });
        }
        let measure = self.meter.measure(&key, &value);
        let old = self.remove(&key);
        let capacity = self.capacity();
        if measure > capacity {
            self.clear();
            return Ok(old);
        }
        self.push_within(measure, key, value);
        Ok(old)
    }

    /// Changes the capacity, and takes the least recently used pairs out until the others measure at most it.
    pub fn set_capacity(&mut self, capacity: u64)
        ensures entries { self.new.entries ≡ suffix_within (M.measure self.old.meter) capacity self.old.entries }

        // Where all fit, their positions stay.
        ensures slots { total (M.measure self.old.meter) self.old.entries ≤ capacity → self.new.slots ≡ self.old.slots }
        ensures spare { self.old.spare ≤ self.new.spare }
        ensures parts { HasParts self.new capacity self.old.meter self.old.hasher }
    {
        self.evict_to(capacity);
        self.capacity = capacity;
    }
}

impl<K: Eq + Hash, V, S: BuildHasher> LruCache<K, V, S, Count> {
    ghost use Rattle.std.specs.Borrow.{sem};
    ghost use Rattle.sc_lru.specs.CacheLends.{lends_pair, lends_value};

    /// The key's value to write. Its pair becomes the most recently used, at the same position.
    pub fn get_mut(&mut self, key: &K) -> Option<&mut V>
        ensures* writes_back { sem 𝓛 (lends_value K.row V.row S.row S.Hasher.row K.Hash S.BuildHasher S.Hasher.Hasher self.entry (K.eq key.now) (touched (K.eq key.now) self.old.entries) result) }
        ensures value { option_copied_mut result ≡ lookup (K.eq key.now) self.old.entries }
    {
        self.order.get_mut(key)
    }

    // The positions of the first pair and of the last.
    pub(crate) fn ends(&self) -> (usize, usize)
        ensures first { result.0 ≡ position_at K.eq self.now.entries self.now.slots 0 }
        ensures last { result.1 ≡ position_at K.eq self.now.entries self.now.slots (length self.now.entries - 1) }
    {
        self.order.ends()
    }

    // The position of the pair behind the one at `at`, and 0 behind the last.
    pub(crate) fn position_after(&self, at: usize) -> usize
        requires { IsPosition K.eq self.now.entries self.now.slots at }
        ensures { (i : ℕ) → i < length self.now.entries → at ≡ position_at K.eq self.now.entries self.now.slots i → result ≡ position_at K.eq self.now.entries self.now.slots (i + 1) }
    {
        self.order.position_after(at)
    }

    // The position of the pair before the one at `at`, and that one's before the first.
    pub(crate) fn position_before(&self, at: usize) -> usize
        requires { IsPosition K.eq self.now.entries self.now.slots at }
        ensures { (i : ℕ) → i < length self.now.entries → at ≡ position_at K.eq self.now.entries self.now.slots i → result ≡ position_at K.eq self.now.entries self.now.slots (i - 1) }
    {
        self.order.position_before(at)
    }

    // The key at a position.
    pub(crate) fn key_at(&self, at: usize) -> Option<&K>
        ensures { (i : ℕ) → i < length self.now.entries → at ≡ position_at K.eq self.now.entries self.now.slots i → option_copied result ≡ slice_get (keys_of self.now.entries) i }
    {
        self.order.key_at(at)
    }

    // The pair at a position, whose value can be written. The order stays.
    pub(crate) fn pair_mut(&mut self, at: usize) -> (&K, &mut V)
        requires { IsPosition K.eq self.old.entries self.old.slots at }
        ensures* writes_back { sem 𝓛 (lends_pair K.row V.row S.row S.Hasher.row K.Hash S.BuildHasher S.Hasher.Hasher self.entry at result.1) }
        ensures pair { (i : ℕ) → i < length self.old.entries → at ≡ position_at K.eq self.old.entries self.old.slots i → slice_get self.old.entries i ≡ Some (result.0.now, result.1.now) }
        ensures written { (i : ℕ) → i < length self.old.entries → at ≡ position_at K.eq self.old.entries self.old.slots i → (w : V) → written_at K.eq self.old.entries self.old.slots at w ≡ set_value_at self.old.entries i w }
    {
        self.order.pair_mut(at)
    }
}
