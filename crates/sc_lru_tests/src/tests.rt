use crate::shifted::Order as Shifted;
use sc_lru::{Count, DefaultHasher, DryLine, IntoIter, LruCache, Meter, Use, dry_run};
use std::alloc::{AllocError, Global};
use std::hash::BuildHasherDefault;
use std::process::Abort;
use std::test::Fail;

// Measures a pair by its value.
#[derive(Drop)]
struct Size;

impl<K> Meter<K, u64> for Size {
    ghost measure = { λ _ _ size. size };

    fn measure(&self, _key: &K, value: &u64) -> u64 {
        *value
    }
}

type Sizes = LruCache<u64, u64, DefaultHasher, Size>;

type NamedSizes = LruCache<&'static str, u64, DefaultHasher, Size>;

type Numbers = LruCache<u64, u64>;

type Pairs = Vec<(u64, u64)>;

fn pairs_of(alloc: Global, cache: &Sizes) -> Result<Pairs, AllocError> {
    let mut pairs = Vec::new(alloc);
    for (key, value) in cache.iter() {
        pairs.push((*key, *value))?;
    }
    Ok(pairs)
}

// A cache of at most `capacity` of the pairs 1 to 3.
fn three(alloc: Global, capacity: u64) -> Result<LruCache<u64, u64>, AllocError> {
    let mut cache = LruCache::new(alloc, capacity);
    for (key, value) in [(1, 10), (2, 20), (3, 30)] {
        cache.insert(key, value)?;
    }
    Ok(cache)
}

// Whether the cache prints this text.
fn prints(alloc: Global, cache: &Numbers, expected: &str) -> Result<bool, Fail> {
    let text = format!(in alloc; "{cache:?}")?;
    Ok(text.as_str() == expected)
}

// Whether a cache for two pairs evicts, of the two it holds, the one that wasn't asked for.
fn evicts_the_unused(cache: &mut Numbers) -> Result<bool, Fail> {
    cache.insert(1, 10)?;
    cache.insert(2, 20)?;
    let found = cache.get(&1).copied();
    cache.insert(3, 30)?;
    let mut pairs = cache.iter();
    Ok(
        found == Some(10)
            && pairs.next() == Some((&1, &10))
            && pairs.next() == Some((&3, &30))
            && pairs.next() == None,
    )
}

#[test]
fn evicts_the_least_recently_used(rt: HostRuntime) -> Result<(), Fail> {
    let mut cache: Numbers = LruCache::new(rt.alloc(), 2);
    assert!(rt; evicts_the_unused(&mut cache)?);
    Ok(())
}

#[test]
fn prints_the_most_recently_used_first(rt: HostRuntime) -> Result<(), Fail> {
    let cache = three(rt.alloc(), 2)?;
    assert!(rt; prints(rt.alloc(), &cache, "{3: 30, 2: 20}")?);
    Ok(())
}

// Whether a walk over the pairs 2 and 3 shows them from both ends, and a clone of it leaves it as it is.
fn shows_both_ends(cache: &Numbers) -> Result<bool, Fail> {
    let mut pairs = cache.iter();
    Ok(
        pairs.len() == 2
            && pairs.clone()?.next() == Some((&2, &20))
            && pairs.next_back() == Some((&3, &30))
            && pairs.len() == 1,
    )
}

#[test]
fn walks_from_both_ends(rt: HostRuntime) -> Result<(), Fail> {
    let cache = three(rt.alloc(), 2)?;
    assert!(rt; shows_both_ends(&cache)?);
    Ok(())
}

// Whether an insert of a pair over the capacity 10 leaves the cache empty, which held another.
fn empties(cache: &mut NamedSizes) -> Result<bool, Fail> {
    cache.insert("a", 4)?;
    let old = cache.insert("big", 12)?;
    Ok(old == None && cache.is_empty() && cache.size() == 0)
}

#[test]
fn holds_no_pair_over_the_capacity(rt: HostRuntime) -> Result<(), Fail> {
    let mut cache: NamedSizes = LruCache::with_meter(rt.alloc(), 10, Size);
    assert!(rt; empties(&mut cache)?);
    Ok(())
}

// Whether the last two of three pairs are held, which the capacity 10 doesn't fit together.
fn holds_the_last_two(cache: &mut NamedSizes) -> Result<bool, Fail> {
    for (key, size) in [("a", 4), ("b", 5), ("c", 3)] {
        cache.insert(key, size)?;
    }
    Ok(
        !cache.contains_key(&"a")
            && cache.size() == 8
            && cache.len() == 2
            && cache.peek_lru() == Some((&"b", &5)),
    )
}

#[test]
fn measures_pairs(rt: HostRuntime) -> Result<(), Fail> {
    let mut cache: NamedSizes = LruCache::with_meter(rt.alloc(), 10, Size);
    assert!(rt; holds_the_last_two(&mut cache)?);
    Ok(())
}

// Whether each of the keys has its position.
fn has_positions(cache: &Numbers, positions: &[(u64, Option<usize>)]) -> bool {
    for (key, position) in positions {
        if cache.position_of(key) != *position {
            return false;
        }
    }
    true
}

// Whether a use of the first of three pairs leaves the positions.
fn keeps_positions(alloc: Global, cache: &mut Numbers) -> Result<bool, Fail> {
    cache.get(&1);
    Ok(
        prints(alloc, cache, "{1: 10, 3: 30, 2: 20}")?
            && has_positions(cache, &[(1, Some(0)), (2, Some(1)), (3, Some(2))]),
    )
}

#[test]
fn keeps_positions_at_a_use(rt: HostRuntime) -> Result<(), Fail> {
    let mut cache = three(rt.alloc(), 3)?;
    assert!(rt; keeps_positions(rt.alloc(), &mut cache)?);
    Ok(())
}

// Whether the last of three pairs takes the position of the second, which is removed.
fn fills_the_second(alloc: Global, cache: &mut Numbers) -> Result<bool, Fail> {
    cache.get(&1);
    Ok(
        cache.remove(&2) == Some(20)
            && prints(alloc, cache, "{1: 10, 3: 30}")?
            && has_positions(cache, &[(1, Some(0)), (2, None), (3, Some(1))]),
    )
}

#[test]
fn fills_the_position_of_a_removed_pair(rt: HostRuntime) -> Result<(), Fail> {
    let mut cache = three(rt.alloc(), 3)?;
    assert!(rt; fills_the_second(rt.alloc(), &mut cache)?);
    Ok(())
}

// Whether a new value of the first of three pairs is held, and the pair was used last.
fn writes_the_first(alloc: Global, cache: &mut Numbers) -> Result<bool, Fail> {
    if let Some(value) = cache.get_mut(&1) {
        *value = 11;
    }
    prints(alloc, cache, "{1: 11, 3: 30, 2: 20}")
}

#[test]
fn writes_values(rt: HostRuntime) -> Result<(), Fail> {
    let mut cache = three(rt.alloc(), 3)?;
    assert!(rt; writes_the_first(rt.alloc(), &mut cache)?);
    Ok(())
}

// Whether the pairs 2 and 3 come from both ends, and no more.
fn gives_both_ends(pairs: &mut IntoIter<u64, u64, DefaultHasher>) -> bool {
    pairs.len() == 2
        && pairs.next_back() == Some((3, 30))
        && pairs.next() == Some((2, 20))
        && pairs.next() == None
}

#[test]
fn gives_pairs_from_both_ends(rt: HostRuntime) -> Result<(), Fail> {
    let mut pairs = three(rt.alloc(), 2)?.into_iter();
    assert!(rt; gives_both_ends(&mut pairs));
    Ok(())
}

// Writes the values of the first and the last of three pairs, and says whether they were lent with their keys.
fn writes_both_ends(cache: &mut Numbers) -> bool {
    let mut pairs = cache.iter_mut();
    let first = pairs.key().copied();
    let Some(value) = pairs.next() else {
        return false;
    };
    *value = 11;
    let last = pairs.key_back().copied();
    let Some(value) = pairs.next_back() else {
        return false;
    };
    *value = 31;
    first == Some(1) && last == Some(3) && pairs.len() == 1
}

// Whether the values of the first and the last of three pairs are lent, and hold what is written.
fn lends_both_ends(alloc: Global, cache: &mut Numbers) -> Result<bool, Fail> {
    Ok(writes_both_ends(cache) && prints(alloc, cache, "{3: 31, 2: 20, 1: 11}")?)
}

#[test]
fn lends_values_from_both_ends(rt: HostRuntime) -> Result<(), Fail> {
    let mut cache = three(rt.alloc(), 3)?;
    assert!(rt; lends_both_ends(rt.alloc(), &mut cache)?);
    Ok(())
}

#[test]
fn lends_every_value(rt: HostRuntime) -> Result<(), Fail> {
    let mut cache = three(rt.alloc(), 3)?;
    let mut pairs = cache.iter_mut();
    while let Some(value) = pairs.next() {
        *value = value.wrapping_add(1);
    }
    let text = format!(in rt.alloc(); "{cache:?}")?;
    assert_eq!(rt; text.as_str(), "{3: 31, 2: 21, 1: 11}");
    Ok(())
}

// Whether sizes are counted up to the end of `u64`.
fn counts_up(cache: &mut Sizes) -> Result<bool, Fail> {
    cache.insert(1, u64::MAX)?;
    let largest = cache.size();
    cache.insert(2, 1)?;
    let smallest = cache.size();
    cache.insert(3, u64::MAX - 1)?;
    Ok(largest == u64::MAX && smallest == 1 && cache.len() == 2 && cache.size() == u64::MAX)
}

// Whether the sizes are counted down from there.
fn counts_down(cache: &mut Sizes) -> bool {
    let oldest = cache.remove_lru();
    cache.clear();
    oldest == Some((2, 1)) && cache.capacity() == u64::MAX && cache.size() == 0
}

#[test]
fn counts_to_the_end_of_u64(rt: HostRuntime) -> Result<(), Fail> {
    let mut cache: Sizes = LruCache::with_meter(rt.alloc(), u64::MAX, Size);
    assert!(rt; counts_up(&mut cache)? && counts_down(&mut cache));
    Ok(())
}

// Whether a second value of a key takes the place of the first.
fn replaces(alloc: Global, cache: &mut LruCache<String, u64>) -> Result<bool, Fail> {
    let none = cache.insert("a".to_string(alloc)?, 1)?;
    let first = cache.insert("a".to_string(alloc)?, 2)?;
    Ok(none == None && first == Some(1))
}

#[test]
fn ample_insert(rt: HostRuntime) -> Result<(), Fail> {
    let mut cache: LruCache<String, u64> = LruCache::with_hasher(
        rt.alloc(),
        1,
        BuildHasherDefault::new(),
    );
    assert!(rt; replaces(rt.alloc(), &mut cache)?);
    Ok(())
}

#[test]
fn ample_reserve(rt: HostRuntime) -> Result<(), Fail> {
    let mut cache: Numbers = LruCache::new(rt.alloc(), 2);
    cache.reserve(2)?;
    assert!(rt; cache.is_empty());
    Ok(())
}

// Whether a cache for two pairs holds the last two of three.
fn extends(alloc: Global, cache: &mut Numbers) -> Result<bool, Fail> {
    cache.extend([(1, 10), (2, 20), (3, 30)].to_vec(alloc)?)?;
    prints(alloc, cache, "{3: 30, 2: 20}")
}

#[test]
fn ample_extend(rt: HostRuntime) -> Result<(), Fail> {
    let mut cache: Numbers = LruCache::new(rt.alloc(), 2);
    assert!(rt; extends(rt.alloc(), &mut cache)?);
    Ok(())
}

fn line(capacity: u64, hits: u64, misses: u64, evicted: u64, too_large: u64) -> DryLine {
    DryLine {
        capacity,
        hits,
        misses,
        evicted,
        too_large,
    }
}

// Whether these uses find at each capacity what its line says.
fn finds(
    alloc: Global,
    uses: &[Use<&str>],
    capacities: &[u64],
    expected: &[DryLine],
) -> Result<bool, AllocError> {
    let lines = dry_run(alloc, uses, capacities)?;
    Ok(lines.as_slice() == expected)
}

// Whether no uses find nothing.
fn finds_nothing(alloc: Global) -> Result<bool, AllocError> {
    let none: [Use<u64>; 0] = [];
    let lines = dry_run(alloc, &none, &[0])?;
    Ok(lines.as_slice() == [line(0, 0, 0, 0, 0)].as_slice())
}

const USES: &[Use<&str>] = &[
    Use::Put("a", 4),
    Use::Put("b", 5),
    Use::Get("a"),
    Use::Put("c", 3),
    Use::Get("b"),
    Use::Get("a"),
];

#[test]
fn ample_dry_run(rt: HostRuntime) -> Result<(), Fail> {
    let expected = [
        line(10, 2, 1, 1, 0),
        line(12, 3, 0, 0, 0),
        line(4, 1, 2, 1, 1),
    ];
    assert!(rt; finds(rt.alloc(), USES, &[10, 12, 4], &expected)?);
    assert!(rt; finds_nothing(rt.alloc())?);
    Ok(())
}

// The same list as a `Vec`, the least recently used pair first.
fn take_out(list: &mut Pairs, key: u64) -> Option<u64> {
    let at = list.iter().position(|pair| pair.0 == key)?;
    Some(list.remove(at).1)
}

fn sum_of(list: &Pairs) -> u64 {
    list.iter()
        .fold(0u64, |sum, pair| sum.saturating_add(pair.1))
}

fn evict_to(list: &mut Pairs, capacity: u64) {
    for _ in 0..list.len() {
        if sum_of(list) <= capacity || list.is_empty() {
            return;
        }
        list.remove(0);
    }
}

fn evict_shifted_to(order: &mut Shifted<u64, u64, DefaultHasher>, capacity: u64, most: usize) {
    for _ in 0..most {
        let sum = order
            .iter()
            .fold(0u64, |sum, pair| sum.saturating_add(*pair.1));
        if sum <= capacity {
            return;
        }
        order.pop_first();
    }
}

fn put_shifted(
    order: &mut Shifted<u64, u64, DefaultHasher>,
    key: u64,
    value: u64,
) -> Result<(), AllocError> {
    order.reserve(1)?;
    order.remove_entry(&key);
    order.push_last(key, value);
    Ok(())
}

// Three bodies, on which the same calls are made.
#[derive(Drop)]
struct Bodies {
    linked: Sizes,
    shifted: Shifted<u64, u64, DefaultHasher>,
    list: Pairs,
}

impl Bodies {
    fn new(alloc: Global, capacity: u64) -> Self {
        Bodies {
            linked: LruCache::with_meter(alloc, capacity, Size),
            shifted: Shifted::new(alloc, BuildHasherDefault::new()),
            list: Vec::new(alloc),
        }
    }

    fn evict(&mut self) {
        let capacity = self.linked.capacity();
        let most = self.list.len();
        evict_shifted_to(&mut self.shifted, capacity, most);
        evict_to(&mut self.list, capacity);
    }

    fn insert(&mut self, rt: &impl Abort, key: u64, value: u64) -> Result<(), Fail> {
        let old = take_out(&mut self.list, key);
        self.list.push((key, value))?;
        put_shifted(&mut self.shifted, key, value)?;
        assert_eq!(rt; self.linked.insert(key, value)?, old);
        self.evict();
        Ok(())
    }

    fn get(&mut self, rt: &impl Abort, key: u64) -> Result<(), Fail> {
        let value = take_out(&mut self.list, key);
        if let Some(value) = value {
            self.list.push((key, value))?;
        }
        assert_eq!(rt; self.linked.contains_key(&key), value.is_some());
        assert_eq!(rt; self.linked.position_of(&key).is_some(), value.is_some());
        assert_eq!(rt; self.shifted.touch(&key), value.is_some());
        assert_eq!(rt; self.linked.get(&key).copied(), value);
        Ok(())
    }

    fn remove(&mut self, rt: &impl Abort, key: u64) {
        let value = take_out(&mut self.list, key);
        self.shifted.remove_entry(&key);
        assert_eq!(rt; self.linked.remove(&key), value);
    }

    fn remove_lru(&mut self, rt: &impl Abort) {
        let first = if self.list.is_empty() {
            None
        } else {
            Some(self.list.remove(0))
        };
        self.shifted.pop_first();
        assert_eq!(rt; self.linked.remove_lru(), first);
    }

    fn set_capacity(&mut self, capacity: u64) {
        self.linked.set_capacity(capacity);
        self.evict();
    }

    fn clear(&mut self) {
        self.linked.clear();
        self.shifted.clear();
        self.list.clear();
    }

    fn compare_linked(&self, rt: &impl Abort, alloc: Global) -> Result<(), Fail> {
        assert_eq!(rt;
            pairs_of(alloc, &self.linked)?.as_slice(),
            self.list.as_slice()
        );
        assert_eq!(rt; self.linked.len(), self.list.len());
        assert_eq!(rt; self.linked.size(), sum_of(&self.list));
        Ok(())
    }

    fn compare_ends(&self, rt: &impl Abort) {
        let first = self.linked.peek_lru().map(|pair| (*pair.0, *pair.1));
        assert_eq!(rt; first, self.list.first().copied());
        let last = self
            .linked
            .iter()
            .next_back()
            .map(|pair| (*pair.0, *pair.1));
        assert_eq!(rt; last, self.list.last().copied());
    }

    fn compare_shifted(&self, rt: &impl Abort) {
        let mut at = 0usize;
        for (key, value) in self.shifted.iter() {
            assert_eq!(rt; self.list.get(at).copied(), Some((*key, *value)));
            at = at.saturating_add(1);
        }
        assert_eq!(rt; at, self.list.len());
    }

    fn call(&mut self, rt: &impl Abort, kind: u64, key: u64, value: u64) -> Result<(), Fail> {
        match kind {
            0..=7 => self.insert(rt, key, value)?,
            8..=12 => self.get(rt, key)?,
            13 | 14 => self.remove(rt, key),
            15 => self.remove_lru(rt),
            16 => self.set_capacity(value),
            _ => self.clear(),
        }
        Ok(())
    }
}

// The next number of a sequence that looks random.
fn draw(state: &mut u64, below: u64) -> u64 {
    *state = state
        .wrapping_mul(6364136223846793005)
        .wrapping_add(1442695040888963407);
    (*state >> 33).checked_rem(below).unwrap_or(0)
}

// The kind of the next call. Every sixtieth or so empties the bodies.
fn draw_kind(state: &mut u64) -> u64 {
    let kind = draw(state, 1080).checked_rem(18).unwrap_or(0);
    if kind == 17 && draw(state, 4) > 0 {
        0
    } else {
        kind
    }
}

fn call_and_compare(rt: &impl Abort, alloc: Global, bodies: &mut Bodies) -> Result<(), Fail> {
    let mut state = 1u64;
    for _ in 0..3000 {
        let kind = draw_kind(&mut state);
        let key = draw(&mut state, 24);
        let value = draw(&mut state, 60);
        bodies.call(rt, kind, key, value)?;
        bodies.compare_linked(rt, alloc)?;
        bodies.compare_ends(rt);
        bodies.compare_shifted(rt);
    }
    Ok(())
}

#[test]
fn three_bodies_agree(rt: HostRuntime) -> Result<(), Fail> {
    let mut bodies = Bodies::new(rt.alloc(), 100);
    call_and_compare(&rt, rt.alloc(), &mut bodies)
}

// Inserts a pair whose key is the number of those before, and says whether it found memory, or came back and left the list.
fn takes(cache: &mut Numbers, key: u64) -> Result<bool, Fail> {
    let held = key as usize;
    match cache.insert(key, key) {
        Ok(_) => Ok(true),
        Err(refused) => Ok(
            refused.value == (key, key) && cache.len() == held && cache.insert(key, key)? == None,
        ),
    }
}

// Whether each of a hundred pairs is taken, at once or at the second insert.
fn takes_all(cache: &mut Numbers) -> Result<bool, Fail> {
    for key in 0..100u64 {
        let taken = takes(cache, key)?;
        if !taken || cache.len() as u64 != key.saturating_add(1) {
            return Ok(false);
        }
    }
    Ok(true)
}

// A pair that finds no memory comes back, and the list stays. Run with one allocation after another refused.
#[test]
fn keeps_the_list_where_memory_ends(rt: HostRuntime) -> Result<(), Fail> {
    let mut cache: LruCache<u64, u64, DefaultHasher, Count> = LruCache::new(rt.alloc(), 1000);
    assert!(rt; takes_all(&mut cache)?);
    Ok(())
}
