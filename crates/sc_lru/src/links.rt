//! What changes the links of a table of nodes, and leaves its keys and values.
ghost use Rattle.std.specs.Prelude.{◌≡◌, ◌<◌, ◌≤◌, Some, length, nat_eq, swap_remove, if◌then◌else◌};
ghost use Rattle.indexmap.specs.IndexMap.{index_map_len, with_entries, spare, hasher_of};
ghost use Rattle.std.specs.List.{IsDistinct};
ghost use Rattle.std.specs.Map.{keys_of};
ghost use Rattle.sc_lru.specs.Linked.{after_at, before_at, with_after, with_before, after_redirected, before_redirected, end_redirected, skipped, first_skipped, last_skipped, mended, pair_at, IsChained, IsPlaced, IsSame, MovesLast, TakesOut};

use crate::node::Node;
use indexmap::IndexMap;
use std::hash::{BuildHasher, Hash};

/// The positions before and after the pair at `at`.
pub(crate) fn links<K: Eq + Hash, V, S: BuildHasher>(
    map: &IndexMap<K, Node<V>, S>,
    at: usize,
) -> (usize, usize)
    requires { at < index_map_len map.now }
    ensures before { result.0 ≡ before_at map.now.entries at }
    ensures after { result.1 ≡ after_at map.now.entries at }
{
    let node = &map[at];
    (node.before, node.after)
}

pub(crate) fn set_after<K: Eq + Hash, V, S: BuildHasher>(
    map: &mut IndexMap<K, Node<V>, S>,
    at: usize,
    to: usize,
)
    requires { at < index_map_len map.old }
    ensures { map.new ≡ with_entries map.old (with_after map.old.entries at to) }
{
    map[at].after = to;
}

pub(crate) fn set_before<K: Eq + Hash, V, S: BuildHasher>(
    map: &mut IndexMap<K, Node<V>, S>,
    at: usize,
    to: usize,
)
    requires { at < index_map_len map.old }
    ensures { map.new ≡ with_entries map.old (with_before map.old.entries at to) }
{
    map[at].before = to;
}

// The pair before `at` comes before `to` instead, or else `to` is the first. Returns the first.
pub(crate) fn redirect_after<K: Eq + Hash, V, S: BuildHasher>(
    map: &mut IndexMap<K, Node<V>, S>,
    first: usize,
    at: usize,
    before: usize,
    to: usize,
) -> usize
    requires { (at ≡ first → ⊥) → before < index_map_len map.old }
    ensures links { map.new ≡ with_entries map.old (after_redirected map.old.entries first at before to) }
    ensures first { result ≡ end_redirected first at to }
{
    if at == first {
        return to;
    }
    set_after(map, before, to);
    first
}

// The pair after `at` comes after `to` instead, or else `to` is the last. Returns the last.
pub(crate) fn redirect_before<K: Eq + Hash, V, S: BuildHasher>(
    map: &mut IndexMap<K, Node<V>, S>,
    last: usize,
    at: usize,
    after: usize,
    to: usize,
) -> usize
    requires { (at ≡ last → ⊥) → after < index_map_len map.old }
    ensures links { map.new ≡ with_entries map.old (before_redirected map.old.entries last at after to) }
    ensures last { result ≡ end_redirected last at to }
{
    if at == last {
        return to;
    }
    set_before(map, after, to);
    last
}

// Takes `at` out of the chain. Returns the first and the last.
pub(crate) fn skip<K: Eq + Hash, V, S: BuildHasher>(
    map: &mut IndexMap<K, Node<V>, S>,
    first: usize,
    last: usize,
    at: usize,
) -> (usize, usize)
    requires within { at < index_map_len map.old }
    requires before { (at ≡ first → ⊥) → before_at map.old.entries at < index_map_len map.old }
    requires after { (at ≡ last → ⊥) → after_at map.old.entries at < index_map_len map.old }
    ensures links { map.new ≡ with_entries map.old (skipped map.old.entries first last at) }
    ensures first { result.0 ≡ first_skipped map.old.entries first at }
    ensures last { result.1 ≡ last_skipped map.old.entries last at }
{
    let (before, after) = links(map, at);
    let first = redirect_after(map, first, at, before, after);
    let last = redirect_before(map, last, at, after, before);
    (first, last)
}

// Mends the links to the pair that was at `was` and is now at `to`. Returns the first and the last.
pub(crate) fn mend<K: Eq + Hash, V, S: BuildHasher>(
    map: &mut IndexMap<K, Node<V>, S>,
    first: usize,
    last: usize,
    was: usize,
    to: usize,
) -> (usize, usize)
    requires within { to < index_map_len map.old }
    requires before { (was ≡ first → ⊥) → before_at map.old.entries to < index_map_len map.old }
    requires after { (was ≡ last → ⊥) → after_at map.old.entries to < index_map_len map.old }
    ensures links { map.new ≡ with_entries map.old (mended map.old.entries first last was to) }
    ensures first { result.0 ≡ end_redirected first was to }
    ensures last { result.1 ≡ end_redirected last was to }
{
    let (before, after) = links(map, to);
    let first = redirect_after(map, first, was, before, to);
    let last = redirect_before(map, last, was, after, to);
    (first, last)
}

// Links `at`, which is in no chain, behind `last`.
pub(crate) fn link<K: Eq + Hash, V, S: BuildHasher>(
    map: &mut IndexMap<K, Node<V>, S>,
    last: usize,
    at: usize,
)
    requires last { last < index_map_len map.old }
    requires at { at < index_map_len map.old }
    ensures { map.new ≡ with_entries map.old (with_before (with_after map.old.entries last at) at last) }
{
    set_after(map, last, at);
    set_before(map, at, last);
}

// Makes `at` the last of the chain. Returns the first.
pub(crate) fn move_last<K: Eq + Hash, V, S: BuildHasher>(
    map: &mut IndexMap<K, Node<V>, S>,
    first: usize,
    last: usize,
    at: usize,
) -> usize
    requires { IsChained map.old.entries first last at }
    ensures chain { MovesLast map.old.entries first last at map.new.entries result }
    ensures same { IsSame map.old.entries map.new.entries }
    ensures spare { spare map.new ≡ spare map.old }
    ensures hasher { hasher_of map.new ≡ hasher_of map.old }
{
    if at == last {
        return first;
    }
    let (first, last) = skip(map, first, last, at);
    link(map, last, at);
    first
}

// Takes the pair at `at` out of the chain and the table. Returns the first, the last and the pair.
// Inlined, so that an eviction doesn't pass its results through memory.
#[inline(always)]
pub(crate) fn take<K: Eq + Hash, V, S: BuildHasher>(
    map: &mut IndexMap<K, Node<V>, S>,
    first: usize,
    last: usize,
    at: usize,
) -> (usize, usize, K, V)
    requires { IsPlaced map.old.entries first last at }
    ensures pair { pair_at map.old.entries at ≡ Some (result.2, result.3) }
    ensures chain { TakesOut map.old.entries first last at map.new.entries result.0 result.1 }
    ensures slots { keys_of map.new.entries ≡ swap_remove (keys_of map.old.entries) at result.2 }
    ensures distinct { IsDistinct K.eq (keys_of map.new.entries) }
    ensures spare { spare map.old ≤ spare map.new }
    ensures hasher { hasher_of map.new ≡ hasher_of map.old }
{
    let (first, last) = skip(map, first, last, at);
    let (key, node) = map.swap_remove_index(at).unwrap();
    let Node {
        before: _,
        after: _,
        value,
    } = node;
    let was = map.len();
    if at == was {
        return (first, last, key, value);
    }
    let (first, last) = mend(map, first, last, was, at);
    (first, last, key, value)
}
