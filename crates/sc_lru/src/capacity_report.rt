//! What a recorded list of uses would have found at other capacities.
ghost use Rattle.std.specs.Prelude.{◌≡◌, ◌+◌, ◌^◌, ◌<◌, ◌≤◌, length, map, is_some, if◌then◌else◌, IfOk, OnOk};
ghost use Rattle.sc_lru.specs.DryRun.{counted, dropped, dry_line, shown, used, HasRoom};

use crate::cache::{DefaultHasher, LruCache};
use crate::meter::Meter;
use std::alloc::{AllocError, Global};
use std::hash::Hash;

/// A use of a cache.
#[derive(Clone, Debug, Drop)]
pub enum Use<K> {
    /// The key was asked for.
    Get(K),
    /// The key got a value of so many bytes.
    Put(K, u64),
}

/// What a list of uses finds at one capacity.
#[derive(Clone, Copy, Debug, PartialEq, Eq)]
pub struct DryLine {
    /// The most bytes that the values may have together.
    pub capacity: u64,
    /// The gets whose key was there.
    pub hits: u64,
    /// The gets whose key wasn't.
    pub misses: u64,
    /// The pairs that puts pushed out. A value that gave way to a newer one of its key is none of them.
    pub evicted: u64,
    /// The puts of more bytes than the capacity, which change nothing.
    pub too_large: u64,
}

// Measures a pair by its value, a number of bytes.
#[derive(Drop)]
struct Bytes;

impl<K> Meter<K, u64> for Bytes {
    ghost measure = { λ _ _ bytes. bytes };

    fn measure(&self, _key: &K, value: &u64) -> u64 {
        *value
    }
}

type Sizes<'a, K> = LruCache<&'a K, u64, DefaultHasher, Bytes>;

// How many pairs an insert added before it evicted any, by the value that it replaced.
fn pairs_added(replaced: Option<u64>) -> usize
    ensures { result ≡ (if is_some replaced then 0 else 1) }
{
    match replaced {
        Some(_) => 0,
        None => 1,
    }
}

// Puts a value of at most the capacity. Answers the number of pairs that it pushed out.
fn put<'a, K: Eq + Hash>(
    sizes: &mut Sizes<'a, K>,
    key: &'a K,
    bytes: u64,
) -> Result<u64, AllocError>
    requires fits { bytes ≤ sizes.old.capacity }
    requires room { length sizes.old.entries + 1 < 2 ^ 64 }
    ensures entries { OnOk result (shown sizes.new.entries ≡ used K.eq sizes.old.capacity (shown sizes.old.entries) (Use.Put key.now bytes)) }
    ensures evicted { IfOk result (λ n. n ≡ dropped K.eq sizes.old.capacity (shown sizes.old.entries) (Use.Put key.now bytes)) }
    ensures capacity { sizes.new.capacity ≡ sizes.old.capacity }
{
    let before = sizes.len();
    let replaced = sizes.insert(key, bytes)?;
    let after = sizes.len();
    Ok((before + pairs_added(replaced) - after) as u64)
}

// Makes one use, and counts it.
fn count<'a, K: Eq + Hash>(
    sizes: &mut Sizes<'a, K>,
    line: &mut DryLine,
    one: &'a Use<K>,
) -> Result<(), AllocError>
    requires { HasRoom line.old (length sizes.old.entries) }
    ensures entries { OnOk result (shown sizes.new.entries ≡ used K.eq sizes.old.capacity (shown sizes.old.entries) one.now) }
    ensures line { OnOk result (line.new ≡ counted K.eq sizes.old.capacity (shown sizes.old.entries) line.old one.now) }
    ensures capacity { sizes.new.capacity ≡ sizes.old.capacity }
{
    match one {
        Use::Get(key) => {
            if sizes.get(&key).is_some() {
                line.hits += 1;
            } else {
                line.misses += 1;
            }
            Ok(())
        }
        Use::Put(key, bytes) => {
            if *bytes > sizes.capacity() {
                line.too_large += 1;
                return Ok(());
            }
            line.evicted += put(sizes, key, *bytes)?;
            Ok(())
        }
    }
}

fn line_at<K: Eq + Hash>(
    alloc: Global,
    uses: &[Use<K>],
    capacity: u64,
) -> Result<DryLine, AllocError>
    ensures { IfOk result (λ line. line ≡ dry_line K.eq uses.now capacity) }
{
    let mut sizes = LruCache::with_meter(alloc, capacity, Bytes);
    let mut line = DryLine {
        capacity,
        hits: 0,
        misses: 0,
        evicted: 0,
        too_large: 0,
    };
    for one in uses {
        count(&mut sizes, &mut line, one)?;
    }
    Ok(line)
}

/// What the uses, from an empty cache on, find at each capacity by itself.
///
/// The keys are borrowed. One call takes as many steps as there are uses for each capacity.
pub fn dry_run<K: Eq + Hash>(
    alloc: Global,
    uses: &[Use<K>],
    capacities: &[u64],
) -> Result<Vec<DryLine>, AllocError>
    ensures { IfOk result (λ lines. lines.items ≡ map (dry_line K.eq uses.now) capacities.now) }
{
    let mut lines = Vec::new(alloc);
    for capacity in capacities {
        lines.push(line_at(alloc, uses, *capacity)?)?;
    }
    Ok(lines)
}
