//! Which levels a write goes to.
ghost use Rattle.std.specs.Prelude.{◌≡◌, ◌&&◌, [], not, IfOk, take};
ghost use Rattle.sc_model.specs.Plan as plans;
ghost use Rattle.sc_model.specs.Script.{is_single as single};
ghost use Rattle.sc_store.specs.Levels.{held_level};
ghost use Rattle.sc_store.specs.Planning.{facts_of, planned, test_of};

use crate::level::Level;
use crate::levels::Layered;
use crate::remote::Remote;
use crate::remote_storage::is_read_only;
use crate::vouch::Vouch;
use sc_disk::Disk;
use sc_entry::{ByteText, Items, NoMemory, Queue, Text};
use sc_model::{Answer, Bytes, Handed, LevelPolicy, Mode, Policy, Put, Refusal};
use std::alloc::Global;

/// Which writes a level takes, by its policy.
#[derive(Clone, Copy)]
pub(crate) enum Takes {
    /// Those that are made before the answer.
    Required,
    /// Those that are made in the background.
    Background,
    /// Any.
    Any,
}

/// Whether a level of this policy takes the writes.
fn has_policy(which: Takes, policy: LevelPolicy) -> bool
    ensures { result ≡ test_of which policy }
{
    match (which, policy) {
        (Takes::Required, LevelPolicy::Required) => true,
        (Takes::Background, LevelPolicy::Background) => true,
        (Takes::Any, LevelPolicy::Required) => true,
        (Takes::Any, LevelPolicy::Background) => true,
        (_, _) => false,
    }
}

/// The first policy; a missing one is `Background`.
fn first_policy(policies: &[LevelPolicy]) -> LevelPolicy
    ensures { result ≡ plans.first_policy policies.now }
{
    match policies {
        [first, ..] => *first,
        [] => LevelPolicy::Background,
    }
}

fn rest_policies(policies: &[LevelPolicy]) -> &[LevelPolicy]
    ensures { result.now ≡ plans.rest_policies policies.now }
{
    match policies {
        [_, rest @ ..] => rest,
        [] => policies,
    }
}

/// Whether a level may be written, and takes these writes.
fn is_taken<R: Remote, D: Disk, V: Vouch>(
    which: Takes,
    level: &Level<R, D, V>,
    policy: LevelPolicy,
) -> bool
    ensures { result ≡ (not (plans.reads_only (held_level level.now).facts.mode) && test_of which policy) }
{
    !is_read_only(level.mode()) && has_policy(which, policy)
}

/// The writable levels that take these writes, in order.
fn levels_of<R: Remote, D: Disk, V: Vouch>(
    alloc: Global,
    which: Takes,
    policies: &[LevelPolicy],
    levels: &[Level<R, D, V>],
) -> Result<Queue<u64>, NoMemory>
    ensures { IfOk result (λ found. found ≡ plans.levels_of (test_of which) 0 policies.now (facts_of levels.now)) }
{
    let mut found = Queue::new(alloc);
    let mut number: u64 = 0;
    let mut policies = policies;
    let mut left = levels;
    while let [level, rest @ ..] = left {
        if is_taken(which, level, first_policy(policies)) {
            found.push_back(number)?;
        }
        policies = rest_policies(policies);
        number += 1;
        left = rest;
    }
    Ok(found)
}

/// The first `count` levels, or all where there are fewer.
fn first_levels<R: Remote, D: Disk, V: Vouch>(
    levels: &[Level<R, D, V>],
    count: u64,
) -> &[Level<R, D, V>]
    ensures { facts_of result.now ≡ take count (facts_of levels.now) }
{
    if count < levels.len() as u64 {
        &levels[..count as usize]
    } else {
        levels
    }
}

/// The writes of these bytes at these levels.
fn hand_to(alloc: Global, bytes: &Bytes, levels: Queue<u64>) -> Result<Items<Handed>, NoMemory>
    ensures { IfOk result (λ handed. handed ≡ plans.hand_to bytes.now levels) }
{
    let mut handed = Items::new(alloc);
    let mut left = levels;
    while let Some(level) = left.pop_front() {
        handed.push(Handed {
            level,
            key: bytes.key.try_clone()?,
            bytes: bytes.bytes.try_clone()?,
            marked: bytes.run,
        })?;
    }
    Ok(handed)
}

/// The bytes of a hit, as they are put at the levels before it.
fn hit_bytes(key: &Text, bytes: &ByteText, mark: bool) -> Result<Bytes, NoMemory>
    ensures { IfOk result (λ hit. hit ≡ record { key = key.now; bytes = bytes.now; run = mark }) }
{
    Ok(Bytes {
        key: key.try_clone()?,
        bytes: bytes.try_clone()?,
        run: mark,
    })
}

impl<R: Remote, D: Disk, V: Vouch> Layered<R, D, V> {
    /// Whether one store stands alone, and is written by itself.
    pub fn is_single(&self) -> bool
        ensures { result ≡ single self.now.policy }
    {
        match &self.policy {
            Policy::Single => true,
            Policy::Levels(_) => false,
        }
    }

    /// The levels of these writes, in order. A single store is one, also where it refuses.
    fn planned(&self, alloc: Global, which: Takes) -> Result<Queue<u64>, NoMemory>
        ensures { IfOk result (λ levels. levels ≡ planned which self.now.policy self.now.facts) }
    {
        match &self.policy {
            Policy::Single => {
                let mut levels = Queue::new(alloc);
                levels.push_back(0)?;
                Ok(levels)
            }
            Policy::Levels(policies) => {
                let found = levels_of(alloc, which, policies.as_slice(), &self.levels)?;
                Ok(found)
            }
        }
    }

    /// The levels that are written before an answer, in order. A single store is, also where it refuses.
    #[tactic(auto, using(crate::proofs::Plans::plan_by))]
    pub fn plan(&self, alloc: Global) -> Result<Queue<u64>, NoMemory>
        ensures { IfOk result (λ levels. levels ≡ plans.plan self.now.policy self.now.facts) }
    {
        let levels = self.planned(alloc, Takes::Required)?;
        Ok(levels)
    }

    /// The levels that take a preprocessor entry, in order. A single store does, also where it refuses.
    #[tactic(auto, using(crate::proofs::Plans::pre_plan_by))]
    pub fn pre_plan(&self, alloc: Global) -> Result<Queue<u64>, NoMemory>
        ensures { IfOk result (λ levels. levels ≡ plans.pre_plan self.now.policy self.now.facts) }
    {
        let levels = self.planned(alloc, Takes::Any)?;
        Ok(levels)
    }

    /// The levels whose writes are handed on, in order.
    fn background(&self, alloc: Global) -> Result<Queue<u64>, NoMemory>
        ensures { IfOk result (λ levels. levels ≡ plans.background self.now.policy self.now.facts) }
    {
        match &self.policy {
            Policy::Single => Ok(Queue::new(alloc)),
            Policy::Levels(policies) => {
                let found = levels_of(alloc, Takes::Background, policies.as_slice(), &self.levels)?;
                Ok(found)
            }
        }
    }

    /// The levels before one that hit which take its bytes, in order.
    fn backfilled(&self, alloc: Global, level: u64) -> Result<Queue<u64>, NoMemory>
        ensures { IfOk result (λ levels. levels ≡ plans.backfilled self.now.policy self.now.facts level) }
    {
        match &self.policy {
            Policy::Single => Ok(Queue::new(alloc)),
            Policy::Levels(policies) => {
                let found = levels_of(
                    alloc,
                    Takes::Any,
                    policies.as_slice(),
                    first_levels(&self.levels, level),
                )?;
                Ok(found)
            }
        }
    }

    /// What a put comes to, by its first refusal.
    pub fn put_answer(&self, refusal: Refusal) -> Put
        ensures { result ≡ plans.put_answer self.now.policy self.now.facts refusal }
    {
        match (&self.policy, refusal) {
            (Policy::Single, Refusal::NoneYet) => Put::Done,
            (Policy::Single, Refusal::At(_, cause)) => Put::Refused(cause),
            (Policy::Levels(_), Refusal::NoneYet) => {
                if self.levels.is_empty() {
                    Put::NoLevels
                } else {
                    Put::Done
                }
            }
            (Policy::Levels(_), Refusal::At(level, cause)) => {
                if self.levels.is_empty() {
                    Put::NoLevels
                } else {
                    Put::Level(level, cause)
                }
            }
        }
    }

    /// The writes that a put hands on: none where level 0 had to be written and refused.
    pub fn handed(
        &self,
        alloc: Global,
        bytes: &Bytes,
        refusal: Refusal,
    ) -> Result<Items<Handed>, NoMemory>
        ensures { IfOk result (λ handed. handed ≡ plans.handed_by self.now.policy self.now.facts bytes.now refusal) }
    {
        let levels = match refusal {
            Refusal::NoneYet => self.background(alloc)?,
            Refusal::At(0, _) => Queue::new(alloc),
            Refusal::At(_, _) => self.background(alloc)?,
        };
        hand_to(alloc, bytes, levels)
    }

    /// The writes that a lookup's answer hands on: a hit's bytes go to the levels before it.
    pub fn backfills(
        &self,
        alloc: Global,
        level: u64,
        key: &Text,
        mode: Mode,
        answer: &Answer,
    ) -> Result<Items<Handed>, NoMemory>
        ensures { IfOk result (λ handed. handed ≡ plans.backfills self.now.policy self.now.facts level key.now mode answer.now) }
    {
        let Answer::Hit(bytes, mark) = answer else {
            return Ok(Items::new(alloc));
        };
        match mode {
            Mode::Whole | Mode::Raw => {
                let hit = hit_bytes(key, bytes, *mark)?;
                let levels = self.backfilled(alloc, level)?;
                hand_to(alloc, &hit, levels)
            }
            _ => Ok(Items::new(alloc)),
        }
    }
}
