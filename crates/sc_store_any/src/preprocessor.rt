//! Lookups and puts of the preprocessor's entries over levels.
ghost use Rattle.std.specs.Prelude.{◌≡◌, ◌<◌, false, IfOk, length};
ghost use Rattle.sc_model.specs.Plan as plans;
ghost use Rattle.sc_model.specs.Script.{is_single};
ghost use Rattle.sc_model.specs.There.{AreLevels};
ghost use Rattle.sc_model.specs.declared.event.Mode.TheVariants.{Pre};
ghost use Rattle.sc_store_alone.specs.Lookups.{AskedAt};
ghost use Rattle.sc_store_alone.specs.Moving.{Keeps};
ghost use Rattle.sc_store_alone.specs.Preprocessor as preprocessor;

use sc_disk::Disk;
use sc_entry::{NoMemory, Queue, Text};
use sc_model::{Answer, Mode, Written};
use sc_store::{Layered, Remote, Vouch};
use std::alloc::Global;

fn is_miss(answer: &Answer) -> bool
    ensures { result ≡ preprocessor.is_miss answer.now }
{
    match answer {
        Answer::Miss => true,
        _ => false,
    }
}

/// Looks an entry of the preprocessor up at one level, and at no other.
fn ask_level<R: Remote, D: Disk + Drop, V: Vouch>(
    alloc: Global,
    levels: &mut Layered<R, D, V>,
    level: usize,
    key: &Text,
    now: u64,
) -> Result<Answer, NoMemory>
    requires { level < length levels.old.levels }
    ensures keeps { Keeps levels.old levels.new }
    ensures asked { IfOk result (λ answer. AskedAt level key.now Pre answer levels.old levels.new) }
{
    levels.ask(alloc, level, key, Mode::Pre, now)
}

/// Asks the levels in order, until one finds the entry or refuses.
pub(crate) fn ask_each<R: Remote, D: Disk + Drop, V: Vouch>(
    alloc: Global,
    levels: &mut Layered<R, D, V>,
    key: &Text,
    now: u64,
) -> Result<Answer, NoMemory>
    ensures keeps { Keeps levels.old levels.new }
    ensures asked { IfOk result (λ answer. preprocessor.AsksEach key.now answer levels.old levels.new) }
{
    let count = levels.len();
    let mut level = 0;
    while level < count {
        let answer = ask_level(alloc, levels, level, key, now)?;
        if !is_miss(&answer) {
            return Ok(answer);
        }
        level += 1;
    }
    Ok(Answer::Miss)
}

/// Puts an entry of the preprocessor at one level, and at no other.
fn put_level<R: Remote, D: Disk + Drop, V: Vouch>(
    levels: &mut Layered<R, D, V>,
    level: usize,
    key: &Text,
    bytes: &[u8],
    now: u64,
) -> Result<Written, NoMemory>
    requires { level < length levels.old.levels }
    ensures keeps { Keeps levels.old levels.new }
    ensures wrote { IfOk result (λ how. preprocessor.PutsPreAt level key.now bytes.now how levels.old levels.new) }
{
    levels.put_pre_step(level, key, bytes, now)
}

/// The levels that take such an entry.
fn plan_of<R: Remote, D: Disk, V: Vouch>(
    alloc: Global,
    levels: &Layered<R, D, V>,
) -> Result<Queue<u64>, NoMemory>
    requires { is_single levels.now.policy ≡ false }
    ensures plan { IfOk result (λ taking. taking ≡ plans.pre_plan levels.now.policy levels.now.facts) }
    ensures there { IfOk result (λ taking. AreLevels (length levels.now.levels) taking) }
{
    let _count = levels.len();
    levels.pre_plan(alloc)
}

/// Puts it at each of the levels that take it, in order, whatever that comes to.
pub(crate) fn put_each<R: Remote, D: Disk + Drop, V: Vouch>(
    alloc: Global,
    levels: &mut Layered<R, D, V>,
    key: &Text,
    bytes: &[u8],
    now: u64,
) -> Result<(), NoMemory>
    requires { is_single levels.old.policy ≡ false }
    ensures keeps { Keeps levels.old levels.new }
    ensures wrote { IfOk result (λ _. preprocessor.PutsPreOver key.now bytes.now levels.old levels.new) }
{
    let mut left = plan_of(alloc, levels)?;
    while let Some(level) = left.pop_front() {
        put_level(levels, level as usize, key, bytes, now)?;
    }
    Ok(())
}
