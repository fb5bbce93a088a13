//! Lookups over levels.
ghost use Rattle.std.specs.Prelude.{◌≡◌, ◌<◌, true, IfOk, length};
ghost use Rattle.sc_model.specs.Plan.{backfills};
ghost use Rattle.sc_model.specs.There.{AreHanded};
ghost use Rattle.sc_model.specs.declared.event.Mode.TheVariants.{Whole};
ghost use Rattle.sc_store_alone.specs.Lookups as lookups;
ghost use Rattle.sc_store_alone.specs.Moving.{Keeps, counted};
ghost use Rattle.sc_store.specs.Asking.{reads_key};

use crate::counting::count_asked;
use crate::putting::write_handed;
use sc_disk::Disk;
use sc_entry::{Items, NoMemory, Text};
use sc_model::{Answer, Handed, Mode};
use sc_stats::LevelStats;
use sc_store::{Layered, Remote, Vouch};
use sc_store_alone::Hit;
use std::alloc::Global;

/// Looks a key up at one level, and at no other, and counts there what it answers.
pub(crate) fn ask_level<R: Remote, D: Disk + Drop, V: Vouch>(
    alloc: Global,
    levels: &mut Layered<R, D, V>,
    counters: &mut [LevelStats],
    level: usize,
    key: &Text,
    mode: Mode,
    now: u64,
) -> Result<Answer, NoMemory>
    requires level { level < length levels.old.levels }
    requires mode { reads_key mode ≡ true }
    ensures keeps { Keeps levels.old levels.new }
    ensures asked { IfOk result (λ answer. lookups.LooksAt level key.now mode answer (counted levels.old counters.old) (counted levels.new counters.new)) }
{
    let answer = levels.ask(alloc, level, key, mode, now)?;
    count_asked(alloc, counters, level as u64, &answer);
    Ok(answer)
}

/// What a level's answer found: a refusal is passed over as a miss.
fn hit_in(level: u64, answer: Answer) -> Option<Hit>
    ensures { result ≡ lookups.hit_in level answer }
{
    match answer {
        Answer::Hit(bytes, mark) => Some(Hit { level, bytes, mark }),
        Answer::Miss => None,
        Answer::Refused(_) => None,
        Answer::Found(_) => None,
        Answer::Size(_, _) => None,
    }
}

/// Asks the levels in order, until one hits.
fn find<R: Remote, D: Disk + Drop, V: Vouch>(
    alloc: Global,
    levels: &mut Layered<R, D, V>,
    counters: &mut [LevelStats],
    key: &Text,
    mode: Mode,
    now: u64,
) -> Result<Option<Hit>, NoMemory>
    requires { reads_key mode ≡ true }
    ensures keeps { Keeps levels.old levels.new }
    ensures found { IfOk result (λ found. lookups.Finds key.now mode found (counted levels.old counters.old) (counted levels.new counters.new)) }
    ensures spelled { IfOk result (λ found. mode ≡ Whole → lookups.IsSpelled found) }
{
    let count = levels.len();
    let mut level = 0;
    while level < count {
        let answer = ask_level(alloc, levels, counters, level, key, mode, now)?;
        if let Some(hit) = hit_in(level as u64, answer) {
            return Ok(Some(hit));
        }
        level += 1;
    }
    Ok(None)
}

/// The writes that a hit hands on.
fn handed_for<R: Remote, D: Disk, V: Vouch>(
    alloc: Global,
    levels: &Layered<R, D, V>,
    key: &Text,
    mode: Mode,
    level: u64,
    answer: &Answer,
) -> Result<Items<Handed>, NoMemory>
    ensures handed { IfOk result (λ handed. handed ≡ backfills levels.now.policy levels.now.facts level key.now mode answer.now) }
    ensures there { IfOk result (λ handed. AreHanded (length levels.now.levels) handed) }
{
    let _count = levels.len();
    levels.backfills(alloc, level, key, mode, answer)
}

/// Looks a key up, level by level. A hit's bytes go to the levels before it.
pub(crate) fn look_up<R: Remote, D: Disk + Drop, V: Vouch>(
    alloc: Global,
    levels: &mut Layered<R, D, V>,
    counters: &mut [LevelStats],
    key: &Text,
    mode: Mode,
    now: u64,
) -> Result<Option<Hit>, NoMemory>
    requires { reads_key mode ≡ true }
    ensures keeps { Keeps levels.old levels.new }
    ensures found { IfOk result (λ found. lookups.LooksUp key.now mode found (counted levels.old counters.old) (counted levels.new counters.new)) }
    ensures spelled { IfOk result (λ found. mode ≡ Whole → lookups.IsSpelled found) }
{
    let Some(Hit { level, bytes, mark }) = find(alloc, levels, counters, key, mode, now)? else {
        return Ok(None);
    };
    let answer = Answer::Hit(bytes, mark);
    let handed = handed_for(alloc, levels, key, mode, level, &answer)?;
    write_handed(alloc, levels, counters, true, handed.as_slice(), now)?;
    Ok(hit_in(level, answer))
}
