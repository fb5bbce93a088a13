//! The check of levels.
ghost use Rattle.std.specs.Prelude.{◌≡◌, ◌<◌, IfOk, length};
ghost use Rattle.sc_store_alone.specs.Checks as checks;

use sc_disk::Disk;
use sc_entry::{CacheMode, NoMemory};
use sc_model::{LevelPolicy, Policy};
use sc_store::{Checked, Layered, Remote, Vouch};
use sc_store_alone::Step;
use std::alloc::Global;

/// The policy of a level. A missing one is `Background`; a store that stands alone has to be written.
fn policy_at(policy: &Policy, level: usize) -> LevelPolicy
    ensures { result ≡ checks.policy_at policy.now level }
{
    match policy {
        Policy::Single => LevelPolicy::Required,
        Policy::Levels(policies) => match policies.as_slice().get(level) {
            Some(policy) => *policy,
            None => LevelPolicy::Background,
        },
    }
}

fn either(mode: CacheMode, found: CacheMode) -> CacheMode
    ensures { result ≡ checks.either mode found }
{
    match mode {
        CacheMode::ReadWrite => CacheMode::ReadWrite,
        CacheMode::ReadOnly => found,
    }
}

fn step_of(policy: LevelPolicy, mode: CacheMode, found: Checked) -> Step
    ensures { result ≡ checks.step_of policy mode found }
{
    match (policy, found) {
        (_, Checked::Mode(found)) => Step::Goes(either(mode, found)),
        (LevelPolicy::Required, Checked::Refused(cause)) => Step::Ends(cause),
        (LevelPolicy::Background, Checked::Refused(_)) => Step::Goes(CacheMode::ReadWrite),
        (LevelPolicy::Off, Checked::Refused(_)) => Step::Goes(CacheMode::ReadWrite),
    }
}

fn first_mode(count: usize) -> CacheMode
    ensures { result ≡ checks.first_mode count }
{
    if count == 0 {
        CacheMode::ReadWrite
    } else {
        CacheMode::ReadOnly
    }
}

/// The check of one level, and of no other.
fn check_level<R: Remote, D: Disk + Drop, V: Vouch>(
    alloc: Global,
    levels: &mut Layered<R, D, V>,
    level: usize,
) -> Result<Checked, NoMemory>
    requires { level < length levels.old.levels }
    ensures stays { checks.Stays levels.old levels.new }
    ensures checked { IfOk result (λ found. checks.CheckedAt level found levels.old levels.new) }
{
    levels.check_step(alloc, level)
}

/// One level's turn in a check: a level that is off isn't checked.
fn take_turn<R: Remote, D: Disk + Drop, V: Vouch>(
    alloc: Global,
    levels: &mut Layered<R, D, V>,
    level: usize,
    mode: CacheMode,
) -> Result<Step, NoMemory>
    requires { level < length levels.old.levels }
    ensures stays { checks.Stays levels.old levels.new }
    ensures turn { IfOk result (λ step. checks.TakesTurn (checks.policy_at levels.old.policy level) level mode step levels.old levels.new) }
{
    let policy = policy_at(levels.policy(), level);
    if let LevelPolicy::Off = policy {
        return Ok(Step::Goes(mode));
    }
    let found = check_level(alloc, levels, level)?;
    Ok(step_of(policy, mode, found))
}

/// Checks the levels in their order. The first refusal of a level that has to be written is the answer; else they can be
/// written where one can, or where one refused that need not be.
pub(crate) fn check<R: Remote, D: Disk + Drop, V: Vouch>(
    alloc: Global,
    levels: &mut Layered<R, D, V>,
) -> Result<Checked, NoMemory>
    ensures stays { checks.Stays levels.old levels.new }
    ensures checked { IfOk result (λ answer. checks.ChecksAll answer levels.old levels.new) }
{
    let count = levels.len();
    let mut mode = first_mode(count);
    let mut level = 0;
    while level < count {
        match take_turn(alloc, levels, level, mode)? {
            Step::Goes(found) => mode = found,
            Step::Ends(cause) => return Ok(Checked::Refused(cause)),
        }
        level += 1;
    }
    Ok(Checked::Mode(mode))
}
