//! How much the levels of a store take.
ghost use Rattle.std.specs.Prelude.{◌≡◌, true};
ghost use Rattle.sc_model.specs.Describing as follows;
ghost use Rattle.sc_model.specs.Asking as world;
ghost use Rattle.sc_store_alone.specs.Sizes.{size_sum};
ghost use Rattle.sc_store.specs.Levels.{held_level};
ghost use Rattle.sc_store.specs.Telling.{known};

use sc_disk::Disk;
use sc_store::{Layered, Level, ReadOnlyLevel, Remote, Vouch};

/// What one level takes, as far as that is known.
fn level_size<R: Remote, D: Disk, V: Vouch>(level: &Level<R, D, V>) -> u64
    ensures { (held_level level.now).told ≡ true → result ≡ known (world.level_size (held_level level.now).facts.kind (held_level level.now).level (held_level level.now).room.reserved) }
{
    match level {
        Level::Remote(store) => {
            let _remote = store.kind();
            0
        }
        Level::Disk(store) => {
            store.keeps();
            store.cache().current_size().unwrap_or(0)
        }
        Level::ReadOnly(ReadOnlyLevel::Remote(only)) => {
            let _remote = only.store.kind();
            0
        }
        Level::ReadOnly(ReadOnlyLevel::Disk(only)) => {
            only.store.keeps();
            only.store.cache().current_size().unwrap_or(0)
        }
    }
}

/// What all levels take, as far as that is known: None where that is nothing. The sum stops at the end of `u64`.
pub(crate) fn current_size<R: Remote, D: Disk, V: Vouch>(levels: &Layered<R, D, V>) -> Option<u64>
    ensures { levels.now.told ≡ true → result ≡ follows.some_size (size_sum levels.now) }
{
    let count = levels.len();
    let mut sum: u64 = 0;
    let mut level = 0;
    while level < count {
        sum = sum.saturating_add(level_size(levels.get(level)));
        level += 1;
    }
    if sum == 0 { None } else { Some(sum) }
}
