//! What the levels of a daemon over memory hold, in numbers.
ghost use Rattle.std.specs.Prelude.{◌≡◌, ℕ, true, IfOk};
ghost use Rattle.sc_store_disk.specs.DiskStores.{held_disk};
ghost use Rattle.sc_main_memory.specs.Sizes.{size_of, sizes_of};
ghost use Rattle.sc_daemon_owned.specs.State.{reserved_in};
ghost use Rattle.sc_store.specs.Held.{room_in};
ghost use Rattle.sc_store.specs.Levels.{held_level};

use crate::memory::Memory;
use sc_daemon_owned::Owned;
use sc_disk::MemDisk;
use sc_entry::NoMemory;
use sc_main_script::LevelSize;
use sc_store::{Layered, Level, MemRemote, ReadOnlyLevel, RemoteStorage, Unvouched};
use sc_store_disk::EntryCache;
use std::alloc::Global;

/// What a disk store holds. It need not be opened.
fn disk_size(cache: &EntryCache<MemDisk>) -> Result<LevelSize, NoMemory>
    ensures { (held_disk cache.now).told ≡ true → IfOk result (λ size. size ≡ size_of (held_disk cache.now).reserved (held_disk cache.now).level) }
{
    cache.keeps();
    let held = cache.held_size()?;
    Ok(LevelSize {
        bytes: held.bytes,
        entries: held.files as u64,
    })
}

/// What a remote store in memory holds.
fn remote_size(store: &RemoteStorage<MemRemote, Unvouched>) -> LevelSize
    ensures { store.now.told ≡ true → result ≡ size_of store.now.room.reserved store.now.level }
{
    let remote = store.remote();
    LevelSize {
        bytes: remote.size().saturating_add(store.reserved()),
        entries: remote.len() as u64,
    }
}

/// How many bytes a level holds and has reserved, and at how many paths it holds some. A disk level need not be opened: it is told
/// what an opening would keep.
pub fn level_size(level: &Level<MemRemote, MemDisk, Unvouched>) -> Result<LevelSize, NoMemory>
    ensures { (held_level level.now).told ≡ true → IfOk result (λ size. size ≡ size_of (held_level level.now).room.reserved (held_level level.now).level) }
{
    match level {
        Level::Remote(store) => Ok(remote_size(store)),
        Level::Disk(store) => disk_size(store.cache()),
        Level::ReadOnly(ReadOnlyLevel::Remote(only)) => Ok(remote_size(&only.store)),
        Level::ReadOnly(ReadOnlyLevel::Disk(only)) => disk_size(only.store.cache()),
    }
}

fn sizes_of(
    alloc: Global,
    levels: &Layered<MemRemote, MemDisk, Unvouched>,
) -> Result<Vec<LevelSize>, NoMemory>
    ensures { levels.now.told ≡ true → IfOk result (λ sizes. sizes.items ≡ sizes_of (λ l. (room_in levels.now.rooms l).reserved) levels.now.levels) }
{
    let mut sizes = Vec::new(alloc);
    for level in 0..levels.len() {
        sizes.push(level_size(levels.get(level))?)?;
    }
    Ok(sizes)
}

/// The size of each level in their order, as `level_size` tells it.
pub fn level_sizes(alloc: Global, owned: &Owned<Memory>) -> Result<Vec<LevelSize>, NoMemory>
    ensures { owned.now.told ≡ true → IfOk result (λ sizes. sizes.items ≡ sizes_of (reserved_in owned.now) owned.now.world.levels) }
{
    let sizes = sizes_of(alloc, owned.levels())?;
    Ok(sizes)
}
