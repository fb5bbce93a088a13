//! Makes a daemon over commands and disks.
ghost use Rattle.std.specs.Prelude.{◌≡◌, ◌≤◌, ℕ, true, None, IfOk};
ghost use Rattle.sc_command_workshop.specs.Shops.{shop_faults};
ghost use Rattle.sc_daemon_owned.specs.State.{is_good, reserved_in, store_of};
ghost use Rattle.sc_server_parts.specs.Making.{first_world, no_dist_told, one_level};
ghost use Rattle.sc_store.specs.Held.{room_in};
ghost use Rattle.sc_store.specs.Telling.{new_counters};

use crate::command_parts::CommandParts;
use crate::no_dist::{NoDist, NoDistMaker};
use crate::no_remote::NoRemote;
use sc_command::CommandCreator;
use sc_command_workshop::CommandWorkshop;
use sc_compile::Probe;
use sc_compile_dist::DistClientContainer;
use sc_daemon_owned::Owned;
use sc_disk::Disk;
use sc_entry::{CacheMode, Files, Items, NoMemory};
use sc_model::Policy;
use sc_store::{DiskCache, Layered, Level, Unvouched};
use std::alloc::Global;

/// The greatest payload of a frame, in bytes.
pub const LIMIT: u32 = 8_388_608;

/// One store, on a disk for its entries and one for its preprocessor entries, whose files take at most `capacity` bytes. It may
/// be read and written, and isn't opened yet.
pub fn disk_levels<D: Disk + Drop>(
    alloc: Global,
    main: D,
    pre: D,
    capacity: u64,
) -> Result<Layered<NoRemote, D, Unvouched>, NoMemory>
    ensures levels { IfOk result (λ levels. levels ≡ one_level capacity (D.state main) (D.state pre)) }

    // A daemon may have them, and nothing is reserved at them.
    ensures good { IfOk result (λ levels. is_good levels.policy levels.facts ≡ true) }
    ensures unreserved { IfOk result (λ levels. (level : ℕ) → (room_in levels.rooms level).reserved ≡ 0) }
{
    let basedirs = Items::new(alloc);
    let mode = CacheMode::ReadWrite;
    let store = DiskCache::new(alloc, main, pre, capacity, false, mode, basedirs);
    let mut levels = Vec::new(alloc);
    levels.push(Level::Disk(store))?;
    Ok(Layered::new(levels, Policy::Single))
}

/// A daemon over these levels, at which nothing is reserved, at moment 0, with so many tokens for runs (1 to 65,535), payloads of
/// at most 8,388,608 bytes and no distributed client. Its tokens are its own: a run that holds one takes another of the client
/// of `creator`.
pub fn daemon_over<K, F, D, P>(
    levels: Layered<NoRemote, D, Unvouched>,
    creator: K,
    files: F,
    finder: P,
    tokens: u64,
) -> Owned<CommandParts<K, F, D, P>>
where
    K: CommandCreator + Drop,
    K::Cmd: Drop,
    F: Files + Drop,
    D: Disk + Drop,
    P: Probe + Drop,
    requires levels { is_good levels.policy levels.facts ≡ true }
    requires unreserved { (level : ℕ) → (room_in levels.rooms level).reserved ≡ 0 }
    requires tokens { (1 ≤ tokens) × (tokens ≤ 65535) }
    ensures store { result.config.store ≡ store_of levels }
    ensures counters { result.config.counters ≡ new_counters 0 levels.titles }
    ensures levels { result.config.levels ≡ levels.facts }
    ensures policy { result.config.policy ≡ levels.policy }
    ensures tokens { result.config.tokens ≡ tokens }
    ensures limit { result.config.limit ≡ 8388608 }
    ensures table { result.config.table ≡ P.table finder }
    ensures keys { result.config.keys ≡ P.keys finder }
    ensures lines { result.config.lines ≡ None }
    ensures refusals { result.config.refusals ≡ None }
    ensures dist { result.config.dist ≡ no_dist_told }
    ensures told { result.told ≡ levels.told }
    ensures rooms { result.rooms ≡ levels.rooms }
    ensures unreserved { (level : ℕ) → reserved_in result level ≡ 0 }
    ensures world { result.world ≡ first_world levels (shop_faults (K.fault_count creator) (F.fault_count files) 0) }
{
    let shop = CommandWorkshop::new(creator, files);
    let dist = DistClientContainer::new_disabled(NoDist::new(), NoDistMaker::new());
    Owned::new(levels, shop, finder, dist, tokens, LIMIT)
}
