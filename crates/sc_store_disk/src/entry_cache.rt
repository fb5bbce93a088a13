//! A disk store over two folders.
ghost use Rattle.std.specs.Prelude.{◌≡◌};
ghost use Rattle.std.specs.Option.{option_map_or};

use crate::marks::Marks;
use sc_disk::Disk;
use sc_disk_pair::LazyPair;
use sc_entry::CacheMode;
use std::alloc::Global;

/// A disk store of compile results over two folders: one of entries, one of preprocessor entries, with one capacity for
/// the files of both. It is opened when it is first needed.
///
/// A clause sees it as `held_disk` of it.
#[derive(Drop)]
pub struct EntryCache<D: Disk> {
    pub(crate) alloc: Global,
    pub(crate) pair: LazyPair<D>,
    pub(crate) mode: CacheMode,
    pub(crate) marks: Marks,
    ghost limit: { option_map_or (λ c. c.store.capacity) pair.opened pair.max_size ≡ pair.max_size },
}
