//! Stores of compile results: a store behind a network, and a daemon's levels of stores in order.
#![tactic(auto)]

mod basedirs;
mod checked;
mod disk_cache;
mod level;
mod levels;
mod mem_remote;
mod path_map;
mod planning;
mod read_only;
mod remote;
mod remote_storage;
mod telling;
mod vouch;

pub use checked::Checked;
pub use disk_cache::DiskCache;
pub use level::Level;
pub use levels::Layered;
pub use mem_remote::MemRemote;
pub use read_only::{ReadOnlyLevel, ReadOnlyStorage};
pub use remote::{Remote, RemoteRead, RemoteWrite};
pub use remote_storage::RemoteStorage;
pub use sc_store_disk::{EntryCache, EntryError, Filling, Reservation};
pub use vouch::{Unvouched, Vouch};
