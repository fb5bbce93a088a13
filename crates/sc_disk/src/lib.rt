//! A store of files on a disk, in the order of their use, within a capacity.
#![tactic(auto)]

mod abs_path;
mod add_entry;
mod change;
mod disk;
mod disk_file;
mod entry_file;
mod error;
mod file_key;
mod file_name;
mod file_size;
mod file_table;
mod inserting;
mod key_path;
mod lazy;
mod lru_disk_cache;
mod mem_disk;
mod opening;
mod pending;
mod reading;
mod sound;
mod writing;

pub use add_entry::LruDiskCacheAddEntry;
pub use change::Change;
pub use disk::{Disk, DiskError, Listed};
pub use disk_file::DiskFile;
pub use entry_file::EntryFile;
pub use error::Error;
pub use file_key::FileKey;
pub use key_path::{is_store_key, make_key_path, normalize_key};
pub use lazy::LazyDiskCache;
pub use lru_disk_cache::LruDiskCache;
pub use mem_disk::MemDisk;
pub use opening::{OpenError, is_kept};
pub use writing::{FileWriter, InsertError};
