//! A store that is only read.
ghost use Rattle.sc_store.specs.Held.{IsWithin};
ghost use Rattle.sc_store.specs.Levels.{held_read_only};
ghost use Rattle.sc_model.specs.Levels.{KeepsMarks};

use crate::disk_cache::DiskCache;
use crate::remote::Remote;
use crate::remote_storage::RemoteStorage;
use crate::vouch::Vouch;
use sc_disk::Disk;

/// A store that is only read: it refuses each put.
#[derive(Drop)]
pub struct ReadOnlyStorage<S> {
    pub store: S,
}

/// The store of a level that is only read.
#[derive(Drop)]
pub enum ReadOnlyLevel<R: Remote, D: Disk, V: Vouch> {
    Remote(ReadOnlyStorage<RemoteStorage<R, V>>),
    Disk(ReadOnlyStorage<DiskCache<D, V>>),
}

impl<R: Remote, D: Disk, V: Vouch> ReadOnlyLevel<R, D, V> {
    /// What it keeps: a disk store's files and reservations take at most its capacity, and no path is marked at which nothing stands.
    pub(crate) fn keeps(&self)
        ensures within { IsWithin (held_read_only self.now).facts (held_read_only self.now).level (held_read_only self.now).room }
        ensures marks { KeepsMarks (held_read_only self.now).level (held_read_only self.now).level }
    {
        match self {
            ReadOnlyLevel::Remote(only) => {
                let _remote = only.store.kind();
            }
            ReadOnlyLevel::Disk(only) => only.store.keeps(),
        }
    }
}
