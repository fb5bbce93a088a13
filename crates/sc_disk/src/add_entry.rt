ghost use Rattle.std.specs.Prelude.{◌≡◌};

use crate::file_key::FileKey;
use sc_entry::Text;
use std::marker::Model;

/// An entry that is open in the store that made it. Its bytes go to a temporary, which gets the key's path when the entry
/// is committed. One that is dropped stays reserved.
#[derive(Drop)]
pub struct LruDiskCacheAddEntry {
    pub(crate) number: usize,
    pub(crate) key: FileKey,
    /// Whether its temporary stands in its key's first part.
    pub(crate) divided: bool,
    pub(crate) path: Text,
}

impl Model for LruDiskCacheAddEntry {
    ghost use Rattle.std.specs.Prelude.{◌≡◌, ◌<◌, ◌^◌, is_some, true};
    ghost use Rattle.sc_disk.specs.Disks.{device_of};
    ghost use Rattle.sc_disk.specs.Names.{temporary};
    ghost use Rattle.sc_disk.specs.Store.{AddEntry, add_entry};

    ghost Value = { AddEntry };

    ghost view = { λ e. add_entry e.number e.key e.divided };

    ghost invariant = { λ e. (e.path ≡ temporary e.divided e.key e.number) × (e.number < 2 ^ 64) × (e.divided ≡ true → is_some (device_of e.key) ≡ true) };
}

impl LruDiskCacheAddEntry {
    /// Its number among the open entries of its store.
    pub fn number(&self) -> usize
        ensures { result ≡ self.now.number }
    {
        self.number
    }

    /// The key that its file gets when it is committed.
    pub fn key(&self) -> &FileKey
        ensures { result.now ≡ self.now.key }
    {
        &self.key
    }
}
