//! Whether a daemon's store tells paths of its entries.
ghost use Rattle.std.specs.Prelude.{◌≡◌, ◌&&◌, not};
ghost use Rattle.sc_daemon_owned.specs.Facts.{config_of};
ghost use Rattle.sc_model.specs.Dues.{is_disk_alone};
ghost use Rattle.sc_model.specs.Plan.{is_disk};
ghost use Rattle.sc_store.specs.Levels.{held_level};

use crate::owned::Owned;
use crate::parts::Parts;
use sc_disk::Disk;
use sc_store::{Level, ReadOnlyLevel, Remote, Vouch};

/// Whether a level is a disk store that is not only read.
fn is_bare_disk<R: Remote, D: Disk, V: Vouch>(level: &Level<R, D, V>) -> bool
    ensures { result ≡ (is_disk (held_level level.now).facts.kind && not (held_level level.now).facts.wrapped) }
{
    match level {
        Level::Disk(store) => {
            store.keeps();
            true
        }
        Level::Remote(store) => {
            let _remote = store.kind();
            false
        }
        Level::ReadOnly(ReadOnlyLevel::Disk(only)) => {
            only.store.keeps();
            false
        }
        Level::ReadOnly(ReadOnlyLevel::Remote(only)) => {
            let _remote = only.store.kind();
            false
        }
    }
}

impl<P: Parts> Owned<P> {
    /// Whether it tells paths of entries: its one store is a disk store that is not only read.
    #[tactic(auto, using(crate::proofs::Alone::first_alone, crate::proofs::Alone::many_alone, crate::proofs::Alone::none_alone))]
    pub fn has_paths(&self) -> bool
        ensures { result ≡ is_disk_alone (config_of self.now.config).policy (config_of self.now.config).levels }
    {
        if !self.levels.is_single() || self.levels.len() == 0 {
            return false;
        }
        is_bare_disk(self.levels.get(0))
    }
}
