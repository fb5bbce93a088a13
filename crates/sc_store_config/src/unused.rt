//! The configurations of a chain's levels.
ghost use Rattle.std.specs.Prelude.{◌≡◌, IfOk};
ghost use Rattle.std.specs.Option.{option_map};
ghost use Rattle.sc_store.specs.Levels.{held_level};
ghost use Rattle.sc_store_config.specs.Configs as configs;

use crate::building::{build_disk, build_single_cache};
use crate::disk_config::DiskConfig;
use crate::remote_config::{NamedRemote, RemoteConfig};
use sc_disk::Disk;
use sc_entry::{ByteText, NoMemory};
use sc_store::{Level, Remote, Vouch};
use std::alloc::Global;

/// The configurations of a chain that no level has taken yet.
#[derive(Drop)]
pub(crate) struct Unused<R, D> {
    pub(crate) disk: Option<DiskConfig<D>>,
    pub(crate) remotes: Vec<NamedRemote<R>>,
}

/// Whether a name is that of the disk store.
fn is_disk(name: &str) -> bool
    ensures { result ≡ configs.is_disk name.now }
{
    name.eq_ignore_ascii_case("disk")
}

/// Where the first remote of this name stands.
fn place_of<R>(remotes: &[NamedRemote<R>], name: &str) -> Option<usize>
    ensures { result ≡ configs.place_of name.now remotes.now }
{
    for place in 0..remotes.len() {
        if remotes[place].name.as_str() == name {
            return Some(place);
        }
    }
    None
}

/// Takes the first remote of this name.
fn take_remote<R: Drop>(remotes: &mut Vec<NamedRemote<R>>, name: &str) -> Option<RemoteConfig<R>>
    ensures taken { result ≡ configs.first_named name.now remotes.old.items }
    ensures left { remotes.new.items ≡ configs.without_first name.now remotes.old.items }
{
    let place = place_of(remotes, name)?;
    Some(remotes.remove(place).config)
}

impl<R: Remote + Drop, D: Disk + Drop> Unused<R, D> {
    /// The level of this name, where there is a configuration for it. The level takes it.
    pub(crate) fn take_level<V: Vouch>(
        &mut self,
        alloc: Global,
        name: &str,
        basedirs: &[ByteText],
        skip_cache_check: bool,
    ) -> Result<Option<Level<R, D, V>>, NoMemory>
        ensures level { IfOk result (λ level. option_map held_level level ≡ configs.level_named (configs.remote_as R.names R.held R.fault_count R.loss_count R.calls R.reached basedirs.now skip_cache_check) (configs.disk_as D.state basedirs.now) name.now self.old.disk self.old.remotes.items) }
        ensures disk { self.new.disk ≡ configs.disk_behind name.now self.old.disk }
        ensures remotes { self.new.remotes.items ≡ configs.remotes_behind name.now self.old.remotes.items }
    {
        if is_disk(name) {
            let Some(config) = self.disk.take() else {
                return Ok(None);
            };
            let store = build_disk(alloc, config, basedirs)?;
            return Ok(Some(Level::Disk(store)));
        }
        let Some(config) = take_remote(&mut self.remotes, name) else {
            return Ok(None);
        };
        let store = build_single_cache(alloc, config, basedirs, skip_cache_check)?;
        Ok(Some(Level::Remote(store)))
    }
}
