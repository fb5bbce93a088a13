//! Makes a store from a configuration.
ghost use Rattle.std.specs.Prelude.{◌≡◌, Ok, IfOk, IfErr, map};
ghost use Rattle.sc_model.specs.declared.level.Policy.TheVariants as policies;
ghost use Rattle.sc_store.specs.Levels.{held_level};
ghost use Rattle.sc_store_config.specs.Configs as configs;
ghost use Rattle.sc_store_config.specs.Policies as settings;

use crate::config_error::ConfigError;
use crate::disk_config::DiskConfig;
use crate::remote_config::RemoteConfig;
use crate::store_config::StoreConfig;
use crate::unused::Unused;
use crate::write_error_policy::WriteErrorPolicy;
use sc_disk::Disk;
use sc_entry::{ByteText, Items, NoMemory, Text};
use sc_model::{LevelPolicy, Policy};
use sc_store::{DiskCache, Layered, Level, Remote, RemoteStorage, Vouch};
use std::alloc::Global;

/// A copy of the base directories.
fn copy_of(alloc: Global, basedirs: &[ByteText]) -> Result<Items<ByteText>, NoMemory>
    ensures { IfOk result (λ copy. copy ≡ basedirs.now) }
{
    let copy = basedirs.to_vec(alloc)?;
    Ok(Items::from_vec(copy))
}

/// The store over a remote, with a copy of these base directories. A check of it makes no call where this says so. It
/// fails where memory runs out, and nowhere else.
pub fn build_single_cache<R: Remote + Drop, V: Vouch>(
    alloc: Global,
    config: RemoteConfig<R>,
    basedirs: &[ByteText],
    skip_cache_check: bool,
) -> Result<RemoteStorage<R, V>, NoMemory>
    ensures { IfOk result (λ store. store ≡ configs.remote_as R.names R.held R.fault_count R.loss_count R.calls R.reached basedirs.now skip_cache_check config) }
{
    let basedirs = copy_of(alloc, basedirs)?;
    let store = RemoteStorage::new(alloc, config.remote, basedirs, config.mode);
    Ok(store.with_skip_cache_check(skip_cache_check))
}

/// The disk store over two disks, with a copy of these base directories.
pub(crate) fn build_disk<D: Disk + Drop, V: Vouch>(
    alloc: Global,
    config: DiskConfig<D>,
    basedirs: &[ByteText],
) -> Result<DiskCache<D, V>, NoMemory>
    ensures { IfOk result (λ store. store ≡ configs.disk_as D.state basedirs.now config) }
{
    let basedirs = copy_of(alloc, basedirs)?;
    Ok(DiskCache::new(
        alloc,
        config.main,
        config.pre,
        config.max_size,
        config.use_preprocessor_cache_mode,
        config.mode,
        basedirs,
    ))
}

/// The levels that a chain names, in its order.
fn chain_levels<R: Remote + Drop, D: Disk + Drop, V: Vouch>(
    alloc: Global,
    chain: &[Text],
    unused: Unused<R, D>,
    basedirs: &[ByteText],
    skip_cache_check: bool,
) -> Result<Vec<Level<R, D, V>>, ConfigError>
    ensures levels { IfOk result (λ levels. configs.chain_levels (configs.remote_as R.names R.held R.fault_count R.loss_count R.calls R.reached basedirs.now skip_cache_check) (configs.disk_as D.state basedirs.now) chain.now unused.disk unused.remotes.items ≡ Ok (map held_level levels.items)) }
    ensures fault { IfErr result (λ error. configs.IsCause error (configs.chain_levels (configs.remote_as R.names R.held R.fault_count R.loss_count R.calls R.reached basedirs.now skip_cache_check) (configs.disk_as D.state basedirs.now) chain.now unused.disk unused.remotes.items)) }
{
    let mut unused = unused;
    let mut levels = Vec::new(alloc);
    let mut left = chain;
    while let [first, rest @ ..] = left {
        let name = first.as_str().trim();
        let Some(level) = unused.take_level(alloc, name, basedirs, skip_cache_check)? else {
            return Err(ConfigError::ConfigFault(Text::from_str(alloc, name)?));
        };
        levels.push(level)?;
        left = rest;
    }
    Ok(levels)
}

/// The policies of a chain of so many levels.
fn chain_policies(
    alloc: Global,
    given: Option<Items<LevelPolicy>>,
    setting: WriteErrorPolicy,
    levels: usize,
) -> Result<Items<LevelPolicy>, NoMemory>
    ensures { IfOk result (λ policies. policies ≡ settings.chain_policies given setting levels) }
{
    match given {
        Some(policies) => Ok(policies),
        None => setting.policies(alloc, levels),
    }
}

/// The one level of a store without a chain.
fn single_level<R: Remote + Drop, D: Disk + Drop, V: Vouch>(
    alloc: Global,
    remote: Option<RemoteConfig<R>>,
    fallback: DiskConfig<D>,
    basedirs: &[ByteText],
    skip_cache_check: bool,
) -> Result<Level<R, D, V>, NoMemory>
    ensures { IfOk result (λ level. held_level level ≡ configs.single_level (configs.remote_as R.names R.held R.fault_count R.loss_count R.calls R.reached basedirs.now skip_cache_check) (configs.disk_as D.state basedirs.now) remote fallback) }
{
    match remote {
        Some(config) => {
            let store = build_single_cache(alloc, config, basedirs, skip_cache_check)?;
            Ok(Level::Remote(store))
        }
        None => {
            let store = build_disk(alloc, fallback, basedirs)?;
            Ok(Level::Disk(store))
        }
    }
}

/// The store of one level.
fn single_store<R: Remote + Drop, D: Disk + Drop, V: Vouch>(
    alloc: Global,
    config: StoreConfig<R, D>,
) -> Result<Layered<R, D, V>, NoMemory>
    ensures { IfOk result (λ store. store ≡ configs.single_store (configs.remote_as R.names R.held R.fault_count R.loss_count R.calls R.reached config.basedirs config.skip_cache_check) (configs.disk_as D.state config.basedirs) config) }
{
    let level = single_level(
        alloc,
        config.remote,
        config.fallback,
        config.basedirs.as_slice(),
        config.skip_cache_check,
    )?;
    let mut levels = Vec::new(alloc);
    levels.push(level)?;
    Ok(Layered::new(levels, Policy::Single))
}

/// The store of a chain's levels.
fn chain_store<R: Remote + Drop, D: Disk + Drop, V: Vouch>(
    alloc: Global,
    config: StoreConfig<R, D>,
) -> Result<Layered<R, D, V>, ConfigError>
    ensures store { IfOk result (λ store. configs.chain_store (configs.remote_as R.names R.held R.fault_count R.loss_count R.calls R.reached config.basedirs config.skip_cache_check) (configs.disk_as D.state config.basedirs) config ≡ Ok store) }
    ensures fault { IfErr result (λ error. configs.IsCause error (configs.chain_store (configs.remote_as R.names R.held R.fault_count R.loss_count R.calls R.reached config.basedirs config.skip_cache_check) (configs.disk_as D.state config.basedirs) config)) }
{
    let policies = chain_policies(
        alloc,
        config.level_policies,
        config.write_error_policy,
        config.chain.len(),
    )?;
    let unused = Unused {
        disk: config.disk,
        remotes: config.remotes.into_vec(),
    };
    let levels = chain_levels(
        alloc,
        config.chain.as_slice(),
        unused,
        config.basedirs.as_slice(),
        config.skip_cache_check,
    )?;
    Ok(Layered::new(levels, Policy::Levels(policies)))
}

/// The store that a configuration makes: the levels of the chain, where it names any; else the one remote store, where
/// there is one; else the fallback disk. Every level has a copy of the base directories, and every remote store is told
/// whether a check of it makes no call. A name of the chain without a configuration is an error: the first such name, in
/// the chain's order.
pub fn storage_from_config<R: Remote + Drop, D: Disk + Drop, V: Vouch>(
    alloc: Global,
    config: StoreConfig<R, D>,
) -> Result<Layered<R, D, V>, ConfigError>
    ensures store { IfOk result (λ store. configs.store_of (configs.remote_as R.names R.held R.fault_count R.loss_count R.calls R.reached config.basedirs config.skip_cache_check) (configs.disk_as D.state config.basedirs) config ≡ Ok store) }
    ensures fault { IfErr result (λ error. configs.IsCause error (configs.store_of (configs.remote_as R.names R.held R.fault_count R.loss_count R.calls R.reached config.basedirs config.skip_cache_check) (configs.disk_as D.state config.basedirs) config)) }
{
    if config.chain.is_empty() {
        let store = single_store(alloc, config)?;
        return Ok(store);
    }
    chain_store(alloc, config)
}
