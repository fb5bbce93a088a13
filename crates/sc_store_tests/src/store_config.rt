//! What a configuration makes that no other crate of tests sees made.
use sc_entry::{CacheMode, Items, Text};
use sc_store::{MemRemote, RemoteStorage, Unvouched};
use sc_store_config::{ConfigError, RemoteConfig, build_single_cache};
use std::alloc::Global;
use std::test::Fail;

/// A remote that holds nothing and is only read.
fn remote(alloc: Global) -> Result<RemoteConfig<MemRemote>, Fail> {
    let remote = MemRemote::new(alloc, Items::new(alloc), Items::new(alloc))?;
    let mode = CacheMode::ReadOnly;
    Ok(RemoteConfig { remote, mode })
}

/// The store over it, without base directories.
fn store(alloc: Global) -> Result<RemoteStorage<MemRemote, Unvouched>, Fail> {
    Ok(build_single_cache(alloc, remote(alloc)?, &[], true)?)
}

fn is_only_read(alloc: Global) -> Result<bool, Fail> {
    let store = store(alloc)?;
    let is_only_read = matches!(store.configured(), CacheMode::ReadOnly);
    Ok(is_only_read && store.basedirs().is_empty())
}

#[test]
fn ample_build_single_cache(rt: HostRuntime) -> Result<(), Fail> {
    assert!(rt; is_only_read(rt.alloc())?);
    Ok(())
}

/// Whether a refusal is told so.
fn is_told(alloc: Global, refusal: &ConfigError, expected: &str) -> Result<bool, Fail> {
    let text = format!(in alloc; "{refusal}")?;
    Ok(text.as_str() == expected)
}

fn tells_name(alloc: Global) -> Result<bool, Fail> {
    let refusal = ConfigError::ConfigFault(Text::from_str(alloc, "r2")?);
    is_told(alloc, &refusal, "Cache level 'r2' is not configured")
}

#[test]
fn unknown_name_is_told(rt: HostRuntime) -> Result<(), Fail> {
    assert!(rt; tells_name(rt.alloc())?);
    Ok(())
}
