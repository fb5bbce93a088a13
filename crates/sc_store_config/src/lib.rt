//! Makes the store of a daemon from a plain configuration: a chain of named levels, one store behind a network, or a disk.
#![tactic(auto)]

mod building;
mod config_error;
mod disk_config;
mod remote_config;
mod store_config;
mod unused;
mod write_error_policy;

pub use building::{build_single_cache, storage_from_config};
pub use config_error::ConfigError;
pub use disk_config::DiskConfig;
pub use remote_config::{NamedRemote, RemoteConfig};
pub use store_config::StoreConfig;
pub use write_error_policy::WriteErrorPolicy;
