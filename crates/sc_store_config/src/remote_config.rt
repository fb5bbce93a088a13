use sc_entry::{CacheMode, Text};

/// A store behind a network, as a configuration says it.
#[derive(Drop)]
pub struct RemoteConfig<R> {
    pub remote: R,
    pub mode: CacheMode,
}

/// The same, with the name that a chain finds it by.
#[derive(Drop)]
pub struct NamedRemote<R> {
    pub name: Text,
    pub config: RemoteConfig<R>,
}
