use crate::disk_config::DiskConfig;
use crate::remote_config::{NamedRemote, RemoteConfig};
use crate::write_error_policy::WriteErrorPolicy;
use sc_entry::{ByteText, Items, Text};
use sc_model::LevelPolicy;

/// What the store of a daemon is made of. With a chain it has the levels that the chain names; without one it is the store
/// behind the network that stands alone, where there is one, and else the fallback disk.
#[derive(Drop)]
pub struct StoreConfig<R, D> {
    /// The names of the levels, in order. White space at both ends of a name does not count. `disk`, in upper or lower case,
    /// names the disk store, any other name a remote one.
    pub chain: Items<Text>,
    /// The policies of the chain's levels, in order. Without them the setting says what they are.
    pub level_policies: Option<Items<LevelPolicy>>,
    pub write_error_policy: WriteErrorPolicy,
    /// The disk store of a chain.
    pub disk: Option<DiskConfig<D>>,
    /// The remote stores of a chain. A name takes the first that has it; a name that stands in a chain again takes the next.
    pub remotes: Items<NamedRemote<R>>,
    /// The store that stands alone where there is no chain.
    pub remote: Option<RemoteConfig<R>>,
    /// The disk store that stands alone where there is nothing else.
    pub fallback: DiskConfig<D>,
    /// The base directories that paths are stripped of, in order. Each level has a copy of them.
    pub basedirs: Items<ByteText>,
    /// Whether a check of a remote store makes no call.
    pub skip_cache_check: bool,
}
