//! The JSON of the daemon's statistics, with the types that have one.
#![tactic(auto)]

mod dist;
mod fields;
mod info;
mod levels;
mod stats;
mod text;

pub use dist::DistInfoJson;
pub use info::ServerInfoJson;
pub use sc_stats::{DistInfo, ServerInfo};
