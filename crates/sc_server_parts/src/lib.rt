//! The parts of a daemon that runs commands and keeps its entries on disks, and the daemon that is made of them.
#![tactic(auto)]

mod command_parts;
mod making;
mod no_dist;
mod no_remote;

pub use command_parts::CommandParts;
pub use making::{LIMIT, daemon_over, disk_levels};
pub use no_dist::{NoDist, NoDistMaker};
pub use no_remote::NoRemote;
