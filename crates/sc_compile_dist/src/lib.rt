//! What compiles on other machines: a distributed client with its maker, where it stands, and one that answers by the lines of a
//! script.
#![tactic(auto)]

mod client;
mod container;
mod dist_line;
mod maker;
mod mem_maker;
mod script_dist;

pub use client::{DistClient, SchedulerStatus};
pub use container::{ClientAnswer, DistClientConfig, DistClientContainer};
pub use dist_line::DistLine;
pub use maker::DistMaker;
pub use mem_maker::MemMaker;
pub use script_dist::ScriptDist;
