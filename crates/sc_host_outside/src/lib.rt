//! What a program on the host has beside its words and streams: the edge to the outside.
#![tactic(auto)]

mod host_outside;
mod variables;

pub use host_outside::{HostOutside, System};
