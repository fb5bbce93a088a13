//! What finds compilers among the files of the host: the edge to the outside.
#![tactic(auto)]

mod host_probe;
mod kinds;

pub use host_probe::HostProbe;
