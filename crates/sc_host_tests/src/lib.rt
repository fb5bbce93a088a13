//! Tests of `sc_host` and of the crates that were split from it, and of `sc_link` over sockets.
#![tactic(auto)]

#[cfg(test)]
mod children;
#[cfg(test)]
mod files;
#[cfg(test)]
mod folders;
#[cfg(test)]
mod links;
#[cfg(test)]
mod probing;
#[cfg(test)]
mod sockets;
