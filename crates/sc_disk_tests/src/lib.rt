//! Tests of `sc_disk` and `sc_disk_pair`, and of what a stop leaves of a store.
#![tactic(auto)]

#[cfg(test)]
mod disks;
#[cfg(test)]
mod pair;
#[cfg(test)]
mod reopen;
#[cfg(test)]
mod store;
