//! Tests of `sc_daemon` and of the crates that were split from it.
#![tactic(auto)]

#[cfg(test)]
mod direct;
#[cfg(test)]
mod ranked;
#[cfg(test)]
mod scripts;
#[cfg(test)]
mod uses;
