//! Tests of the crates that were split from `sc_main`.
#![tactic(auto)]

#[cfg(test)]
mod drawn;
#[cfg(test)]
mod draws;
#[cfg(test)]
mod folders;
#[cfg(test)]
mod generated;
#[cfg(test)]
mod outside_host;
#[cfg(test)]
mod outside_kinds;
#[cfg(test)]
mod outside_memory;
#[cfg(test)]
mod report;
#[cfg(test)]
mod script;
#[cfg(test)]
mod words_printed;
#[cfg(test)]
mod words_read;
