//! Tests of `sc_store` and of the crates that were split from it.
#![tactic(auto)]

#[cfg(test)]
mod entry_cache;
#[cfg(test)]
mod levels;
#[cfg(test)]
mod store;
#[cfg(test)]
mod store_config;
#[cfg(test)]
mod stores;
#[cfg(test)]
mod warming;
