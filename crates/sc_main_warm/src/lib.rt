//! Scripts of warm: two levels, and the keys whose entries are copied from the first into the second.
#![tactic(auto)]

mod laws;
mod reading;
#[cfg(test)]
mod tests;
mod warm_draft;
mod warm_script;

pub use laws::warmed_levels_hold_store_keys;
pub use reading::read_warm;
pub use warm_script::WarmScript;
