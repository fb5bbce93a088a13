//! Uses of a cache as a text, and the capacity report of them: what they find at each capacity, a line each.
#![tactic(auto)]

mod laws;
mod lending;
mod lines;
mod printing;
mod reading;
mod report;
#[cfg(test)]
mod tests;

pub use laws::{ample_capacity_evicts_nothing, each_get_counts};
pub use lending::lend;
pub use printing::put_dry_lines;
pub use reading::{Uses, read_uses};
pub use report::dry_report;
