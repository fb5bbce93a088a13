//! A list that grows at its end, whose values are looked at, changed and taken by their place among those that are
//! left. No call costs more than a logarithm.
#![tactic(auto)]

mod list;
mod tree;

pub use list::RankedList;
