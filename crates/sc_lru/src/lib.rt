//! A list of pairs in the order of their use, with a measured capacity.
#![tactic(auto)]

mod cache;
mod capacity_report;
mod debug;
mod extend;
mod into_iter;
mod iter;
mod iter_mut;
mod linked;
mod links;
mod meter;
mod node;

pub use cache::{DefaultHasher, LruCache};
pub use capacity_report::{DryLine, Use, dry_run};
pub use into_iter::IntoIter;
pub use iter::Iter;
pub use iter_mut::IterMut;
pub use meter::{Count, Meter};
