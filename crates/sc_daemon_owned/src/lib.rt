//! A daemon that one owner holds: its levels, its workshop, its probe and its clock.
#![tactic(auto)]

mod holding;
mod missing;
mod nowhere;
mod owned;
mod parts;
mod paths;

pub use owned::Owned;
pub use parts::Parts;
