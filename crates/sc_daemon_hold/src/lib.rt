//! What one action of a request works on, whether a daemon of one's own or one behind locks: its levels, its workshop, its
//! probe and its clock, behind one trait.
#![tactic(auto)]

mod hold;

pub use hold::{Hold, Keying, LevelSize, Lookup, PutEnd};
