//! A large script that is made of a number.
#![tactic(auto)]

mod draw;
mod lines;
mod script;

pub use draw::{drawn, next};
pub use script::generate;
