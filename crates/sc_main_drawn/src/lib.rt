//! The script of a number as a value, which needs no reading: the one whose text `sc_main_generate` makes.
#![tactic(auto)]

mod asks;
mod keys;
mod laws;
mod levels;
mod script;
mod steps;

pub use laws::drawn_scripts_are_good;
pub use script::drawn_script;
