//! What a program has beside its words and streams: what is around it, and the makers of the parts that it works with.
#![tactic(auto)]

mod folders;
mod make_error;
mod mem_outside;
mod outside;
mod surroundings;

pub use make_error::MakeError;
pub use mem_outside::MemOutside;
pub use outside::Outside;
pub use surroundings::{Surroundings, surroundings_of};
