//! The parts of a daemon that hold all in memory, made of what a script says.
#![tactic(auto)]

mod making;
mod memory;
mod sizes;

pub use making::{Made, level, make};
pub use memory::Memory;
pub use sizes::{level_size, level_sizes};
