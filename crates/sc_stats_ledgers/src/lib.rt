//! The counters of a daemon's statistics that threads share behind a lock, beside ledgers that say what each thread added.
//!
//! What a counter behind a lock stands at no clause of a thread can say. Each thread has its shares of the ledgers, which say what it
//! added itself; and whoever has all shares together learns of the counters that they are the sums of what all threads added.
#![tactic(auto)]

mod blanks;
mod counter;
mod ledgers;
mod numbers;
mod shares;
mod tallies;
#[cfg(test)]
mod tests;

pub use blanks::Blanks;
pub use ledgers::{Ledgers, Nth};
pub use numbers::Numbers;
pub use shares::Shares;
pub use tallies::Tallies;
