//! A disk store of compile results over two folders, as a level of a daemon's store.
#![tactic(auto)]

mod asking;
mod entry_cache;
mod facts;
mod filling;
mod holding;
mod marks;
mod opening;
mod preprocessor;
mod reading;
mod reserving;
mod whole;

pub use entry_cache::EntryCache;
pub use filling::{EntryError, Filling};
pub use holding::HeldSize;
pub use marks::Marks;
pub use reserving::Reservation;
pub use whole::mode_answer;
