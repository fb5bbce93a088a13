//! Levels of stores as one store, and what any store tells to statistics.
#![tactic(auto)]

mod checking;
mod counting;
mod facts;
mod layered;
mod lookup;
mod multilevel;
mod preprocessor;
mod putting;
mod sizes;

pub use facts::StorageFacts;
pub use multilevel::MultiLevelStorage;
pub use sc_store::ReadOnlyStorage;
pub use sc_store_alone::{Storage, StorageError};
