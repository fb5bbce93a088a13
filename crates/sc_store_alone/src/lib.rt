//! What any store can be asked, and the stores that stand alone or are only read.
#![tactic(auto)]

mod alone;
mod disk;
mod hit;
mod level;
mod read_only;
mod remote;
mod step;
mod storage;
mod storage_error;

pub use alone::entry_of;
pub use hit::Hit;
pub use step::Step;
pub use storage::Storage;
pub use storage_error::StorageError;
