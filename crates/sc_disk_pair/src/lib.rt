//! Two folders of files as one store, within one capacity.
#![tactic(auto)]

mod history;
mod lazy_pair;
mod pair_cache;
mod pair_path;
mod pair_writing;
mod part;
mod paths;
mod sound;
mod two;

pub use lazy_pair::LazyPair;
pub use pair_cache::{PairCache, part_key};
pub use part::Part;
pub use two::Two;
