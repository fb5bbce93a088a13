//! What a drive asked of each level and stored there, as the uses that a capacity report counts.
#![tactic(auto)]

mod uses;

pub use uses::uses_of;
