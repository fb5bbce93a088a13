//! Warming one store from another: the entries of listed keys are read, tested and put, and each key is told what became of it.
#![tactic(auto)]

mod laws;
mod warmed;
mod warming;

pub use laws::{copied_stays, nothing_marked, others_stay, source_stays, within};
pub use warmed::Warmed;
pub use warming::warm;
