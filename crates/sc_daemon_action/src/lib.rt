//! What a daemon does for a request, one action at a time, over any hold: of a compile begin, find the key, ask the levels,
//! place a hit, wait for a token, run, store, and send each reply; of others ask, put, tell and send.
#![tactic(auto)]

mod acted;
mod control;
mod dispatch;
mod early;
mod entries;
mod lookup;
mod paths;
mod preprocessor;
mod raw;
mod running;
mod sending;
mod storing;
mod telling;
mod texts;
mod turn;
mod writing;

pub use acted::{Acted, Action};
pub use control::{Control, control_of, counted_task, is_set};
pub use dispatch::act;
pub use entries::{EntryAction, commit_entry, fill_entry, open_entry};
