//! What comes over a connection: its bytes in any pieces, the requests that they spell, and how it ends.
#![tactic(auto)]

mod end;
mod inbox;

pub use end::End;
pub use inbox::Inbox;
