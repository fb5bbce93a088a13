//! Whose an event is, and what its durations are measured from.

use crate::level_rows::Origin;

/// Whose an action is, for what it counts: where it writes, whose the write is; and the moments, in nanoseconds, of its owner's
/// last event, of its outcome and of its last reservation.
#[derive(Clone, Copy)]
pub struct Since {
    pub origin: Origin,
    pub last: u64,
    pub outcome: u64,
    pub reserved: u64,
}
