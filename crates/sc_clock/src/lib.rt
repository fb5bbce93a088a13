//! The moment, and pauses: clocks in memory that tell what they will tell and what they were handed, and the host's own.
#![tactic(auto)]

mod clock;
mod host_clock;
mod mem_clock;

pub use clock::Clock;
pub use host_clock::HostClock;
pub use mem_clock::MemClock;
