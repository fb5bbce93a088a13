//! The host's clock: the edge to the outside. It tells nothing. What its readings and its waits are worth is trusted.
ghost use Rattle.std.specs.Prelude.{◌≡◌, ◌≤◌, None, IsOk};

use crate::clock::Clock;
use sc_entry::NoMemory;
use std::time::{Duration, SystemTime};
use std::{thread, time};

/// The host's clock, in nanoseconds since 1970. It stops at the end of `u64`. It never falls: while the host's clock reads
/// an earlier moment, or can't be read, it stays at the latest that it told. Another value may tell an earlier moment.
#[derive(Drop)]
pub struct HostClock<R> {
    rt: R,
    /// The latest moment that it told, and 0 before the first.
    latest: u64,
}

impl<R> HostClock<R> {
    /// It has told no moment yet, so that it may tell any.
    pub fn new(rt: R) -> HostClock<R>
        ensures { result.latest ≡ 0 }
    {
        HostClock { rt, latest: 0 }
    }
}

/// The nanoseconds since 1970, where the host can tell them.
fn read<R: time::Clock>(rt: &R) -> Option<u64> {
    let now = SystemTime::now(rt).ok()?;
    let since = now.duration_since(SystemTime::UNIX_EPOCH).ok()?;
    Some(u64::try_from(since.as_nanos()).unwrap_or(u64::MAX))
}

impl<R: time::Clock> Clock for HostClock<R> {
    ghost moments = { λ _. None };

    ghost pauses = { λ _. None };

    fn now(&mut self) -> u64
        ensures latest { result ≡ self.new.latest }
        ensures later { self.old.latest ≤ self.new.latest }
    {
        if let Some(moment) = read(&self.rt) {
            self.latest = self.latest.max(moment);
        }
        self.latest
    }

    fn pause(&mut self, nanoseconds: u64) -> Result<(), NoMemory>
        ensures paused { IsOk result }
        ensures latest { self.new.latest ≡ self.old.latest }
    {
        thread::sleep(&self.rt, Duration::from_nanos(nanoseconds));
        Ok(())
    }
}
