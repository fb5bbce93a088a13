ghost use Rattle.std.specs.Prelude.{◌≡◌, ◌≤◌, [], Some, length, drop};

use crate::clock::Clock;
use sc_entry::{Items, NoMemory};
use std::alloc::Global;

/// A clock in memory. It tells the moments that it was given, in order, the last for ever, and keeps its pauses. One that
/// was given no moment stands at 0. A pause takes no time, and moves it to no other moment.
#[derive(Drop)]
pub struct MemClock {
    moments: Items<u64>,
    place: usize,
    pauses: Items<u64>,
    pub ghost within: { place ≤ length moments },
}

impl MemClock {
    /// All the moments are left, and no pause was handed to it yet.
    pub fn new(alloc: Global, moments: Items<u64>) -> MemClock
        ensures moments { drop result.place result.moments ≡ moments }
        ensures pauses { result.pauses ≡ [] }
    {
        MemClock {
            moments,
            place: 0,
            pauses: Items::new(alloc),
        }
    }

    /// The lengths of the pauses that it was handed, in nanoseconds and in order.
    pub fn pauses(&self) -> &[u64]
        ensures { result.now ≡ self.now.pauses }
    {
        self.pauses.as_slice()
    }
}

impl Clock for MemClock {
    ghost moments = { λ c. Some (drop c.place c.moments) };

    ghost pauses = { λ c. Some c.pauses };

    fn now(&mut self) -> u64 {
        match &self.moments.as_slice()[self.place..] {
            [] => 0,
            [last] => *last,
            [first, _, ..] => {
                let moment = *first;
                self.place += 1;
                moment
            }
        }
    }

    fn pause(&mut self, nanoseconds: u64) -> Result<(), NoMemory> {
        self.pauses.push(nanoseconds)
    }
}
