ghost use Rattle.std.specs.Prelude.{◌≡◌, ◌+◌, ◌*◌, ◌<◌, ◌/◌, ◌%◌};
ghost use Rattle.sc_stats.specs.Figures.{average};
ghost use Rattle.sc_stats.specs.Spans.{more_time};

use std::alloc::AllocError;
use std::marker::Model;

const SECOND: u128 = 1_000_000_000;

/// The longest span: u64's greatest number of seconds, and 999,999,999 nanoseconds.
const LONGEST: u128 = 18_446_744_073_709_551_616_000_000_000 - 1;

/// A span of time, as it is counted and sent: whole seconds in a `u64`, and nanoseconds below a second.
/// Contracts see it as its nanoseconds.
#[derive(Debug, Drop)]
pub struct Span {
    nanoseconds: u128,
}

impl Model for Span {
    ghost use Rattle.std.specs.Prelude.{ℕ, ◌≤◌};
    ghost use Rattle.sc_stats.specs.Spans.{longest};

    ghost Value = { ℕ };

    ghost view = { λ s. s.nanoseconds };

    ghost invariant = { λ s. s.nanoseconds ≤ longest };
}

impl Span {
    /// No time.
    pub fn zero() -> Span
        ensures { result ≡ 0 }
    {
        Span { nanoseconds: 0 }
    }

    pub fn from_nanoseconds(nanoseconds: u64) -> Span
        ensures { result ≡ nanoseconds }
    {
        Span {
            nanoseconds: nanoseconds as u128,
        }
    }

    /// No span is longer than the longest: one stays as it is where no time is added to it.
    pub fn keeps(&self)
        ensures { more_time self.now 0 ≡ self.now }
    {
        let _nanoseconds = self.nanoseconds;
    }

    /// Whole seconds, and nanoseconds below a second.
    pub fn new(seconds: u64, nanoseconds: u32) -> Span
        requires { nanoseconds < 1_000_000_000 }
        ensures { result ≡ seconds * 1_000_000_000 + nanoseconds }
    {
        Span {
            nanoseconds: seconds as u128 * SECOND + nanoseconds as u128,
        }
    }

    /// The whole seconds.
    pub fn as_secs(&self) -> u64
        ensures { result ≡ self.now / 1_000_000_000 }
    {
        (self.nanoseconds / SECOND) as u64
    }

    /// The nanoseconds beyond the whole seconds.
    pub fn subsec_nanos(&self) -> u32
        ensures value { result ≡ self.now % 1_000_000_000 }
        ensures below_second { result < 1_000_000_000 }
    {
        (self.nanoseconds % SECOND) as u32
    }

    /// The nanoseconds of the whole span.
    pub fn nanoseconds(&self) -> u128
        ensures { result ≡ self.now }
    {
        self.nanoseconds
    }

    /// Its share where it is divided evenly, in whole nanoseconds; no time where there are no shares.
    pub fn average(&self, count: u64) -> Span
        ensures { result ≡ average self.now count }
    {
        if count == 0 {
            return Span::zero();
        }
        Span {
            nanoseconds: self.nanoseconds / u128::from(count),
        }
    }

    /// Makes it longer by another; it stops at the longest span.
    pub fn add_assign(&mut self, other: &Span)
        ensures { self.new ≡ more_time self.old other.now }
    {
        self.nanoseconds = (self.nanoseconds + other.nanoseconds).min(LONGEST);
    }

    /// The same span.
    pub fn copy(&self) -> Span
        ensures { result ≡ self.now }
    {
        Span {
            nanoseconds: self.nanoseconds,
        }
    }
}

impl Clone for Span {
    ghost is_clone = { λ span copy. copy ≡ span };

    fn clone(&self) -> Result<Span, AllocError> {
        Ok(self.copy())
    }
}
