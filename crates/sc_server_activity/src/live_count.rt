ghost use Rattle.std.specs.Prelude.{◌≡◌, ◌-◌};
ghost use Rattle.sc_entry.specs.Failing.{one_more};

use std::marker::Model;

/// A service that is counted. It can neither be copied nor be dropped, only be taken off a count.
pub struct LiveService {
    counted: (),
}

/// How many services are live. Contracts see the number.
#[derive(Drop)]
pub struct LiveCount {
    count: u64,
}

impl Model for LiveCount {
    ghost use Rattle.std.specs.Prelude.{ℕ};

    ghost Value = { ℕ };

    ghost view = { λ c. c.count };
}

impl LiveCount {
    /// No service is live.
    pub fn new() -> LiveCount
        ensures { result ≡ 0 }
    {
        LiveCount { count: 0 }
    }

    /// How many services are live.
    pub fn get(&self) -> u64
        ensures { result ≡ self.now }
    {
        self.count
    }

    /// Counts one service more. The count stops at the end of `u64`.
    pub fn add(&mut self) -> LiveService
        ensures { self.new ≡ one_more self.old }
    {
        self.count = self.count.saturating_add(1);
        LiveService { counted: () }
    }

    /// Takes a service off. Of a count of none it takes nothing: such a service is counted elsewhere.
    pub fn take_off(&mut self, service: LiveService)
        ensures { self.new ≡ self.old - 1 }
    {
        let LiveService { counted: () } = service;
        self.count = self.count.saturating_sub(1);
    }
}
