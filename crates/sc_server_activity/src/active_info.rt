//! The services that are live, counted behind a lock.
//!
//! What a call did to a count behind its lock no clause can say. The types say that each `ActiveInfo` was counted once and is
//! taken off once: it holds a `LiveService`, which `LiveCount::add` alone makes and `LiveCount::take_off` alone consumes.

use crate::live_count::{LiveCount, LiveService};
use sc_entry::NoMemory;
use std::alloc::Global;
use std::sync::{Arc, Mutex, MutexGuard, Wait};

/// The count of live services, which threads share.
#[derive(Drop)]
pub struct LiveServices {
    count: Arc<Mutex<LiveCount>>,
}

impl LiveServices {
    /// A count of its own, of no service.
    pub fn new(alloc: Global) -> Result<LiveServices, NoMemory> {
        Ok(LiveServices {
            count: Arc::new(alloc, Mutex::new(LiveCount::new()))?,
        })
    }

    /// The same count for another owner.
    pub fn try_clone(&self) -> Result<LiveServices, NoMemory> {
        Ok(LiveServices {
            count: Arc::try_clone(&self.count)?,
        })
    }

    /// Waits for the count's lock.
    pub fn lock<R: Wait>(&self, rt: &R) -> MutexGuard<'_, LiveCount> {
        self.count.lock(rt)
    }
}

/// One for each live service. Made, it adds one to the locked count; dropped, it takes one off.
pub struct ActiveInfo<R: Wait + Drop> {
    rt: R,
    services: LiveServices,
    service: LiveService,
}

impl<R: Wait + Drop> ActiveInfo<R> {
    /// Counts a service of these.
    pub fn new(rt: R, services: LiveServices) -> ActiveInfo<R> {
        let service = services.lock(&rt).add();
        ActiveInfo {
            rt,
            services,
            service,
        }
    }
}

impl<R: Wait + Drop> Drop for ActiveInfo<R> {
    fn drop(self) {
        let ActiveInfo {
            rt,
            services,
            service,
        } = self;
        services.lock(&rt).take_off(service);
    }
}
