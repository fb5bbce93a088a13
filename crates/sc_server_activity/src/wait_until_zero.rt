ghost use Rattle.std.specs.Prelude.{◌≡◌, ◌↔◌, IsTrue};

use crate::live_count::LiveCount;

/// Waits until no service is live.
#[derive(Clone, Copy, Debug, Drop)]
pub struct WaitUntilZero;

impl WaitUntilZero {
    /// Whether no service is live. It is lent the count that stands behind the services' lock.
    pub fn poll(&self, count: &LiveCount) -> bool
        ensures { IsTrue result ↔ (count.now ≡ 0) }
    {
        count.get() == 0
    }
}
