ghost use Rattle.std.specs.Prelude.{◌≡◌, List, ℕ, Option, option_map, OnOk, OnErr};
ghost use Rattle.sc_entry.specs.Causes.{IfTold};
ghost use Rattle.sc_clock.specs.Moments.{next_moment, moments_after, with_pause};

use sc_entry::NoMemory;

/// Something that tells the moment and waits. It has no faults.
pub trait Clock {
    /// The moments that are left for it to tell, where it tells them. No call changes whether it tells.
    ghost moments: { Self → Option (List ℕ) };

    /// The lengths of the pauses that it was handed, in order, where it tells them. No call changes whether it tells.
    ghost pauses: { Self → Option (List ℕ) };

    /// The moment, in nanoseconds. A clock that tells its moments answers the first that is left and takes it; the last
    /// stands for ever. No clause says that moments don't fall.
    fn now(&mut self) -> u64
        ensures moment { IfTold (moments self.old) (λ left. result ≡ next_moment left) }
        ensures left { moments self.new ≡ option_map moments_after (moments self.old) }
        ensures pauses { pauses self.new ≡ pauses self.old };

    /// Waits for some nanoseconds. A clock that keeps its pauses may want memory for one more.
    fn pause(&mut self, nanoseconds: u64) -> Result<(), NoMemory>
        ensures paused { OnOk result (pauses self.new ≡ option_map (with_pause nanoseconds) (pauses self.old)) }
        ensures refused { OnErr result (pauses self.new ≡ pauses self.old) }
        ensures moments { moments self.new ≡ moments self.old };
}
