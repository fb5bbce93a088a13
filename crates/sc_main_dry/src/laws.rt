//! What holds of a capacity report of any uses.
ghost use Rattle.std.specs.Prelude.{◌≡◌, ℕ, ◌+◌, ◌≤◌, List};
ghost use Rattle.sc_lru.specs.DryRun.{dry_line};
ghost use Rattle.sc_lru.specs.declared.capacity_report.Use.{Use as UseOf};
ghost use Rattle.sc_main_dry.specs.Sums.{get_count, put_bytes};

/// A capacity of at least what all puts have together evicts nothing and leaves no put out.
pub fn ample_capacity_evicts_nothing<K: Eq>()
    ensures evicted { (uses : List (UseOf K)) (capacity : ℕ) → put_bytes uses ≤ capacity → (dry_line K.eq uses capacity).evicted ≡ 0 }
    ensures too_large { (uses : List (UseOf K)) (capacity : ℕ) → put_bytes uses ≤ capacity → (dry_line K.eq uses capacity).too_large ≡ 0 }
{}

/// Hits and misses together are the gets, at every capacity.
pub fn each_get_counts<K: Eq>()
    ensures { (uses : List (UseOf K)) (capacity : ℕ) → (dry_line K.eq uses capacity).hits + (dry_line K.eq uses capacity).misses ≡ get_count uses }
{}
