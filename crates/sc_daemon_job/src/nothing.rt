//! That nothing added changes nothing.
ghost use Rattle.std.specs.Prelude.{◌≡◌};
ghost use Rattle.sc_stats.specs.Sums.{no_stats, sat, sum};

use sc_stats::ServerStats;

/// A number stays as it is where nothing is added to it.
#[tactic(auto, using(crate::proofs::Sameness::same_number))]
fn adds_zero(number: u64)
    ensures { sat number 0 ≡ number }
{}

/// Statistics stay as they are where nothing is added to them: each number is within its type.
pub fn adds_nothing(stats: &ServerStats)
    ensures { sum stats.now no_stats ≡ stats.now }
{
    adds_zero(stats.compile_requests);
    adds_zero(stats.requests_unsupported_compiler);
    adds_zero(stats.requests_not_compile);
    adds_zero(stats.requests_not_cacheable);
    adds_zero(stats.requests_executed);
    adds_zero(stats.cache_timeouts);
    adds_zero(stats.cache_read_errors);
    adds_zero(stats.non_cacheable_compilations);
    adds_zero(stats.forced_recaches);
    adds_zero(stats.cache_write_errors);
    adds_zero(stats.cache_writes);
    adds_zero(stats.compilations);
    adds_zero(stats.compile_fails);
    adds_zero(stats.dist_errors);
    stats.cache_write_duration.keeps();
    stats.cache_read_hit_duration.keeps();
    stats.compiler_write_duration.keeps();
}
