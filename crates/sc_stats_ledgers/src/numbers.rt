ghost use Rattle.std.specs.Prelude.{◌≡◌};
ghost use Rattle.sc_stats_ledgers.specs.Numbers.{numbers_of, with_numbers};

use sc_stats::ServerStats;

/// A number for each counter: what an event adds to it, or where it stands. The first fourteen are the numbers of `ServerStats`
/// that are no time.
#[derive(Drop)]
pub struct Numbers {
    pub compile_requests: u64,
    pub requests_unsupported_compiler: u64,
    pub requests_not_compile: u64,
    pub requests_not_cacheable: u64,
    pub requests_executed: u64,
    pub cache_timeouts: u64,
    pub cache_read_errors: u64,
    pub non_cacheable_compilations: u64,
    pub forced_recaches: u64,
    pub cache_write_errors: u64,
    pub cache_writes: u64,
    pub compilations: u64,
    pub compile_fails: u64,
    pub dist_errors: u64,
    /// How often all the others were set to 0, or to what no event adds.
    pub zeroings: u64,
}

impl Numbers {
    /// The numbers of statistics, and no zeroing.
    pub fn of(stats: &ServerStats) -> Numbers
        ensures { result ≡ numbers_of stats.now }
    {
        Numbers {
            compile_requests: stats.compile_requests,
            requests_unsupported_compiler: stats.requests_unsupported_compiler,
            requests_not_compile: stats.requests_not_compile,
            requests_not_cacheable: stats.requests_not_cacheable,
            requests_executed: stats.requests_executed,
            cache_timeouts: stats.cache_timeouts,
            cache_read_errors: stats.cache_read_errors,
            non_cacheable_compilations: stats.non_cacheable_compilations,
            forced_recaches: stats.forced_recaches,
            cache_write_errors: stats.cache_write_errors,
            cache_writes: stats.cache_writes,
            compilations: stats.compilations,
            compile_fails: stats.compile_fails,
            dist_errors: stats.dist_errors,
            zeroings: 0,
        }
    }

    /// Puts the fourteen into statistics, and leaves all else there as it is.
    pub fn put_into(&self, stats: &mut ServerStats)
        ensures { stats.new ≡ with_numbers stats.old self.now }
    {
        stats.compile_requests = self.compile_requests;
        stats.requests_unsupported_compiler = self.requests_unsupported_compiler;
        stats.requests_not_compile = self.requests_not_compile;
        stats.requests_not_cacheable = self.requests_not_cacheable;
        stats.requests_executed = self.requests_executed;
        stats.cache_timeouts = self.cache_timeouts;
        stats.cache_read_errors = self.cache_read_errors;
        stats.non_cacheable_compilations = self.non_cacheable_compilations;
        stats.forced_recaches = self.forced_recaches;
        stats.cache_write_errors = self.cache_write_errors;
        stats.cache_writes = self.cache_writes;
        stats.compilations = self.compilations;
        stats.compile_fails = self.compile_fails;
        stats.dist_errors = self.dist_errors;
    }
}
