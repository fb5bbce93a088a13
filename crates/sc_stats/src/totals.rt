ghost use Rattle.std.specs.Prelude.{◌≡◌, None, OnOk, OnErr, IsOk};
ghost use Rattle.sc_stats.specs.Sums.{add_multi, no_stats, sum};
ghost use Rattle.sc_stats.specs.Parts.{HasNumbersAlone, IsPartOfMulti, IsPartOfStats, with_cache_numbers, with_compiler_numbers, with_counts, with_requests};

use crate::counters::{LevelStats, PerLanguageCount, ServerStats};
use crate::levels::MultiLevelStats;
use crate::span::Span;
use sc_entry::{Counts, Items, NoMemory};
use std::alloc::Global;

impl ServerStats {
    /// Nothing is counted.
    pub fn new(alloc: Global) -> ServerStats
        ensures { result ≡ no_stats }
    {
        ServerStats {
            compile_requests: 0,
            requests_unsupported_compiler: 0,
            requests_not_compile: 0,
            requests_not_cacheable: 0,
            requests_executed: 0,
            cache_errors: PerLanguageCount::new(alloc),
            cache_hits: PerLanguageCount::new(alloc),
            cache_misses: PerLanguageCount::new(alloc),
            cache_timeouts: 0,
            cache_read_errors: 0,
            non_cacheable_compilations: 0,
            forced_recaches: 0,
            cache_write_errors: 0,
            cache_writes: 0,
            cache_write_duration: Span::zero(),
            cache_read_hit_duration: Span::zero(),
            compilations: 0,
            compiler_write_duration: Span::zero(),
            compile_fails: 0,
            not_cached: Counts::new(alloc),
            dist_compiles: Counts::new(alloc),
            dist_errors: 0,
            multi_level: None,
        }
    }

    /// Adds what another counts: numbers and durations up to their types' ends, counts text by text, levels
    /// place by place. Statistics of numbers alone take no memory. Without memory no number is added, and
    /// of each map and of the levels a front part.
    pub fn add_assign(&mut self, other: &ServerStats) -> Result<(), NoMemory>
        ensures ok { OnOk result (self.new ≡ sum self.old other.now) }
        ensures err { OnErr result (IsPartOfStats self.old other.now self.new) }
        ensures numbers { HasNumbersAlone other.now → IsOk result }
    {
        self.add_all_counts(other)?;
        self.add_numbers(other);
        Ok(())
    }

    /// Adds the other's numbers and durations, and leaves counts by text and by level as they are. This is
    /// the whole sum where the other has none of these. It takes no memory.
    pub fn add_numbers(&mut self, other: &ServerStats)
        ensures exact { self.new ≡ with_counts (sum self.old other.now) self.old }
        ensures whole { HasNumbersAlone other.now → self.new ≡ sum self.old other.now }
    {
        self.add_request_numbers(other);
        self.add_cache_numbers(other);
        self.add_compiler_numbers(other);
    }

    fn add_request_numbers(&mut self, other: &ServerStats)
        ensures { self.new ≡ with_requests (sum self.old other.now) self.old }
    {
        self.compile_requests = self.compile_requests.saturating_add(other.compile_requests);
        self.requests_unsupported_compiler = self
            .requests_unsupported_compiler
            .saturating_add(other.requests_unsupported_compiler);
        self.requests_not_compile = self
            .requests_not_compile
            .saturating_add(other.requests_not_compile);
        self.requests_not_cacheable = self
            .requests_not_cacheable
            .saturating_add(other.requests_not_cacheable);
        self.requests_executed = self
            .requests_executed
            .saturating_add(other.requests_executed);
    }

    fn add_cache_numbers(&mut self, other: &ServerStats)
        ensures { self.new ≡ with_cache_numbers (sum self.old other.now) self.old }
    {
        self.cache_timeouts = self.cache_timeouts.saturating_add(other.cache_timeouts);
        self.cache_read_errors = self
            .cache_read_errors
            .saturating_add(other.cache_read_errors);
        self.forced_recaches = self.forced_recaches.saturating_add(other.forced_recaches);
        self.cache_write_errors = self
            .cache_write_errors
            .saturating_add(other.cache_write_errors);
        self.cache_writes = self.cache_writes.saturating_add(other.cache_writes);
        self.cache_write_duration
            .add_assign(&other.cache_write_duration);
        self.cache_read_hit_duration
            .add_assign(&other.cache_read_hit_duration);
    }

    fn add_compiler_numbers(&mut self, other: &ServerStats)
        ensures { self.new ≡ with_compiler_numbers (sum self.old other.now) self.old }
    {
        self.non_cacheable_compilations = self
            .non_cacheable_compilations
            .saturating_add(other.non_cacheable_compilations);
        self.compilations = self.compilations.saturating_add(other.compilations);
        self.compiler_write_duration
            .add_assign(&other.compiler_write_duration);
        self.compile_fails = self.compile_fails.saturating_add(other.compile_fails);
        self.dist_errors = self.dist_errors.saturating_add(other.dist_errors);
    }

    /// Adds the other's counts by text and by level alone.
    fn add_all_counts(&mut self, other: &ServerStats) -> Result<(), NoMemory>
        ensures ok { OnOk result (self.new ≡ with_counts self.old (sum self.old other.now)) }
        ensures err { OnErr result (IsPartOfStats self.old other.now self.new) }
        ensures numbers { HasNumbersAlone other.now → IsOk result }
    {
        self.cache_errors.add_assign(&other.cache_errors)?;
        self.cache_hits.add_assign(&other.cache_hits)?;
        self.cache_misses.add_assign(&other.cache_misses)?;
        self.not_cached.add_all(&other.not_cached)?;
        self.dist_compiles.add_all(&other.dist_compiles)?;
        add_level_lists(&mut self.multi_level, &other.multi_level)?;
        Ok(())
    }
}

fn add_level_lists(
    own: &mut Option<Items<LevelStats>>,
    other: &Option<Items<LevelStats>>,
) -> Result<(), NoMemory>
    ensures ok { OnOk result (own.new ≡ add_multi own.old other.now) }
    ensures err { OnErr result (IsPartOfMulti own.old other.now own.new) }
    ensures none { other.now ≡ None → IsOk result }
{
    let Some(more) = other else {
        return Ok(());
    };
    match own.take() {
        Some(levels) => {
            let mut both = MultiLevelStats::from_levels(levels);
            let added = both.add_levels(more.as_slice());
            *own = Some(both.into_levels());
            added
        }
        None => {
            *own = Some(more.clone()?);
            Ok(())
        }
    }
}
