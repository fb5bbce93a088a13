ghost use Rattle.std.specs.Prelude.{◌≡◌};
ghost use Rattle.sc_stats_ledgers.specs.Stakes.{all_parts};

use crate::counter::Counter;
use crate::ledgers::Ledgers;
use crate::numbers::Numbers;
use crate::shares::Shares;
use crate::tallies::Tallies;
use std::marker::Model;
use std::sync::ledger::Blank;

/// Fifteen new ledgers, each of 2^64 - 1 parts, which no type stands for yet. Contracts see their names.
#[derive(Drop)]
pub struct Blanks {
    compile_requests: Blank,
    requests_unsupported_compiler: Blank,
    requests_not_compile: Blank,
    requests_not_cacheable: Blank,
    requests_executed: Blank,
    cache_timeouts: Blank,
    cache_read_errors: Blank,
    non_cacheable_compilations: Blank,
    forced_recaches: Blank,
    cache_write_errors: Blank,
    cache_writes: Blank,
    compilations: Blank,
    compile_fails: Blank,
    dist_errors: Blank,
    zeroings: Blank,
}

impl Model for Blanks {
    ghost use Rattle.std.specs.Prelude.{◌≡◌, ℕ, List, [], ◌∷◌};
    ghost use Rattle.sc_stats_ledgers.specs.Stakes.{all_parts};

    ghost Value = { List ℕ };

    ghost view = { λ b. b.compile_requests.name ∷ b.requests_unsupported_compiler.name ∷ b.requests_not_compile.name ∷ b.requests_not_cacheable.name ∷ b.requests_executed.name ∷ b.cache_timeouts.name ∷ b.cache_read_errors.name ∷ b.non_cacheable_compilations.name ∷ b.forced_recaches.name ∷ b.cache_write_errors.name ∷ b.cache_writes.name ∷ b.compilations.name ∷ b.compile_fails.name ∷ b.dist_errors.name ∷ b.zeroings.name ∷ [] };

    ghost invariant = { λ b. (b.compile_requests.parts ≡ all_parts) × (b.requests_unsupported_compiler.parts ≡ all_parts) × (b.requests_not_compile.parts ≡ all_parts) × (b.requests_not_cacheable.parts ≡ all_parts) × (b.requests_executed.parts ≡ all_parts) × (b.cache_timeouts.parts ≡ all_parts) × (b.cache_read_errors.parts ≡ all_parts) × (b.non_cacheable_compilations.parts ≡ all_parts) × (b.forced_recaches.parts ≡ all_parts) × (b.cache_write_errors.parts ≡ all_parts) × (b.cache_writes.parts ≡ all_parts) × (b.compilations.parts ≡ all_parts) × (b.compile_fails.parts ≡ all_parts) × (b.dist_errors.parts ≡ all_parts) × (b.zeroings.parts ≡ all_parts) };
}

impl Blanks {
    /// New ledgers.
    pub fn new() -> Blanks {
        Blanks {
            compile_requests: Blank::new(u64::MAX),
            requests_unsupported_compiler: Blank::new(u64::MAX),
            requests_not_compile: Blank::new(u64::MAX),
            requests_not_cacheable: Blank::new(u64::MAX),
            requests_executed: Blank::new(u64::MAX),
            cache_timeouts: Blank::new(u64::MAX),
            cache_read_errors: Blank::new(u64::MAX),
            non_cacheable_compilations: Blank::new(u64::MAX),
            forced_recaches: Blank::new(u64::MAX),
            cache_write_errors: Blank::new(u64::MAX),
            cache_writes: Blank::new(u64::MAX),
            compilations: Blank::new(u64::MAX),
            compile_fails: Blank::new(u64::MAX),
            dist_errors: Blank::new(u64::MAX),
            zeroings: Blank::new(u64::MAX),
        }
    }

    /// Counters that begin at these numbers, and all shares of their ledgers, which say that they added them. Which type stands for
    /// the ledgers the caller picks: one whose names are these ledgers'.
    pub fn open<L: Ledgers>(self, start: &Numbers) -> (Tallies<L>, Shares<L>)
        requires { self ≡ L.names }
        ensures numbers { result.0 ≡ start.now }
        ensures shares { result.1 ≡ record { parts = all_parts; amounts = start.now } }
    {
        let Blanks {
            compile_requests,
            requests_unsupported_compiler,
            requests_not_compile,
            requests_not_cacheable,
            requests_executed,
            cache_timeouts,
            cache_read_errors,
            non_cacheable_compilations,
            forced_recaches,
            cache_write_errors,
            cache_writes,
            compilations,
            compile_fails,
            dist_errors,
            zeroings,
        } = self;
        let (compile_requests, compile_requests_share) = Counter::open(
            compile_requests,
            start.compile_requests,
        );
        let (requests_unsupported_compiler, requests_unsupported_compiler_share) = Counter::open(
            requests_unsupported_compiler,
            start.requests_unsupported_compiler,
        );
        let (requests_not_compile, requests_not_compile_share) = Counter::open(
            requests_not_compile,
            start.requests_not_compile,
        );
        let (requests_not_cacheable, requests_not_cacheable_share) = Counter::open(
            requests_not_cacheable,
            start.requests_not_cacheable,
        );
        let (requests_executed, requests_executed_share) = Counter::open(
            requests_executed,
            start.requests_executed,
        );
        let (cache_timeouts, cache_timeouts_share) = Counter::open(
            cache_timeouts,
            start.cache_timeouts,
        );
        let (cache_read_errors, cache_read_errors_share) = Counter::open(
            cache_read_errors,
            start.cache_read_errors,
        );
        let (non_cacheable_compilations, non_cacheable_compilations_share) = Counter::open(
            non_cacheable_compilations,
            start.non_cacheable_compilations,
        );
        let (forced_recaches, forced_recaches_share) = Counter::open(
            forced_recaches,
            start.forced_recaches,
        );
        let (cache_write_errors, cache_write_errors_share) = Counter::open(
            cache_write_errors,
            start.cache_write_errors,
        );
        let (cache_writes, cache_writes_share) = Counter::open(cache_writes, start.cache_writes);
        let (compilations, compilations_share) = Counter::open(compilations, start.compilations);
        let (compile_fails, compile_fails_share) = Counter::open(
            compile_fails,
            start.compile_fails,
        );
        let (dist_errors, dist_errors_share) = Counter::open(dist_errors, start.dist_errors);
        let (zeroings, zeroings_share) = Counter::open(zeroings, start.zeroings);
        let tallies = Tallies {
            compile_requests,
            requests_unsupported_compiler,
            requests_not_compile,
            requests_not_cacheable,
            requests_executed,
            cache_timeouts,
            cache_read_errors,
            non_cacheable_compilations,
            forced_recaches,
            cache_write_errors,
            cache_writes,
            compilations,
            compile_fails,
            dist_errors,
            zeroings,
        };
        let shares = Shares {
            compile_requests: compile_requests_share,
            requests_unsupported_compiler: requests_unsupported_compiler_share,
            requests_not_compile: requests_not_compile_share,
            requests_not_cacheable: requests_not_cacheable_share,
            requests_executed: requests_executed_share,
            cache_timeouts: cache_timeouts_share,
            cache_read_errors: cache_read_errors_share,
            non_cacheable_compilations: non_cacheable_compilations_share,
            forced_recaches: forced_recaches_share,
            cache_write_errors: cache_write_errors_share,
            cache_writes: cache_writes_share,
            compilations: compilations_share,
            compile_fails: compile_fails_share,
            dist_errors: dist_errors_share,
            zeroings: zeroings_share,
        };
        (tallies, shares)
    }
}
