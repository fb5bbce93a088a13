ghost use Rattle.std.specs.Prelude.{◌≡◌, ◌+◌, ◌-◌, ◌<◌};
ghost use Rattle.sc_stats_ledgers.specs.Numbers.{no_numbers, sums};

use crate::ledgers::{Ledgers, Nth};
use std::marker::Model;
use std::sync::ledger::Share;

/// What a thread has of each ledger. It takes no bytes. Contracts see how many parts it has of each, and what it added to each.
#[derive(Drop)]
pub struct Shares<L: Ledgers> {
    pub(crate) compile_requests: Share<Nth<L, 0>>,
    pub(crate) requests_unsupported_compiler: Share<Nth<L, 1>>,
    pub(crate) requests_not_compile: Share<Nth<L, 2>>,
    pub(crate) requests_not_cacheable: Share<Nth<L, 3>>,
    pub(crate) requests_executed: Share<Nth<L, 4>>,
    pub(crate) cache_timeouts: Share<Nth<L, 5>>,
    pub(crate) cache_read_errors: Share<Nth<L, 6>>,
    pub(crate) non_cacheable_compilations: Share<Nth<L, 7>>,
    pub(crate) forced_recaches: Share<Nth<L, 8>>,
    pub(crate) cache_write_errors: Share<Nth<L, 9>>,
    pub(crate) cache_writes: Share<Nth<L, 10>>,
    pub(crate) compilations: Share<Nth<L, 11>>,
    pub(crate) compile_fails: Share<Nth<L, 12>>,
    pub(crate) dist_errors: Share<Nth<L, 13>>,
    pub(crate) zeroings: Share<Nth<L, 14>>,
}

impl<L: Ledgers> Model for Shares<L> {
    ghost use Rattle.std.specs.Prelude.{◌≡◌, ◌<◌};
    ghost use Rattle.sc_stats_ledgers.specs.Stakes.{Stake};

    ghost Value = { Stake };

    ghost view = { λ s. record { parts = s.zeroings.parts; amounts = record { compile_requests = s.compile_requests.amount; requests_unsupported_compiler = s.requests_unsupported_compiler.amount; requests_not_compile = s.requests_not_compile.amount; requests_not_cacheable = s.requests_not_cacheable.amount; requests_executed = s.requests_executed.amount; cache_timeouts = s.cache_timeouts.amount; cache_read_errors = s.cache_read_errors.amount; non_cacheable_compilations = s.non_cacheable_compilations.amount; forced_recaches = s.forced_recaches.amount; cache_write_errors = s.cache_write_errors.amount; cache_writes = s.cache_writes.amount; compilations = s.compilations.amount; compile_fails = s.compile_fails.amount; dist_errors = s.dist_errors.amount; zeroings = s.zeroings.amount } } };

    ghost invariant = { λ s. (s.compile_requests.parts ≡ s.zeroings.parts) × (s.requests_unsupported_compiler.parts ≡ s.zeroings.parts) × (s.requests_not_compile.parts ≡ s.zeroings.parts) × (s.requests_not_cacheable.parts ≡ s.zeroings.parts) × (s.requests_executed.parts ≡ s.zeroings.parts) × (s.cache_timeouts.parts ≡ s.zeroings.parts) × (s.cache_read_errors.parts ≡ s.zeroings.parts) × (s.non_cacheable_compilations.parts ≡ s.zeroings.parts) × (s.forced_recaches.parts ≡ s.zeroings.parts) × (s.cache_write_errors.parts ≡ s.zeroings.parts) × (s.cache_writes.parts ≡ s.zeroings.parts) × (s.compilations.parts ≡ s.zeroings.parts) × (s.compile_fails.parts ≡ s.zeroings.parts) × (s.dist_errors.parts ≡ s.zeroings.parts) × (0 < s.zeroings.parts) };
}

impl<L: Ledgers> Shares<L> {
    /// Gives some of the parts to another thread, which has added nothing yet.
    pub fn split(&mut self, parts: u64) -> Shares<L>
        requires some { 0 < parts }
        requires fewer { parts < self.old.parts }
        ensures given { result ≡ record { parts = parts; amounts = no_numbers } }
        ensures left { self.new ≡ record self.old { parts = self.old.parts - parts } }
    {
        Shares {
            compile_requests: self.compile_requests.split_off(parts, 0),
            requests_unsupported_compiler: self.requests_unsupported_compiler.split_off(parts, 0),
            requests_not_compile: self.requests_not_compile.split_off(parts, 0),
            requests_not_cacheable: self.requests_not_cacheable.split_off(parts, 0),
            requests_executed: self.requests_executed.split_off(parts, 0),
            cache_timeouts: self.cache_timeouts.split_off(parts, 0),
            cache_read_errors: self.cache_read_errors.split_off(parts, 0),
            non_cacheable_compilations: self.non_cacheable_compilations.split_off(parts, 0),
            forced_recaches: self.forced_recaches.split_off(parts, 0),
            cache_write_errors: self.cache_write_errors.split_off(parts, 0),
            cache_writes: self.cache_writes.split_off(parts, 0),
            compilations: self.compilations.split_off(parts, 0),
            compile_fails: self.compile_fails.split_off(parts, 0),
            dist_errors: self.dist_errors.split_off(parts, 0),
            zeroings: self.zeroings.split_off(parts, 0),
        }
    }

    /// Takes another thread's parts, with all that it added.
    pub fn merge(&mut self, other: Shares<L>)
        ensures { self.new ≡ record { parts = self.old.parts + other.parts; amounts = sums self.old.amounts other.amounts } }
    {
        let Shares {
            compile_requests,
            requests_unsupported_compiler,
            requests_not_compile,
            requests_not_cacheable,
            requests_executed,
            cache_timeouts,
            cache_read_errors,
            non_cacheable_compilations,
            forced_recaches,
            cache_write_errors,
            cache_writes,
            compilations,
            compile_fails,
            dist_errors,
            zeroings,
        } = other;
        self.compile_requests.merge(compile_requests);
        self.requests_unsupported_compiler
            .merge(requests_unsupported_compiler);
        self.requests_not_compile.merge(requests_not_compile);
        self.requests_not_cacheable.merge(requests_not_cacheable);
        self.requests_executed.merge(requests_executed);
        self.cache_timeouts.merge(cache_timeouts);
        self.cache_read_errors.merge(cache_read_errors);
        self.non_cacheable_compilations
            .merge(non_cacheable_compilations);
        self.forced_recaches.merge(forced_recaches);
        self.cache_write_errors.merge(cache_write_errors);
        self.cache_writes.merge(cache_writes);
        self.compilations.merge(compilations);
        self.compile_fails.merge(compile_fails);
        self.dist_errors.merge(dist_errors);
        self.zeroings.merge(zeroings);
    }
}
