ghost use Rattle.std.specs.Prelude.{◌≡◌, ◌^◌, ◌-◌, min};
ghost use Rattle.sc_stats_ledgers.specs.Numbers.{Follow, capped, one_zeroing, sums, zeroed};
ghost use Rattle.sc_stats_ledgers.specs.Stakes.{all_parts};

use crate::counter::Counter;
use crate::ledgers::{Ledgers, Nth};
use crate::numbers::Numbers;
use crate::shares::Shares;
use std::marker::Model;

/// The counters, which stand behind a lock. Contracts see their numbers.
#[derive(Drop)]
pub struct Tallies<L: Ledgers> {
    pub(crate) compile_requests: Counter<Nth<L, 0>>,
    pub(crate) requests_unsupported_compiler: Counter<Nth<L, 1>>,
    pub(crate) requests_not_compile: Counter<Nth<L, 2>>,
    pub(crate) requests_not_cacheable: Counter<Nth<L, 3>>,
    pub(crate) requests_executed: Counter<Nth<L, 4>>,
    pub(crate) cache_timeouts: Counter<Nth<L, 5>>,
    pub(crate) cache_read_errors: Counter<Nth<L, 6>>,
    pub(crate) non_cacheable_compilations: Counter<Nth<L, 7>>,
    pub(crate) forced_recaches: Counter<Nth<L, 8>>,
    pub(crate) cache_write_errors: Counter<Nth<L, 9>>,
    pub(crate) cache_writes: Counter<Nth<L, 10>>,
    pub(crate) compilations: Counter<Nth<L, 11>>,
    pub(crate) compile_fails: Counter<Nth<L, 12>>,
    pub(crate) dist_errors: Counter<Nth<L, 13>>,
    pub(crate) zeroings: Counter<Nth<L, 14>>,
}

impl<L: Ledgers> Model for Tallies<L> {
    ghost use Rattle.sc_stats_ledgers.specs.declared.numbers.Numbers.{Numbers};
    ghost use Rattle.sc_stats_ledgers.specs.Numbers.{Follow};

    ghost Value = { Numbers };

    ghost view = { λ t. record { compile_requests = t.compile_requests.number; requests_unsupported_compiler = t.requests_unsupported_compiler.number; requests_not_compile = t.requests_not_compile.number; requests_not_cacheable = t.requests_not_cacheable.number; requests_executed = t.requests_executed.number; cache_timeouts = t.cache_timeouts.number; cache_read_errors = t.cache_read_errors.number; non_cacheable_compilations = t.non_cacheable_compilations.number; forced_recaches = t.forced_recaches.number; cache_write_errors = t.cache_write_errors.number; cache_writes = t.cache_writes.number; compilations = t.compilations.number; compile_fails = t.compile_fails.number; dist_errors = t.dist_errors.number; zeroings = t.zeroings.number } };

    ghost invariant = { λ t. Follow (record { compile_requests = t.compile_requests.number; requests_unsupported_compiler = t.requests_unsupported_compiler.number; requests_not_compile = t.requests_not_compile.number; requests_not_cacheable = t.requests_not_cacheable.number; requests_executed = t.requests_executed.number; cache_timeouts = t.cache_timeouts.number; cache_read_errors = t.cache_read_errors.number; non_cacheable_compilations = t.non_cacheable_compilations.number; forced_recaches = t.forced_recaches.number; cache_write_errors = t.cache_write_errors.number; cache_writes = t.cache_writes.number; compilations = t.compilations.number; compile_fails = t.compile_fails.number; dist_errors = t.dist_errors.number; zeroings = t.zeroings.number }) (record { compile_requests = t.compile_requests.book.total; requests_unsupported_compiler = t.requests_unsupported_compiler.book.total; requests_not_compile = t.requests_not_compile.book.total; requests_not_cacheable = t.requests_not_cacheable.book.total; requests_executed = t.requests_executed.book.total; cache_timeouts = t.cache_timeouts.book.total; cache_read_errors = t.cache_read_errors.book.total; non_cacheable_compilations = t.non_cacheable_compilations.book.total; forced_recaches = t.forced_recaches.book.total; cache_write_errors = t.cache_write_errors.book.total; cache_writes = t.cache_writes.book.total; compilations = t.compilations.book.total; compile_fails = t.compile_fails.book.total; dist_errors = t.dist_errors.book.total; zeroings = t.zeroings.book.total }) };
}

impl<L: Ledgers> Tallies<L> {
    /// Where the counters stand.
    pub fn read(&self) -> Numbers
        ensures { result ≡ self.now }
    {
        Numbers {
            compile_requests: self.compile_requests.number,
            requests_unsupported_compiler: self.requests_unsupported_compiler.number,
            requests_not_compile: self.requests_not_compile.number,
            requests_not_cacheable: self.requests_not_cacheable.number,
            requests_executed: self.requests_executed.number,
            cache_timeouts: self.cache_timeouts.number,
            cache_read_errors: self.cache_read_errors.number,
            non_cacheable_compilations: self.non_cacheable_compilations.number,
            forced_recaches: self.forced_recaches.number,
            cache_write_errors: self.cache_write_errors.number,
            cache_writes: self.cache_writes.number,
            compilations: self.compilations.number,
            compile_fails: self.compile_fails.number,
            dist_errors: self.dist_errors.number,
            zeroings: self.zeroings.number,
        }
    }

    /// Adds a row to the counters, each of which stops at the end of `u64`, and to what these shares added, which has no end.
    pub fn add(&mut self, shares: &mut Shares<L>, row: &Numbers)
        ensures numbers { self.new ≡ capped (sums self.old row.now) }
        ensures shares { shares.new ≡ record shares.old { amounts = sums shares.old.amounts row.now } }
    {
        self.compile_requests
            .add(&mut shares.compile_requests, row.compile_requests);
        self.requests_unsupported_compiler.add(
            &mut shares.requests_unsupported_compiler,
            row.requests_unsupported_compiler,
        );
        self.requests_not_compile
            .add(&mut shares.requests_not_compile, row.requests_not_compile);
        self.requests_not_cacheable.add(
            &mut shares.requests_not_cacheable,
            row.requests_not_cacheable,
        );
        self.requests_executed
            .add(&mut shares.requests_executed, row.requests_executed);
        self.cache_timeouts
            .add(&mut shares.cache_timeouts, row.cache_timeouts);
        self.cache_read_errors
            .add(&mut shares.cache_read_errors, row.cache_read_errors);
        self.non_cacheable_compilations.add(
            &mut shares.non_cacheable_compilations,
            row.non_cacheable_compilations,
        );
        self.forced_recaches
            .add(&mut shares.forced_recaches, row.forced_recaches);
        self.cache_write_errors
            .add(&mut shares.cache_write_errors, row.cache_write_errors);
        self.cache_writes
            .add(&mut shares.cache_writes, row.cache_writes);
        self.compilations
            .add(&mut shares.compilations, row.compilations);
        self.compile_fails
            .add(&mut shares.compile_fails, row.compile_fails);
        self.dist_errors
            .add(&mut shares.dist_errors, row.dist_errors);
        self.zeroings.add(&mut shares.zeroings, row.zeroings);
    }

    /// Sets the fourteen counters to 0, and counts one zeroing, which these shares add.
    pub fn zero(&mut self, shares: &mut Shares<L>)
        ensures numbers { self.new ≡ zeroed self.old }
        ensures shares { shares.new ≡ record shares.old { amounts = sums shares.old.amounts one_zeroing } }
    {
        self.zeroings.add(&mut shares.zeroings, 1);
        self.compile_requests.number = 0;
        self.requests_unsupported_compiler.number = 0;
        self.requests_not_compile.number = 0;
        self.requests_not_cacheable.number = 0;
        self.requests_executed.number = 0;
        self.cache_timeouts.number = 0;
        self.cache_read_errors.number = 0;
        self.non_cacheable_compilations.number = 0;
        self.forced_recaches.number = 0;
        self.cache_write_errors.number = 0;
        self.cache_writes.number = 0;
        self.compilations.number = 0;
        self.compile_fails.number = 0;
        self.dist_errors.number = 0;
    }

    /// Where the counters stand, beside all shares: with no zeroing each is the sum of what it began at and of what all threads
    /// added, up to the end of `u64`.
    pub fn audit(&mut self, all: &mut Shares<L>) -> Numbers
        requires { all.old.parts ≡ all_parts }
        ensures now { result ≡ self.old }
        ensures same { self.new ≡ self.old }
        ensures shares { all.new ≡ all.old }
        ensures zeroings { result.zeroings ≡ min all.old.amounts.zeroings (2 ^ 64 - 1) }
        ensures sums { all.old.amounts.zeroings ≡ 0 → result ≡ capped all.old.amounts }
    {
        self.compare(all);
        self.read()
    }

    /// Changes nothing, and tells how the counters stand to all shares.
    fn compare(&mut self, all: &mut Shares<L>)
        requires { all.old.parts ≡ all_parts }
        ensures same { self.new ≡ self.old }
        ensures shares { all.new ≡ all.old }
        ensures follow { Follow self.old all.old.amounts }
    {
        self.compile_requests.book.audit(&mut all.compile_requests);
        self.requests_unsupported_compiler
            .book
            .audit(&mut all.requests_unsupported_compiler);
        self.requests_not_compile
            .book
            .audit(&mut all.requests_not_compile);
        self.requests_not_cacheable
            .book
            .audit(&mut all.requests_not_cacheable);
        self.requests_executed
            .book
            .audit(&mut all.requests_executed);
        self.cache_timeouts.book.audit(&mut all.cache_timeouts);
        self.cache_read_errors
            .book
            .audit(&mut all.cache_read_errors);
        self.non_cacheable_compilations
            .book
            .audit(&mut all.non_cacheable_compilations);
        self.forced_recaches.book.audit(&mut all.forced_recaches);
        self.cache_write_errors
            .book
            .audit(&mut all.cache_write_errors);
        self.cache_writes.book.audit(&mut all.cache_writes);
        self.compilations.book.audit(&mut all.compilations);
        self.compile_fails.book.audit(&mut all.compile_fails);
        self.dist_errors.book.audit(&mut all.dist_errors);
        self.zeroings.book.audit(&mut all.zeroings);
    }
}
