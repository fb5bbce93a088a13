ghost use Rattle.std.specs.Prelude.{◌≡◌};
ghost use Rattle.sc_stats_ledgers.specs.Numbers.{capped, no_numbers, sums};

use crate::{Blanks, Ledgers, Numbers, Shares, Tallies};
use std::marker::Brand;
use std::sync::{Mutex, Wait};
use std::test::Fail;
use std::thread;
use std::thread::Threads;

fn added<L: Ledgers, R: Wait>(
    rt: &R,
    tallies: &Mutex<Tallies<L>>,
    shares: Shares<L>,
    row: &Numbers,
) -> Shares<L>
    ensures { result ≡ record shares { amounts = sums shares.amounts row.now } }
{
    let mut shares = shares;
    tallies.lock(rt).add(&mut shares, row);
    shares
}

fn both_added<L: Ledgers + Send + Sync, R: Threads + Wait + Sync>(
    rt: &R,
    tallies: &Mutex<Tallies<L>>,
    mine: Shares<L>,
    theirs: Shares<L>,
    first: &Numbers,
    second: &Numbers,
) -> (Shares<L>, Shares<L>)
    ensures mine { result.0 ≡ record mine { amounts = sums mine.amounts first.now } }
    ensures theirs { result.1 ≡ record theirs { amounts = sums theirs.amounts second.now } }
{
    thread::join(
        rt,
        move || added(rt, tallies, mine, first),
        move || added(rt, tallies, theirs, second),
    )
}

/// Where counters stand that begin at some numbers, and to which two threads have added a row each.
fn added_by_two<L: Ledgers + Send + Sync, R: Threads + Wait + Sync>(
    rt: &R,
    blanks: Blanks,
    start: &Numbers,
    first: &Numbers,
    second: &Numbers,
) -> Numbers
    requires names { blanks ≡ L.names }
    requires start { start.now.zeroings ≡ 0 }
    requires first { first.now.zeroings ≡ 0 }
    requires second { second.now.zeroings ≡ 0 }
    ensures { result ≡ capped (sums (sums start.now first.now) (sums no_numbers second.now)) }
{
    let (tallies, mut mine) = blanks.open::<L>(start);
    let theirs = mine.split(1);
    let tallies = Mutex::new(tallies);
    let (mut mine, theirs) = both_added(rt, &tallies, mine, theirs, first, second);
    mine.merge(theirs);
    tallies.lock(rt).audit(&mut mine)
}

fn two_numbers(compile_requests: u64, cache_writes: u64) -> Numbers
    ensures { result ≡ record no_numbers { compile_requests = compile_requests; cache_writes = cache_writes } }
{
    Numbers {
        compile_requests,
        requests_unsupported_compiler: 0,
        requests_not_compile: 0,
        requests_not_cacheable: 0,
        requests_executed: 0,
        cache_timeouts: 0,
        cache_read_errors: 0,
        non_cacheable_compilations: 0,
        forced_recaches: 0,
        cache_write_errors: 0,
        cache_writes,
        compilations: 0,
        compile_fails: 0,
        dist_errors: 0,
        zeroings: 0,
    }
}

#[test]
fn two_threads_add(rt: HostRuntime) -> Result<(), Fail> {
    let start = two_numbers(u64::MAX - 1, 3);
    let (first, second) = (two_numbers(1, 4), two_numbers(1, 5));
    let numbers = added_by_two::<Brand, _>(&rt, Blanks::new(), &start, &first, &second);
    assert_eq!(rt; numbers.compile_requests, u64::MAX);
    assert_eq!(rt; numbers.cache_writes, 12);
    assert_eq!(rt; numbers.dist_errors, 0);
    Ok(())
}
