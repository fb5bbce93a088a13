//! Counters as they are printed.
ghost use Rattle.std.specs.Prelude.{◌≡◌, ◌++◌, OnOk};
ghost use Rattle.sc_main_script_words.specs.Counters.{counter_line, request_lines, lookup_lines, store_lines, run_lines, counter_lines};

use crate::tokens::put_named;
use sc_entry::NoMemory;
use sc_stats::ServerStats;
use std::alloc::Global;

#[tactic(auto, unfolding(crate::specs::Counters::counter_line))]
fn put_counter(alloc: Global, out: &mut Vec<u8>, name: &[u8], count: u64) -> Result<(), NoMemory>
    ensures { OnOk result (out.new.items ≡ out.old.items ++ counter_line name.now count) }
{
    if count == 0 {
        return Ok(());
    }
    put_named(alloc, out, name, count)
}

#[tactic(auto, unfolding(crate::specs::Counters::request_lines))]
fn put_requests(alloc: Global, out: &mut Vec<u8>, stats: &ServerStats) -> Result<(), NoMemory>
    ensures { OnOk result (out.new.items ≡ out.old.items ++ request_lines stats.now) }
{
    put_counter(alloc, out, b"compile_requests", stats.compile_requests)?;
    put_counter(
        alloc,
        out,
        b"requests_unsupported_compiler",
        stats.requests_unsupported_compiler,
    )?;
    put_counter(
        alloc,
        out,
        b"requests_not_compile",
        stats.requests_not_compile,
    )?;
    put_counter(
        alloc,
        out,
        b"requests_not_cacheable",
        stats.requests_not_cacheable,
    )?;
    put_counter(alloc, out, b"requests_executed", stats.requests_executed)
}

#[tactic(auto, unfolding(crate::specs::Counters::lookup_lines))]
fn put_lookups(alloc: Global, out: &mut Vec<u8>, stats: &ServerStats) -> Result<(), NoMemory>
    ensures { OnOk result (out.new.items ≡ out.old.items ++ lookup_lines stats.now) }
{
    put_counter(
        alloc,
        out,
        b"cache_errors",
        stats.cache_errors.counts.total(),
    )?;
    put_counter(alloc, out, b"cache_hits", stats.cache_hits.counts.total())?;
    put_counter(
        alloc,
        out,
        b"cache_misses",
        stats.cache_misses.counts.total(),
    )?;
    put_counter(alloc, out, b"cache_timeouts", stats.cache_timeouts)?;
    put_counter(alloc, out, b"cache_read_errors", stats.cache_read_errors)
}

#[tactic(auto, unfolding(crate::specs::Counters::store_lines))]
fn put_stores(alloc: Global, out: &mut Vec<u8>, stats: &ServerStats) -> Result<(), NoMemory>
    ensures { OnOk result (out.new.items ≡ out.old.items ++ store_lines stats.now) }
{
    put_counter(
        alloc,
        out,
        b"non_cacheable_compilations",
        stats.non_cacheable_compilations,
    )?;
    put_counter(alloc, out, b"forced_recaches", stats.forced_recaches)?;
    put_counter(alloc, out, b"cache_write_errors", stats.cache_write_errors)?;
    put_counter(alloc, out, b"cache_writes", stats.cache_writes)
}

#[tactic(auto, unfolding(crate::specs::Counters::run_lines))]
fn put_runs(alloc: Global, out: &mut Vec<u8>, stats: &ServerStats) -> Result<(), NoMemory>
    ensures { OnOk result (out.new.items ≡ out.old.items ++ run_lines stats.now) }
{
    put_counter(alloc, out, b"compilations", stats.compilations)?;
    put_counter(alloc, out, b"compile_fails", stats.compile_fails)?;
    put_counter(alloc, out, b"dist_errors", stats.dist_errors)
}

/// Appends a line for each counter that isn't 0; of counts by language their sum.
#[tactic(auto, unfolding(crate::specs::Counters::counter_lines))]
pub fn put_counters(alloc: Global, out: &mut Vec<u8>, stats: &ServerStats) -> Result<(), NoMemory>
    ensures { OnOk result (out.new.items ≡ out.old.items ++ counter_lines stats.now) }
{
    put_requests(alloc, out, stats)?;
    put_lookups(alloc, out, stats)?;
    put_stores(alloc, out, stats)?;
    put_runs(alloc, out, stats)
}
