//! The report of a drive.
ghost use Rattle.std.specs.Prelude.{◌≡◌, ◌++◌, OnOk};
ghost use Rattle.sc_main_report.specs.Report.{is_run, report_of, runs_in, total_lines, totals_of};

use crate::levels::put_levels;
use crate::sections::put_sections;
use sc_entry::NoMemory;
use sc_main_script::LevelSize;
use sc_main_script_words::{put_counters, put_named};
use sc_model::{Event, What};
use sc_stats::{LevelStats, ServerStats};
use sc_wire_conn::End;
use sc_words::put;
use std::alloc::Global;

/// What a drive came to, as its report tells it.
#[derive(Clone, Copy)]
pub struct Report<'a> {
    /// What each connection has come to.
    pub ends: &'a [End],
    /// What happened, the oldest event first.
    pub events: &'a [Event],
    /// What each level holds.
    pub levels: &'a [LevelSize],
    /// What each level counts; nothing where they are a single store.
    pub counters: &'a [LevelStats],
    /// How many background writes are left.
    pub background: u64,
    /// How many tokens are free.
    pub tokens: u64,
    pub stats: &'a ServerStats,
}

fn is_run(what: &What) -> bool
    ensures { result ≡ is_run what.now }
{
    matches!(what, What::Ran(_))
}

fn count_runs(events: &[Event]) -> u64
    ensures { result ≡ runs_in events.now }
{
    let mut runs: u64 = 0;
    for event in events {
        if is_run(&event.what) {
            runs += 1;
        }
    }
    runs
}

fn put_total_lines(
    alloc: Global,
    out: &mut Vec<u8>,
    background: u64,
    tokens: u64,
    runs: u64,
) -> Result<(), NoMemory>
    ensures { OnOk result (out.new.items ≡ out.old.items ++ total_lines background tokens runs) }
{
    put_named(alloc, out, b"background", background)?;
    put_named(alloc, out, b"tokens", tokens)?;
    put_named(alloc, out, b"runs", runs)
}

/// Appends the report of a drive from its first level on: what the levels hold and count, what is left to write in the background,
/// the free tokens, the runs, and the counters that aren't 0.
#[tactic(auto, unfolding(crate::specs::Report::totals_of))]
pub fn put_totals(alloc: Global, out: &mut Vec<u8>, report: &Report) -> Result<(), NoMemory>
    ensures { let r = report.now in
        OnOk result (out.new.items ≡ out.old.items
        ++ totals_of r.events.now r.levels.now r.counters.now r.background r.tokens r.stats.now) }
{
    put_levels(alloc, out, report.levels, report.counters)?;
    let runs = count_runs(report.events);
    put_total_lines(alloc, out, report.background, report.tokens, runs)?;
    put_counters(alloc, out, report.stats)?;
    put(out, b"end\n")
}

/// Appends the report of a drive: what each connection came to and the replies that were sent on it, and what `put_totals` appends.
#[tactic(auto, unfolding(crate::specs::Report::report_of))]
pub fn put_report(alloc: Global, out: &mut Vec<u8>, report: &Report) -> Result<(), NoMemory>
    ensures { let r = report.now in
        OnOk result (out.new.items ≡ out.old.items
        ++ report_of r.ends.now r.events.now r.levels.now r.counters.now r.background r.tokens r.stats.now) }
{
    put_sections(alloc, out, report.ends, report.events)?;
    put_totals(alloc, out, report)
}
