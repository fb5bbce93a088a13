//! What a report tells of the levels.
ghost use Rattle.std.specs.Prelude.{◌≡◌, ◌++◌, slice_get, IfOk, OnOk, string_bytes};
ghost use Rattle.std.specs.Option.{option_copied};
ghost use Rattle.sc_main_report.specs.Report.{counted_lookups, counted_writes, counter_words, level_line, level_lines, size_words};

use sc_entry::NoMemory;
use sc_main_script::LevelSize;
use sc_stats::LevelStats;
use sc_words::put;
use std::alloc::Global;

#[tactic(auto, unfolding(crate::specs::Report::size_words))]
fn size_words(alloc: Global, level: u64, size: LevelSize) -> Result<String, NoMemory>
    ensures { IfOk result (λ text. string_bytes text ≡ size_words level size) }
{
    let bytes = size.bytes;
    let entries = size.entries;
    let text = format!(in alloc; "level {level} {bytes} {entries}")?;
    Ok(text)
}

#[tactic(auto, unfolding(crate::specs::Report::counted_lookups))]
fn counted_lookups(alloc: Global, stats: &LevelStats) -> Result<String, NoMemory>
    ensures { IfOk result (λ text. string_bytes text ≡ counted_lookups stats.now) }
{
    let hits = stats.hits;
    let misses = stats.misses;
    let writes = stats.writes;
    let text = format!(in alloc; " hits {hits} misses {misses} writes {writes}")?;
    Ok(text)
}

#[tactic(auto, unfolding(crate::specs::Report::counted_writes))]
fn counted_writes(alloc: Global, stats: &LevelStats) -> Result<String, NoMemory>
    ensures { IfOk result (λ text. string_bytes text ≡ counted_writes stats.now) }
{
    let failures = stats.write_failures;
    let from = stats.backfills_from;
    let to = stats.backfills_to;
    let text = format!(in alloc; " failures {failures} from {from} to {to}")?;
    Ok(text)
}

/// Appends what a level counts, where it counts.
#[tactic(auto, unfolding(crate::specs::Report::counter_words))]
fn put_counter_words(
    alloc: Global,
    out: &mut Vec<u8>,
    stats: Option<&LevelStats>,
) -> Result<(), NoMemory>
    ensures { OnOk result (out.new.items ≡ out.old.items ++ counter_words (option_copied stats.entry)) }
{
    let Some(stats) = stats else {
        return Ok(());
    };
    let lookups = counted_lookups(alloc, stats)?;
    put(out, lookups.as_bytes())?;
    let writes = counted_writes(alloc, stats)?;
    put(out, writes.as_bytes())
}

#[tactic(auto, unfolding(crate::specs::Report::level_line))]
fn put_level(
    alloc: Global,
    out: &mut Vec<u8>,
    level: u64,
    size: LevelSize,
    stats: Option<&LevelStats>,
) -> Result<(), NoMemory>
    ensures { OnOk result (out.new.items ≡ out.old.items ++ level_line level size (option_copied stats.entry)) }
{
    let words = size_words(alloc, level, size)?;
    put(out, words.as_bytes())?;
    put_counter_words(alloc, out, stats)?;
    put(out, b"\n")
}

/// What a level counts, where it is given.
fn counters_of(counters: &[LevelStats], level: usize) -> Option<&LevelStats>
    ensures { option_copied result ≡ slice_get counters.now level }
{
    counters.get(level)
}

/// Appends a line for each level, counted from 0, with what it counts where that is given.
pub fn put_levels(
    alloc: Global,
    out: &mut Vec<u8>,
    levels: &[LevelSize],
    counters: &[LevelStats],
) -> Result<(), NoMemory>
    ensures { OnOk result (out.new.items ≡ out.old.items ++ level_lines 0 levels.now counters.now) }
{
    let mut level: usize = 0;
    let mut left = levels;
    while let [size, rest @ ..] = left {
        let counted = counters_of(counters, level);
        put_level(alloc, out, level as u64, *size, counted)?;
        level += 1;
        left = rest;
    }
    Ok(())
}
