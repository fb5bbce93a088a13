//! What is counted at the levels of a store.
ghost use Rattle.std.specs.Prelude.{◌≡◌, true, Some};
ghost use Rattle.sc_model.specs.Machine.{counted_at};
ghost use Rattle.sc_model.specs.Rows as rows;
ghost use Rattle.sc_model.specs.declared.event.Mode.{Mode as ModeType};
ghost use Rattle.sc_model.specs.declared.event.Mode.TheVariants.{Raw, Whole};
ghost use Rattle.sc_stats.specs.Sums.{no_level_stats};
ghost use Rattle.sc_store.specs.Asking.{reads_key};

use sc_model::{Answer, Written};
use sc_stats::LevelStats;
use std::alloc::Global;

/// Adds a row to the counters of a level.
fn count_at(counters: &mut [LevelStats], level: u64, row: &LevelStats)
    ensures { counters.new ≡ counted_at (Some level) row.now counters.old }
{
    if level < counters.len() as u64 {
        counters[level as usize].add_assign(row);
    }
}

fn hit_row(alloc: Global, level: u64) -> LevelStats
    ensures { result ≡ record no_level_stats { hits = 1; backfills_from = level } }
{
    let mut row = LevelStats::new(alloc);
    row.hits = 1;
    row.backfills_from = level;
    row
}

fn miss_row(alloc: Global) -> LevelStats
    ensures { result ≡ record no_level_stats { misses = 1 } }
{
    let mut row = LevelStats::new(alloc);
    row.misses = 1;
    row
}

/// What a lookup of an entry, or of bytes as they are, counts at its level.
fn asked_row(alloc: Global, level: u64, answer: &Answer) -> LevelStats
    ensures whole { result ≡ rows.asked_row level Whole answer.now 0 }
    ensures raw { result ≡ rows.asked_row level Raw answer.now 0 }
{
    match answer {
        Answer::Hit(_, _) => hit_row(alloc, level),
        Answer::Miss => miss_row(alloc),
        Answer::Refused(_) => miss_row(alloc),
        Answer::Found(_) => miss_row(alloc),
        Answer::Size(_, _) => miss_row(alloc),
    }
}

/// Counts a lookup at its level.
pub(crate) fn count_asked(alloc: Global, counters: &mut [LevelStats], level: u64, answer: &Answer)
    ensures { (mode : ModeType) → reads_key mode ≡ true → counters.new ≡ counted_at (Some level) (rows.asked_row level mode answer.now 0) counters.old }
{
    let row = asked_row(alloc, level, answer);
    count_at(counters, level, &row);
}

fn done_row(alloc: Global, backfill: bool) -> LevelStats
    ensures { result ≡ rows.done_row (rows.by_backfill backfill 0) 0 }
{
    let mut row = LevelStats::new(alloc);
    if backfill {
        row.backfills_to = 1;
    } else {
        row.writes = 1;
    }
    row
}

fn refused_row(alloc: Global, backfill: bool) -> LevelStats
    ensures { result ≡ rows.refused_row (rows.by_backfill backfill 0) }
{
    let mut row = LevelStats::new(alloc);
    if !backfill {
        row.write_failures = 1;
    }
    row
}

/// Counts a put at its level. The refusal of a backfill isn't counted.
pub(crate) fn count_written(
    alloc: Global,
    counters: &mut [LevelStats],
    level: u64,
    backfill: bool,
    how: Written,
)
    ensures { counters.new ≡ counted_at (Some level) (rows.written_level_row (rows.by_backfill backfill 0) 0 how) counters.old }
{
    let row = match how {
        Written::Done => done_row(alloc, backfill),
        Written::Refused(_) => refused_row(alloc, backfill),
    };
    count_at(counters, level, &row);
}
