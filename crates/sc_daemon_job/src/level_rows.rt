//! What an event counts at the level that it names.
ghost use Rattle.std.specs.Prelude.{◌≡◌, ℕ, Bool, List, Some};
ghost use Rattle.sc_daemon_job.specs.LevelRows.{counted_in, origin_of};
ghost use Rattle.sc_model.specs.Machine.{counted_at};
ghost use Rattle.sc_model.specs.Rows as rows;
ghost use Rattle.sc_model.specs.Script.{is_single};
ghost use Rattle.sc_model.specs.declared.event.What.TheVariants.{Wrote};
ghost use Rattle.sc_stats.specs.Sums.{no_level_stats};
ghost use Rattle.sc_model.specs.declared.level.Policy.{Policy as PolicyType};

use sc_model::{Answer, Mode, Written};
use sc_stats::{LevelStats, Span};
use std::alloc::Global;

/// Whose a write is.
#[derive(Clone, Copy)]
pub enum Origin {
    /// A request's own, before its answer.
    Direct,
    /// A put's, that was handed on at this moment.
    FromPut(u64),
    /// A hit's.
    Backfill,
}

fn done_row(alloc: Global, origin: Origin, duration: u64) -> LevelStats
    ensures { result ≡ rows.done_row (origin_of origin) duration }
{
    let mut row = LevelStats::new(alloc);
    match origin {
        Origin::Backfill => row.backfills_to = 1,
        Origin::Direct | Origin::FromPut(_) => {
            row.writes = 1;
            row.write_duration = Span::from_nanoseconds(duration);
        }
    }
    row
}

/// What a refused write counts.
pub fn refused_row(alloc: Global, origin: Origin) -> LevelStats
    ensures { result ≡ rows.refused_row (origin_of origin) }
{
    let mut row = LevelStats::new(alloc);
    match origin {
        Origin::Backfill => {}
        Origin::Direct | Origin::FromPut(_) => row.write_failures = 1,
    }
    row
}

/// What the end of a write counts that took so long.
pub fn written_row(alloc: Global, origin: Origin, duration: u64, written: Written) -> LevelStats
    ensures { result ≡ rows.written_level_row (origin_of origin) duration written }
{
    match written {
        Written::Done => done_row(alloc, origin, duration),
        Written::Refused(_) => refused_row(alloc, origin),
    }
}

/// Since when a write at a remote level is measured.
fn wrote_since(origin: Origin, last: u64) -> u64
    ensures { result ≡ rows.wrote_since (origin_of origin) last }
{
    match origin {
        Origin::FromPut(at) => at,
        Origin::Direct | Origin::Backfill => last,
    }
}

fn hit_row(alloc: Global, level: u64, duration: u64) -> LevelStats
    ensures { result ≡ record no_level_stats { hits = 1; backfills_from = level; hit_duration = duration } }
{
    let mut row = LevelStats::new(alloc);
    row.hits = 1;
    row.backfills_from = level;
    row.hit_duration = Span::from_nanoseconds(duration);
    row
}

fn miss_row(alloc: Global) -> LevelStats
    ensures { result ≡ record no_level_stats { misses = 1 } }
{
    let mut row = LevelStats::new(alloc);
    row.misses = 1;
    row
}

/// What a lookup of an entry or of bytes as they are counts.
fn looked_row(alloc: Global, level: u64, answer: &Answer, duration: u64) -> LevelStats
    ensures whole { result ≡ rows.asked_row level Mode.Whole answer.now duration }
    ensures raw { result ≡ rows.asked_row level Mode.Raw answer.now duration }
{
    match answer {
        Answer::Hit(_, _) => hit_row(alloc, level, duration),
        Answer::Miss => miss_row(alloc),
        Answer::Refused(_) => miss_row(alloc),
        Answer::Found(_) => miss_row(alloc),
        Answer::Size(_, _) => miss_row(alloc),
    }
}

/// What a lookup counts that took so long.
pub fn asked_row(
    alloc: Global,
    level: u64,
    mode: Mode,
    answer: &Answer,
    duration: u64,
) -> LevelStats
    ensures { result ≡ rows.asked_row level mode answer.now duration }
{
    match mode {
        Mode::Whole => looked_row(alloc, level, answer, duration),
        Mode::Raw => looked_row(alloc, level, answer, duration),
        Mode::Path => LevelStats::new(alloc),
        Mode::Pre => LevelStats::new(alloc),
        Mode::Size => LevelStats::new(alloc),
    }
}

/// What a remote level's write counts.
pub fn wrote_row(
    alloc: Global,
    origin: Origin,
    last: u64,
    moment: u64,
    mode: Mode,
    written: Written,
) -> LevelStats
    ensures { (l : ℕ) (k b : List ℕ) (mark : Bool) (since : ℕ) → result ≡ rows.level_row (origin_of origin) last since moment (Wrote l k b mode mark written) }
{
    match mode {
        Mode::Whole => {
            let since = wrote_since(origin, last);
            let duration = moment.saturating_sub(since);
            written_row(alloc, origin, duration, written)
        }
        Mode::Raw => LevelStats::new(alloc),
        Mode::Path => LevelStats::new(alloc),
        Mode::Pre => LevelStats::new(alloc),
        Mode::Size => LevelStats::new(alloc),
    }
}

/// Adds a row to the counters of a level, if there is such a level.
fn count_at(levels: &mut [LevelStats], level: u64, row: &LevelStats)
    ensures { levels.new ≡ counted_at (Some level) row.now levels.old }
{
    if level < levels.len() as u64 {
        levels[level as usize].add_assign(row);
    }
}

/// Adds a row to the counters of a level. A store that stands alone has no counters of levels.
pub fn count_level(levels: &mut [LevelStats], single: bool, level: u64, row: &LevelStats)
    ensures { (policy : PolicyType) → is_single policy ≡ single → levels.new ≡ counted_in policy level row.now levels.old }
{
    if !single {
        count_at(levels, level, row);
    }
}
