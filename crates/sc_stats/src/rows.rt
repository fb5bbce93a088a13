ghost use Rattle.std.specs.Prelude.{◌≡◌, ◌++◌, [], codes, IfOk, OnOk};
ghost use Rattle.sc_stats.specs.Rows.{average_rows, cache_rows, compile_rows, duration_row, each_level, keyed_rates, keyed_rows, language_rows, level_rows, levels_of, lookup_rows, multi_level_rows, number_row, of_level, rate_row, rate_rows, request_rows, stat_rows, with_key, write_rows, keys_of};
ghost use Rattle.sc_stats.specs.Figures.{average};

use crate::counters::{LevelStats, PerLanguageCount, ServerStats};
use crate::figures::{number_text, percent_text, rate_of, seconds_text};
use crate::levels::MultiLevelStats;
use crate::span::Span;
use sc_entry::{CountedText, Counts, Items, NoMemory, Text};
use std::alloc::Global;

/// A row of printed statistics.
#[derive(Drop)]
pub struct StatRow {
    pub name: Text,
    pub value: Text,
    /// The bytes at the value's end that stand outside its column.
    pub suffix: u8,
}

impl LevelStats {
    /// The rows of this level: each name after two spaces and the level's name.
    pub fn format_stats(&self, alloc: Global) -> Result<Items<StatRow>, NoMemory>
        ensures { IfOk result (λ rows. rows ≡ level_rows self.now []) }
    {
        let mut rows = Items::new(alloc);
        add_level_rows(&mut rows, alloc, self)?;
        Ok(rows)
    }
}

impl MultiLevelStats {
    /// How many levels there are, and the rows of each; nothing of none.
    pub fn format_stats(&self, alloc: Global) -> Result<Items<StatRow>, NoMemory>
        ensures { IfOk result (λ rows. rows ≡ multi_level_rows self.now []) }
    {
        let mut rows = Items::new(alloc);
        add_multi_level_rows(&mut rows, alloc, self.as_slice())?;
        Ok(rows)
    }
}

impl ServerStats {
    /// All rows of the statistics: with keys by language and compiler, or by a language's kind.
    pub(crate) fn rows(&self, alloc: Global, advanced: bool) -> Result<Items<StatRow>, NoMemory>
        ensures { IfOk result (λ rows. rows ≡ stat_rows advanced self.now) }
    {
        let mut rows = Items::new(alloc);
        add_request_rows(&mut rows, alloc, self, advanced)?;
        add_rate_rows(
            &mut rows,
            alloc,
            &self.cache_hits,
            &self.cache_misses,
            advanced,
        )?;
        add_cache_rows(&mut rows, alloc, self, advanced)?;
        add_compile_rows(&mut rows, alloc, self)?;
        add_average_rows(&mut rows, alloc, self)?;
        add_levels(&mut rows, alloc, self)?;
        Ok(rows)
    }
}

#[tactic(auto, unfolding(crate::specs::Rows::request_rows))]
fn add_request_rows(
    rows: &mut Items<StatRow>,
    alloc: Global,
    stats: &ServerStats,
    advanced: bool,
) -> Result<(), NoMemory>
    ensures { OnOk result (rows.new ≡ request_rows advanced stats.now rows.old) }
{
    add_number(rows, alloc, "Compile requests", stats.compile_requests)?;
    add_number(
        rows,
        alloc,
        "Compile requests executed",
        stats.requests_executed,
    )?;
    add_languages(rows, alloc, "Cache hits", &stats.cache_hits, advanced)?;
    add_languages(rows, alloc, "Cache misses", &stats.cache_misses, advanced)?;
    Ok(())
}

#[tactic(auto, unfolding(crate::specs::Rows::cache_rows))]
fn add_cache_rows(
    rows: &mut Items<StatRow>,
    alloc: Global,
    stats: &ServerStats,
    advanced: bool,
) -> Result<(), NoMemory>
    ensures { OnOk result (rows.new ≡ cache_rows advanced stats.now rows.old) }
{
    add_number(rows, alloc, "Cache timeouts", stats.cache_timeouts)?;
    add_number(rows, alloc, "Cache read errors", stats.cache_read_errors)?;
    add_number(rows, alloc, "Forced recaches", stats.forced_recaches)?;
    add_number(rows, alloc, "Cache write errors", stats.cache_write_errors)?;
    add_languages(rows, alloc, "Cache errors", &stats.cache_errors, advanced)?;
    Ok(())
}

#[tactic(auto, unfolding(crate::specs::Rows::compile_rows))]
fn add_compile_rows(
    rows: &mut Items<StatRow>,
    alloc: Global,
    stats: &ServerStats,
) -> Result<(), NoMemory>
    ensures { OnOk result (rows.new ≡ compile_rows stats.now rows.old) }
{
    add_number(rows, alloc, "Compilations", stats.compilations)?;
    add_number(rows, alloc, "Compilation failures", stats.compile_fails)?;
    add_number(
        rows,
        alloc,
        "Non-cacheable compilations",
        stats.non_cacheable_compilations,
    )?;
    add_number(
        rows,
        alloc,
        "Non-cacheable calls",
        stats.requests_not_cacheable,
    )?;
    add_number(
        rows,
        alloc,
        "Non-compilation calls",
        stats.requests_not_compile,
    )?;
    add_number(
        rows,
        alloc,
        "Unsupported compiler calls",
        stats.requests_unsupported_compiler,
    )?;
    Ok(())
}

#[tactic(auto, unfolding(crate::specs::Rows::average_rows))]
fn add_average_rows(
    rows: &mut Items<StatRow>,
    alloc: Global,
    stats: &ServerStats,
) -> Result<(), NoMemory>
    ensures { OnOk result (rows.new ≡ average_rows stats.now rows.old) }
{
    add_average(
        rows,
        alloc,
        "Average cache write",
        &stats.cache_write_duration,
        stats.cache_writes,
    )?;
    add_average(
        rows,
        alloc,
        "Average compiler",
        &stats.compiler_write_duration,
        stats.compilations,
    )?;
    let hits = stats.cache_hits.all();
    add_average(
        rows,
        alloc,
        "Average cache read hit",
        &stats.cache_read_hit_duration,
        hits,
    )?;
    add_number(
        rows,
        alloc,
        "Failed distributed compilations",
        stats.dist_errors,
    )?;
    Ok(())
}

#[tactic(auto, unfolding(crate::specs::Rows::levels_of))]
fn add_levels(rows: &mut Items<StatRow>, alloc: Global, stats: &ServerStats) -> Result<(), NoMemory>
    ensures { OnOk result (rows.new ≡ levels_of stats.now rows.old) }
{
    match &stats.multi_level {
        Some(levels) => add_multi_level_rows(rows, alloc, levels.as_slice()),
        None => Ok(()),
    }
}

fn add_multi_level_rows(
    rows: &mut Items<StatRow>,
    alloc: Global,
    levels: &[LevelStats],
) -> Result<(), NoMemory>
    ensures { OnOk result (rows.new ≡ multi_level_rows levels.now rows.old) }
{
    if levels.is_empty() {
        return Ok(());
    }
    add_number(rows, alloc, "Multi-level cache levels", levels.len() as u64)?;
    add_each_level(rows, alloc, levels)?;
    Ok(())
}

fn add_each_level(
    rows: &mut Items<StatRow>,
    alloc: Global,
    levels: &[LevelStats],
) -> Result<(), NoMemory>
    ensures { OnOk result (rows.new ≡ each_level levels.now rows.old) }
{
    for level in levels {
        add_level_rows(rows, alloc, level)?;
    }
    Ok(())
}

#[tactic(auto, unfolding(crate::specs::Rows::level_rows))]
fn add_level_rows(
    rows: &mut Items<StatRow>,
    alloc: Global,
    level: &LevelStats,
) -> Result<(), NoMemory>
    ensures { OnOk result (rows.new ≡ level_rows level.now rows.old) }
{
    add_lookup_rows(rows, alloc, level)?;
    add_write_rows(rows, alloc, level)?;
    let name = level_name(alloc, level, "avg cache write")?;
    add_average(
        rows,
        alloc,
        name.as_str(),
        &level.write_duration,
        level.writes,
    )?;
    let name = level_name(alloc, level, "avg cache read hit")?;
    add_average(rows, alloc, name.as_str(), &level.hit_duration, level.hits)?;
    Ok(())
}

#[tactic(auto, unfolding(crate::specs::Rows::lookup_rows))]
fn add_lookup_rows(
    rows: &mut Items<StatRow>,
    alloc: Global,
    level: &LevelStats,
) -> Result<(), NoMemory>
    ensures { OnOk result (rows.new ≡ lookup_rows level.now rows.old) }
{
    add_level_number(rows, alloc, level, "hits", level.hits)?;
    add_level_number(rows, alloc, level, "misses", level.misses)?;
    let name = level_name(alloc, level, "hit rate")?;
    add_rate(rows, alloc, name.as_str(), level.hits, level.misses)?;
    Ok(())
}

#[tactic(auto, unfolding(crate::specs::Rows::write_rows))]
fn add_write_rows(
    rows: &mut Items<StatRow>,
    alloc: Global,
    level: &LevelStats,
) -> Result<(), NoMemory>
    ensures { OnOk result (rows.new ≡ write_rows level.now rows.old) }
{
    add_level_number(rows, alloc, level, "writes", level.writes)?;
    add_level_number(rows, alloc, level, "write failures", level.write_failures)?;
    add_level_number(rows, alloc, level, "backfills from", level.backfills_from)?;
    add_level_number(rows, alloc, level, "backfills to", level.backfills_to)?;
    Ok(())
}

fn add_level_number(
    rows: &mut Items<StatRow>,
    alloc: Global,
    level: &LevelStats,
    name: &str,
    number: u64,
) -> Result<(), NoMemory>
    ensures { OnOk result (rows.new ≡ number_row (of_level level.now name.now) number rows.old) }
{
    let name = level_name(alloc, level, name)?;
    add_number(rows, alloc, name.as_str(), number)
}

#[tactic(auto, unfolding(crate::specs::Rows::of_level))]
fn level_name(alloc: Global, level: &LevelStats, name: &str) -> Result<Text, NoMemory>
    ensures { IfOk result (λ text. text ≡ of_level level.now name.now) }
{
    let level = level.name.as_str();
    Ok(Text::from_string(format!(in alloc; "  {level} {name}")?))
}

#[tactic(auto, unfolding(crate::specs::Rows::rate_rows))]
fn add_rate_rows(
    rows: &mut Items<StatRow>,
    alloc: Global,
    hits: &PerLanguageCount,
    misses: &PerLanguageCount,
    advanced: bool,
) -> Result<(), NoMemory>
    ensures { OnOk result (rows.new ≡ rate_rows advanced hits.now misses.now rows.old) }
{
    add_rate(rows, alloc, "Cache hits rate", hits.all(), misses.all())?;
    let hits = keys(hits, advanced);
    let misses = keys(misses, advanced);
    let mut either = hits.clone()?;
    either.add_all(misses)?;
    let either = either.listed(alloc)?;
    add_keyed_rates(rows, alloc, hits, misses, either.as_slice())
}

fn add_keyed_rates(
    rows: &mut Items<StatRow>,
    alloc: Global,
    hits: &Counts,
    misses: &Counts,
    keys: &[CountedText],
) -> Result<(), NoMemory>
    ensures { OnOk result (rows.new ≡ keyed_rates hits.now misses.now keys.now rows.old) }
{
    for key in keys {
        let name = keyed_name(alloc, "Cache hits rate", &key.text)?;
        let hit = hits.get(&key.text);
        let missed = misses.get(&key.text);
        add_rate(rows, alloc, name.as_str(), hit, missed)?;
    }
    Ok(())
}

#[tactic(auto, unfolding(crate::specs::Rows::language_rows))]
fn add_languages(
    rows: &mut Items<StatRow>,
    alloc: Global,
    name: &str,
    counts: &PerLanguageCount,
    advanced: bool,
) -> Result<(), NoMemory>
    ensures { OnOk result (rows.new ≡ language_rows advanced name.now counts.now rows.old) }
{
    add_number(rows, alloc, name, counts.all())?;
    let texts = keys(counts, advanced).listed(alloc)?;
    add_keyed(rows, alloc, name, texts.as_slice())
}

fn add_keyed(
    rows: &mut Items<StatRow>,
    alloc: Global,
    name: &str,
    texts: &[CountedText],
) -> Result<(), NoMemory>
    ensures { OnOk result (rows.new ≡ keyed_rows name.now texts.now rows.old) }
{
    for text in texts {
        let name = keyed_name(alloc, name, &text.text)?;
        add_number(rows, alloc, name.as_str(), text.count)?;
    }
    Ok(())
}

#[tactic(auto, unfolding(crate::specs::Rows::with_key))]
fn keyed_name(alloc: Global, name: &str, key: &Text) -> Result<Text, NoMemory>
    ensures { IfOk result (λ text. text ≡ with_key name.now key.now) }
{
    let key = key.as_str();
    Ok(Text::from_string(format!(in alloc; "{name} ({key})")?))
}

/// Counts by language and compiler, or by a language's kind.
fn keys(counts: &PerLanguageCount, advanced: bool) -> &Counts
    ensures { result.now ≡ keys_of advanced counts.now }
{
    if advanced {
        &counts.adv_counts
    } else {
        &counts.counts
    }
}

#[tactic(auto, unfolding(crate::specs::Rows::number_row))]
fn add_number(
    rows: &mut Items<StatRow>,
    alloc: Global,
    name: &str,
    number: u64,
) -> Result<(), NoMemory>
    ensures { OnOk result (rows.new ≡ number_row name.now number rows.old) }
{
    rows.push(StatRow {
        name: Text::from_str(alloc, name)?,
        value: number_text(alloc, number)?,
        suffix: 0,
    })?;
    Ok(())
}

#[tactic(auto, unfolding(crate::specs::Rows::duration_row))]
fn add_average(
    rows: &mut Items<StatRow>,
    alloc: Global,
    name: &str,
    total: &Span,
    count: u64,
) -> Result<(), NoMemory>
    ensures { OnOk result (rows.new ≡ duration_row name.now (average total.now count) rows.old) }
{
    rows.push(StatRow {
        name: Text::from_str(alloc, name)?,
        value: seconds_text(alloc, &total.average(count))?,
        suffix: 2,
    })?;
    Ok(())
}

#[tactic(auto, unfolding(crate::specs::Rows::rate_row))]
fn add_rate(
    rows: &mut Items<StatRow>,
    alloc: Global,
    name: &str,
    hits: u64,
    misses: u64,
) -> Result<(), NoMemory>
    ensures { OnOk result (rows.new ≡ rate_row name.now hits misses rows.old) }
{
    let name = Text::from_str(alloc, name)?;
    let row = if hits == 0 && misses == 0 {
        StatRow {
            name,
            value: Text::from_str(alloc, "-")?,
            suffix: 0,
        }
    } else {
        StatRow {
            name,
            value: percent_text(alloc, rate_of(hits, misses))?,
            suffix: 2,
        }
    };
    rows.push(row)?;
    Ok(())
}
