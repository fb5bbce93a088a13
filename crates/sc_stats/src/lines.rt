ghost use Rattle.std.specs.Prelude.{◌≡◌, ℕ, ◌+◌, ◌-◌, ◌<◌, ◌≤◌, ◌++◌, ◌∷◌, [], codes, map, IfOk, OnOk, string_bytes};
ghost use Rattle.sc_entry.specs.Listed.{listed};
ghost use Rattle.sc_stats.specs.Lines.{characters, end_of_reasons, filled, lines_within, listing, name_width, names_of, rank_lines, reason_lines, row_lines, server_lines, spaces, stat_lines, two_columns, value_width, values_of, begins_character};

use crate::counters::ServerStats;
use crate::figures::number_text;
use crate::ranks::{Rank, ranked};
use crate::rows::StatRow;
use sc_entry::{CountedText, Counts, Items, NoMemory, Text};
use std::alloc::Global;
use std::collections::BTreeMap;

/// Statistics as they are printed, and the widths of their columns in bytes.
#[derive(Drop)]
pub(crate) struct Layout {
    pub lines: Items<Text>,
    pub name_width: usize,
    pub value_width: usize,
}

/// The lines of the statistics.
pub(crate) fn lay_out(
    alloc: Global,
    stats: &ServerStats,
    advanced: bool,
) -> Result<Layout, NoMemory>
    ensures lines { IfOk result (λ l. l.lines ≡ stat_lines advanced stats.now) }
    ensures names { IfOk result (λ l. l.name_width ≡ names_of advanced stats.now) }
    ensures values { IfOk result (λ l. l.value_width ≡ values_of advanced stats.now) }
{
    let rows = stats.rows(alloc, advanced)?;
    let name_width = widest_name(rows.as_slice());
    let value_width = widest_value(rows.as_slice());
    let mut lines = Items::new(alloc);
    add_row_lines(&mut lines, alloc, rows.as_slice(), name_width, value_width)?;
    add_server_lines(
        &mut lines,
        alloc,
        &stats.dist_compiles,
        name_width,
        value_width,
    )?;
    add_reason_lines(
        &mut lines,
        alloc,
        &stats.not_cached,
        name_width,
        value_width,
    )?;
    Ok(Layout {
        lines,
        name_width,
        value_width,
    })
}

fn widest_name(rows: &[StatRow]) -> usize
    ensures { result ≡ name_width rows.now 0 }
{
    let mut width = 0;
    for row in rows {
        width = row.name.len().max(width);
    }
    width
}

fn widest_value(rows: &[StatRow]) -> usize
    ensures { result ≡ value_width rows.now 0 }
{
    let mut width = 0;
    for row in rows {
        width = row.value.len().max(width);
    }
    width
}

fn add_row_lines(
    lines: &mut Items<Text>,
    alloc: Global,
    rows: &[StatRow],
    names: usize,
    values: usize,
) -> Result<(), NoMemory>
    ensures { OnOk result (lines.new ≡ row_lines names values rows.now lines.old) }
{
    for row in rows {
        let line = two_columns(alloc, "", names, &row.name, values, row.suffix, &row.value)?;
        lines.push(line)?;
    }
    Ok(())
}

#[tactic(auto, unfolding(crate::specs::Lines::server_lines))]
fn add_server_lines(
    lines: &mut Items<Text>,
    alloc: Global,
    servers: &Counts,
    names: usize,
    values: usize,
) -> Result<(), NoMemory>
    ensures { OnOk result (lines.new ≡ server_lines names values servers.now lines.old) }
{
    let servers = servers.listed(alloc)?;
    let names = names.saturating_sub(2);
    add_listing(
        lines,
        alloc,
        "\nSuccessful distributed compiles",
        "  ",
        names,
        values,
        servers.as_slice(),
    )?;
    Ok(())
}

#[tactic(auto, unfolding(crate::specs::Lines::reason_lines))]
fn add_reason_lines(
    lines: &mut Items<Text>,
    alloc: Global,
    reasons: &Counts,
    names: usize,
    values: usize,
) -> Result<(), NoMemory>
    ensures { OnOk result (lines.new ≡ reason_lines names values reasons.now lines.old) }
{
    let reasons = reasons.listed(alloc)?;
    add_listing(
        lines,
        alloc,
        "\nNon-cacheable reasons:",
        "",
        names,
        values,
        reasons.as_slice(),
    )?;
    add_end_of_reasons(lines, alloc, reasons.as_slice())?;
    Ok(())
}

fn add_end_of_reasons(
    lines: &mut Items<Text>,
    alloc: Global,
    reasons: &[CountedText],
) -> Result<(), NoMemory>
    ensures { OnOk result (lines.new ≡ end_of_reasons reasons.now lines.old) }
{
    if reasons.is_empty() {
        return Ok(());
    }
    lines.push(Text::new(alloc))?;
    Ok(())
}

fn add_listing(
    lines: &mut Items<Text>,
    alloc: Global,
    title: &str,
    front: &str,
    names: usize,
    values: usize,
    texts: &[CountedText],
) -> Result<(), NoMemory>
    ensures { OnOk result (lines.new ≡ listing title.now front.now names values texts.now lines.old) }
{
    if texts.is_empty() {
        return Ok(());
    }
    lines.push(Text::from_str(alloc, title)?)?;
    let ranks = ranked(alloc, texts)?;
    add_rank_lines(lines, alloc, front, names, values, &ranks)?;
    Ok(())
}

fn add_rank_lines(
    lines: &mut Items<Text>,
    alloc: Global,
    front: &str,
    names: usize,
    values: usize,
    ranks: &BTreeMap<Rank, ()>,
) -> Result<(), NoMemory>
    ensures { OnOk result (lines.new ≡ rank_lines front.now names values ranks.now.entries lines.old) }
{
    for (rank, _) in ranks.iter() {
        let count = number_text(alloc, rank.falling.0)?;
        let line = two_columns(alloc, front, names, &rank.name, values, 0, &count)?;
        lines.push(line)?;
    }
    Ok(())
}

/// A name filled to a width, a space, and a value that ends with its column and a suffix's bytes more.
#[tactic(auto, unfolding(crate::specs::Lines::two_columns))]
pub(crate) fn two_columns(
    alloc: Global,
    front: &str,
    names: usize,
    name: &Text,
    values: usize,
    suffix: u8,
    value: &Text,
) -> Result<Text, NoMemory>
    ensures { IfOk result (λ line. line ≡ two_columns front.now names name.now values suffix value.now) }
{
    let mut line = String::from_str(alloc, front)?;
    push_filled(&mut line, names, name.as_str())?;
    line.push_str(" ")?;
    push_room(&mut line, values, suffix, characters(value.as_str()))?;
    line.push_str(value.as_str())?;
    Ok(Text::from_string(line))
}

#[tactic(auto, unfolding(crate::specs::Lines::filled))]
pub(crate) fn push_filled(line: &mut String, width: usize, text: &str) -> Result<(), NoMemory>
    ensures { OnOk result (string_bytes line.new ≡ string_bytes line.old ++ filled width text.now) }
{
    line.push_str(text)?;
    push_spaces(line, width.saturating_sub(characters(text)))?;
    Ok(())
}

/// The room before a value of so many characters that ends with its column and a suffix's bytes more.
fn push_room(line: &mut String, width: usize, suffix: u8, characters: usize) -> Result<(), NoMemory>
    ensures { OnOk result (string_bytes line.new ≡ string_bytes line.old ++ spaces ((width + suffix) - characters)) }
{
    let suffix = usize::from(suffix);
    push_spaces(line, width.saturating_sub(characters))?;
    push_spaces(
        line,
        suffix.saturating_sub(characters.saturating_sub(width)),
    )?;
    Ok(())
}

fn push_spaces(line: &mut String, count: usize) -> Result<(), NoMemory>
    ensures { OnOk result (string_bytes line.new ≡ string_bytes line.old ++ spaces count) }
{
    for written in 0..count {
        line.push(' ')?;
    }
    Ok(())
}

/// How many characters a text has.
fn characters(text: &str) -> usize
    ensures { result ≡ characters text.now }
{
    text.as_bytes()
        .iter()
        .filter(|b| **b < 128 || **b >= 192)
        .count()
}
