ghost use Rattle.std.specs.Prelude.{◌≡◌, ℕ, ◌≤◌, ◌++◌, ◌∷◌, [], codes, IfOk, OnOk, string_bytes};
ghost use Rattle.sc_stats.specs.Figures.{half_even};
ghost use Rattle.sc_stats.specs.Info.{field_line, info_lines, is_local_disk, joined, level_places, mode_line, place_lines, preprocessor_line, size_line, size_number, size_unit, store_lines, store_places, unit_name, unit_size, with_more, yes_or_no};
ghost use Rattle.std.specs.Fmt.{decimal};
ghost use Rattle.std.specs.Option.{option_copied};
ghost use Rattle.sc_stats.specs.Lines.{filled, two_columns};

use crate::counters::{LevelStats, ServerInfo};
use crate::figures::{number_text, rounded};
use crate::lines::{lay_out, push_filled, two_columns};
use sc_entry::{Items, NoMemory, Text};
use std::alloc::Global;

impl ServerInfo {
    /// All lines.
    pub(crate) fn lines(
        &self,
        alloc: Global,
        advanced: bool,
        mode: Option<&str>,
    ) -> Result<Items<Text>, NoMemory>
        ensures { IfOk result (λ lines. lines ≡ info_lines advanced (option_copied mode.entry) self.now) }
    {
        let layout = lay_out(alloc, &self.stats, advanced)?;
        let names = layout.name_width;
        let values = layout.value_width;
        let mut lines = layout.lines;
        add_store_lines(&mut lines, alloc, self, names, values, advanced, mode)?;
        Ok(lines)
    }
}

fn add_store_lines(
    lines: &mut Items<Text>,
    alloc: Global,
    info: &ServerInfo,
    names: usize,
    values: usize,
    advanced: bool,
    mode: Option<&str>,
) -> Result<(), NoMemory>
    ensures { OnOk result (lines.new ≡ store_lines names values advanced (option_copied mode.entry) info.now lines.old) }
{
    add_place_lines(lines, alloc, info, names)?;
    add_mode_line(lines, alloc, names, advanced, mode)?;
    let directories = joined(alloc, info.basedirs.as_slice())?;
    add_field(
        lines,
        alloc,
        names,
        "Base directories",
        directories.as_str(),
    )?;
    add_preprocessor_line(lines, alloc, info, names)?;
    add_field(
        lines,
        alloc,
        names,
        "Version (client)",
        info.version.as_str(),
    )?;
    add_size(lines, alloc, names, values, "Cache size", info.cache_size)?;
    add_size(
        lines,
        alloc,
        names,
        values,
        "Max cache size",
        info.max_cache_size,
    )?;
    Ok(())
}

#[tactic(auto, unfolding(crate::specs::Info::place_lines))]
fn add_place_lines(
    lines: &mut Items<Text>,
    alloc: Global,
    info: &ServerInfo,
    names: usize,
) -> Result<(), NoMemory>
    ensures { OnOk result (lines.new ≡ place_lines names info.now lines.old) }
{
    add_field(
        lines,
        alloc,
        names,
        "Cache location",
        info.cache_location.as_str(),
    )?;
    add_store_places(lines, alloc, names, &info.stats.multi_level)?;
    Ok(())
}

#[tactic(auto, unfolding(crate::specs::Info::store_places))]
fn add_store_places(
    lines: &mut Items<Text>,
    alloc: Global,
    names: usize,
    levels: &Option<Items<LevelStats>>,
) -> Result<(), NoMemory>
    ensures { OnOk result (lines.new ≡ store_places names levels.now lines.old) }
{
    match levels {
        Some(levels) => add_level_places(lines, alloc, names, levels.as_slice()),
        None => Ok(()),
    }
}

fn add_level_places(
    lines: &mut Items<Text>,
    alloc: Global,
    names: usize,
    levels: &[LevelStats],
) -> Result<(), NoMemory>
    ensures { OnOk result (lines.new ≡ level_places names levels.now lines.old) }
{
    for level in levels {
        let name = level.name.as_str();
        let name = format!(in alloc; "  {name}")?;
        add_field(lines, alloc, names, name.as_str(), level.location.as_str())?;
    }
    Ok(())
}

#[tactic(auto, unfolding(crate::specs::Info::mode_line))]
fn add_mode_line(
    lines: &mut Items<Text>,
    alloc: Global,
    names: usize,
    advanced: bool,
    mode: Option<&str>,
) -> Result<(), NoMemory>
    ensures { OnOk result (lines.new ≡ mode_line names advanced (option_copied mode.entry) lines.old) }
{
    if !advanced {
        return Ok(());
    }
    match mode {
        Some(mode) => add_field(lines, alloc, names, "Effective cache mode", mode),
        None => Ok(()),
    }
}

#[tactic(auto, unfolding(crate::specs::Info::preprocessor_line))]
fn add_preprocessor_line(
    lines: &mut Items<Text>,
    alloc: Global,
    info: &ServerInfo,
    names: usize,
) -> Result<(), NoMemory>
    ensures { OnOk result (lines.new ≡ preprocessor_line names info.now lines.old) }
{
    if !is_local_disk(&info.cache_location) {
        return Ok(());
    }
    let used = yes_or_no(info.use_preprocessor_cache_mode);
    add_field(lines, alloc, names, "Use direct/preprocessor mode?", used)?;
    Ok(())
}

fn is_local_disk(location: &Text) -> bool
    ensures { result ≡ is_local_disk location.now }
{
    location.as_bytes().starts_with(b"Local disk")
}

#[tactic(auto, unfolding(crate::specs::Info::yes_or_no))]
fn yes_or_no(flag: bool) -> &'static str
    ensures { result.now ≡ yes_or_no flag }
{
    if flag { "yes" } else { "no" }
}

#[tactic(auto, unfolding(crate::specs::Info::joined))]
fn joined(alloc: Global, texts: &[Text]) -> Result<Text, NoMemory>
    ensures { IfOk result (λ text. text ≡ joined texts.now) }
{
    let Some((first, others)) = texts.split_first() else {
        return Text::from_str(alloc, "(none)");
    };
    let mut text = String::from_str(alloc, first.as_str())?;
    for other in others {
        text.push_str(", ")?;
        text.push_str(other.as_str())?;
    }
    Ok(Text::from_string(text))
}

#[tactic(auto, unfolding(crate::specs::Info::size_line))]
fn add_size(
    lines: &mut Items<Text>,
    alloc: Global,
    names: usize,
    values: usize,
    name: &str,
    size: Option<u64>,
) -> Result<(), NoMemory>
    ensures { OnOk result (lines.new ≡ size_line names values name.now size lines.old) }
{
    match size {
        Some(size) => {
            let line = size_text(alloc, names, values, name, size)?;
            lines.push(line)
        }
        None => Ok(()),
    }
}

fn size_text(
    alloc: Global,
    names: usize,
    values: usize,
    name: &str,
    size: u64,
) -> Result<Text, NoMemory>
    ensures { IfOk result (λ line. line ≡ two_columns [] names name.now values 0 (decimal (size_number size)) ++ codes " " ++ size_unit size) }
{
    let (number, unit) = sized(size);
    let name = Text::from_str(alloc, name)?;
    let number = number_text(alloc, number)?;
    let mut line = two_columns(alloc, "", names, &name, values, 0, &number)?.into_string();
    line.push_str(" ")?;
    line.push_str(unit)?;
    Ok(Text::from_string(line))
}

/// A size as it is printed: bytes below 1024, else rounded in its unit.
fn sized(size: u64) -> (u64, &'static str)
    ensures number { result.0 ≡ size_number size }
    ensures unit { result.1.now ≡ size_unit size }
{
    if size < 1024 {
        return (size, "bytes");
    }
    let (unit, name) = unit_of(size);
    (rounded(u128::from(size), unit) as u64, name)
}

/// The greatest power of 1024 that a size of 1024 or more reaches, and its name.
fn unit_of(size: u64) -> (u128, &'static str)
    ensures unit { result.0 ≡ unit_size size }
    ensures name { result.1.now ≡ unit_name size }
{
    if size < 1 << 20 {
        (1 << 10, "KiB")
    } else if size < 1 << 30 {
        (1 << 20, "MiB")
    } else if size < 1 << 40 {
        (1 << 30, "GiB")
    } else if size < 1 << 50 {
        (1 << 40, "TiB")
    } else if size < 1 << 60 {
        (1 << 50, "PiB")
    } else {
        (1 << 60, "EiB")
    }
}

#[tactic(auto, unfolding(crate::specs::Info::field_line))]
fn add_field(
    lines: &mut Items<Text>,
    alloc: Global,
    names: usize,
    name: &str,
    text: &str,
) -> Result<(), NoMemory>
    ensures { OnOk result (lines.new ≡ field_line names name.now text.now lines.old) }
{
    let mut line = String::new(alloc);
    push_filled(&mut line, names, name)?;
    line.push_str(" ")?;
    line.push_str(text)?;
    lines.push(Text::from_string(line))?;
    Ok(())
}
