//! The texts that a client's commands print.
ghost use Rattle.std.specs.Prelude.{◌≡◌, ◌++◌, ◌∷◌, [], false, IfOk, OnOk};
ghost use Rattle.std.specs.Option.{option_copied};
ghost use Rattle.sc_stats.specs.Info.{info_lines};
ghost use Rattle.sc_main_client.specs.Printed.{dist_text, last_text, lines_text, mode_name, stats_text};

use sc_client::Statistics;
use sc_entry::{ByteText, CacheMode, NoMemory};
use sc_stats::{DistInfo, ServerInfo, ServerStatsWriter};
use sc_stats_json::{DistInfoJson, ServerInfoJson};
use std::alloc::Global;

/// Gathers lines as one text, each with its line feed.
#[derive(Drop)]
struct LinesText {
    text: ByteText,
    /// Whether there was no memory for a line, so that the text isn't whole.
    is_cut: bool,
}

impl LinesText {
    fn push(&mut self, line: &str) -> Result<(), NoMemory>
        ensures text { OnOk result (self.new.text ≡ self.old.text ++ line.now ++ 10 ∷ []) }
        ensures cut { self.new.is_cut ≡ self.old.is_cut }
    {
        self.text.append(line.as_bytes())?;
        self.text.push(b'\n')?;
        Ok(())
    }
}

impl ServerStatsWriter for LinesText {
    ghost writes = { λ old line new. new.is_cut ≡ false → (old.is_cut ≡ false) × (new.text ≡ old.text ++ line ++ 10 ∷ []) };

    fn write(&mut self, text: &str) {
        if self.push(text).is_err() {
            self.is_cut = true;
        }
    }
}

fn mode_name(mode: CacheMode) -> &'static str
    ensures { result.now ≡ mode_name mode }
{
    match mode {
        CacheMode::ReadOnly => "ReadOnly",
        CacheMode::ReadWrite => "ReadWrite",
    }
}

/// What a server counted and tells of its store, line by line.
fn lines_of(
    alloc: Global,
    info: &ServerInfo,
    advanced: bool,
    mode: Option<&str>,
) -> Result<ByteText, NoMemory>
    ensures { IfOk result (λ text. text ≡ lines_text (info_lines advanced (option_copied mode.entry) info.now)) }
{
    let mut lines = LinesText {
        text: ByteText::new(alloc),
        is_cut: false,
    };
    info.print(alloc, &mut lines, advanced, mode)?;
    if lines.is_cut {
        return Err(NoMemory);
    }
    Ok(lines.text)
}

/// Statistics with their mode: as JSON, or line by line.
#[tactic(auto, unfolding(crate::specs::Printed::stats_text))]
pub(crate) fn stats_text(
    alloc: Global,
    statistics: &Statistics,
    advanced: bool,
    json: bool,
) -> Result<ByteText, NoMemory>
    ensures { IfOk result (λ text. text ≡ stats_text advanced json statistics.now) }
{
    let mode = mode_name(statistics.mode);
    if json {
        let text = statistics.info.json_text(alloc, Some(mode))?;
        return Ok(text.into_byte_text());
    }
    lines_of(alloc, &statistics.info, advanced, Some(mode))
}

/// What a server counted until it stopped.
pub(crate) fn last_text(alloc: Global, info: &ServerInfo) -> Result<ByteText, NoMemory>
    ensures { IfOk result (λ text. text ≡ last_text info.now) }
{
    lines_of(alloc, info, false, None)
}

/// How distributed compilation stands, as a line of JSON.
pub(crate) fn dist_text(alloc: Global, info: &DistInfo) -> Result<ByteText, NoMemory>
    ensures { IfOk result (λ text. text ≡ dist_text info.now) }
{
    let mut text = info.json_text(alloc)?.into_byte_text();
    text.push(b'\n')?;
    Ok(text)
}
