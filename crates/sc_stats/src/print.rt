ghost use Rattle.std.specs.Prelude.{◌≡◌, IfOk, OnErr, OnOk};
ghost use Rattle.std.specs.Option.{option_copied};
ghost use Rattle.sc_stats.specs.Info.{info_lines};
ghost use Rattle.sc_stats.specs.Lines.{names_of, stat_lines, values_of};
ghost use Rattle.sc_stats.specs.Writers.{WritesEach};

use crate::counters::{ServerInfo, ServerStats};
use crate::lines::lay_out;
use crate::writer::{ServerStatsWriter, write_each};
use sc_entry::NoMemory;
use std::alloc::Global;

impl ServerStats {
    /// Prints the statistics, with keys by language and compiler, or by a language's kind. Answers the
    /// widths of the names and of the values, in bytes. Without memory nothing is written.
    pub fn print<W: ServerStatsWriter>(
        &self,
        alloc: Global,
        writer: &mut W,
        advanced: bool,
    ) -> Result<(usize, usize), NoMemory>
        ensures widths { IfOk result (λ widths. (widths.0 ≡ names_of advanced self.now) × (widths.1 ≡ values_of advanced self.now)) }
        ensures lines { OnOk result (WritesEach W.writes writer.old (stat_lines advanced self.now) writer.new) }
        ensures err { OnErr result (writer.new ≡ writer.old) }
    {
        let layout = lay_out(alloc, self, advanced)?;
        write_each(writer, layout.lines.as_slice());
        Ok((layout.name_width, layout.value_width))
    }
}

impl ServerInfo {
    /// Prints the statistics and what the store tells of itself; with `advanced` also the mode, where it is
    /// known. Without memory nothing is written.
    pub fn print<W: ServerStatsWriter>(
        &self,
        alloc: Global,
        writer: &mut W,
        advanced: bool,
        mode: Option<&str>,
    ) -> Result<(), NoMemory>
        ensures lines { OnOk result (WritesEach W.writes writer.old (info_lines advanced (option_copied mode.entry) self.now) writer.new) }
        ensures err { OnErr result (writer.new ≡ writer.old) }
    {
        let lines = self.lines(alloc, advanced, mode)?;
        write_each(writer, lines.as_slice());
        Ok(())
    }
}
