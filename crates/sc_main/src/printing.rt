//! The report of a drive over memory.
ghost use Rattle.std.specs.Prelude.{◌≡◌, ◌++◌, true, IfOk, OnOk, length, map};
ghost use Rattle.sc_main_memory.specs.Sizes.{sizes_of};
ghost use Rattle.sc_model.specs.Machine.{shown_levels};
ghost use Rattle.sc_daemon_owned.specs.State.{reserved_in};
ghost use Rattle.sc_main.specs.Scripted.{shown_of};

use sc_daemon::{Daemon, Driven, DrivenConn};
use sc_entry::NoMemory;
use sc_main_memory::{Memory, level_sizes};
use sc_main_report::{Report, put_report, put_totals};
use sc_stats::LevelStats;
use sc_wire_conn::End;
use std::alloc::Global;

/// How much of a report is printed.
#[derive(Clone, Copy)]
pub enum Extent {
    Whole,
    /// From its first level on.
    Totals,
}

fn ends_of(alloc: Global, conns: &[DrivenConn]) -> Result<Vec<End>, NoMemory>
    ensures { IfOk result (λ ends. ends.items ≡ map (λ c. c.end) conns.now) }
{
    let mut ends = Vec::new(alloc);
    let mut left = conns;
    while let [conn, rest @ ..] = left {
        ends.push(conn.end)?;
        left = rest;
    }
    Ok(ends)
}

/// What was counted of each level, which a store that stands alone doesn't show.
fn shown_counters(daemon: &Daemon<Memory>) -> &[LevelStats]
    ensures { result.now ≡ shown_levels daemon.now.state.config.policy daemon.now.levels }
{
    if daemon.owned().is_single() {
        &[]
    } else {
        daemon.level_stats()
    }
}

fn put_shown(
    alloc: Global,
    text: &mut Vec<u8>,
    extent: Extent,
    report: &Report,
) -> Result<(), NoMemory>
    ensures { let r = report.now in
        OnOk result (text.new.items ≡ text.old.items
        ++ shown_of extent r.ends.now r.events.now r.levels.now r.counters.now r.background r.tokens r.stats.now) }
{
    match extent {
        Extent::Whole => put_report(alloc, text, report),
        Extent::Totals => put_totals(alloc, text, report),
    }
}

/// The report of what a drive came to, or that much of it.
pub fn printed(
    alloc: Global,
    extent: Extent,
    daemon: &Daemon<Memory>,
    driven: &Driven,
) -> Result<Vec<u8>, NoMemory>
    ensures { daemon.now.state.told ≡ true → IfOk result (λ text. text.items ≡ shown_of extent (map (λ c. c.end) driven.now.conns) driven.now.trace (sizes_of (reserved_in daemon.now.state) daemon.now.state.world.levels) (shown_levels daemon.now.state.config.policy daemon.now.levels) (length driven.now.background) daemon.now.free daemon.now.stats) }
{
    let ends = ends_of(alloc, driven.conns.as_slice())?;
    let levels = level_sizes(alloc, daemon.owned())?;
    let mut text = Vec::new(alloc);
    let report = Report {
        ends: &ends,
        events: driven.trace.as_slice(),
        levels: &levels,
        counters: shown_counters(daemon),
        background: driven.background.len() as u64,
        tokens: daemon.free(),
        stats: daemon.stats(),
    };
    put_shown(alloc, &mut text, extent, &report)?;
    Ok(text)
}
