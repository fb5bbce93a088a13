use crate::fixtures::{info, levels_named};
use sc_entry::Text;
use sc_stats::{
    LevelStats, MultiLevelStats, ServerInfo, ServerStats, ServerStatsWriter,
    StdoutServerStatsWriter,
};
use std::alloc::Global;
use std::test::Fail;

/// Whether a level prints its rate so.
fn has_rate(alloc: Global, level: &LevelStats, rate: &str) -> Result<bool, Fail> {
    let rows = level.format_stats(alloc)?;
    Ok(rows.get(2).is_some_and(|row| row.value.as_str() == rate))
}

/// Whether the rate of one hit among four lookups is printed.
fn shows_rate(alloc: Global) -> Result<bool, Fail> {
    let mut level = LevelStats::new(alloc);
    level.hits = 1;
    level.misses = 3;
    has_rate(alloc, &level, "25.00 %")
}

#[test]
fn ample_format_stats(rt: HostRuntime) -> Result<(), Fail> {
    assert!(rt; shows_rate(rt.alloc())?);
    Ok(())
}

fn refuse(stats: &mut ServerStats, alloc: Global, why: &str, extra: &str) -> Result<(), Fail> {
    let extra = if extra.is_empty() { None } else { Some(extra) };
    Ok(stats.record_not_cacheable(alloc, why, extra)?)
}

/// How often a reason was counted.
fn refused(stats: &ServerStats, alloc: Global, reason: &str) -> Result<u64, Fail> {
    let reason = Text::from_str(alloc, reason)?;
    Ok(stats.not_cached.get(&reason))
}

/// Counts four requests that can't be cached.
fn refuse_four(stats: &mut ServerStats, alloc: Global) -> Result<(), Fail> {
    refuse(stats, alloc, "-E", "dylib")?;
    refuse(stats, alloc, "crate-type", "dylib")?;
    refuse(stats, alloc, "crate-type", "no crate-type passed")?;
    refuse(stats, alloc, "crate-type", "")
}

/// Whether their reasons were counted.
fn counts_four(stats: &ServerStats, alloc: Global) -> Result<bool, Fail> {
    Ok(
        stats.requests_not_cacheable == 4
            && refused(stats, alloc, "-E")? == 1
            && refused(stats, alloc, "crate-type (dylib)")? == 1
            && refused(stats, alloc, "crate-type")? == 2,
    )
}

fn counts_refusals(alloc: Global, stats: &mut ServerStats) -> Result<bool, Fail> {
    refuse_four(stats, alloc)?;
    counts_four(stats, alloc)
}

fn counts_first_refusals(alloc: Global) -> Result<bool, Fail> {
    let mut stats = ServerStats::new(alloc);
    counts_refusals(alloc, &mut stats)
}

#[test]
fn ample_record_not_cacheable(rt: HostRuntime) -> Result<(), Fail> {
    assert!(rt; counts_first_refusals(rt.alloc())?);
    Ok(())
}

fn levels(alloc: Global, names: &[&str]) -> Result<MultiLevelStats, Fail> {
    Ok(MultiLevelStats::from_levels(levels_named(alloc, names)?))
}

/// How many lines levels print.
fn lines_of(alloc: Global, levels: &MultiLevelStats) -> Result<usize, Fail> {
    let rows = levels.format_stats(alloc)?;
    Ok(rows.len())
}

fn lines_of_sum(
    alloc: Global,
    levels: &mut MultiLevelStats,
    more: &MultiLevelStats,
) -> Result<usize, Fail> {
    levels.add_assign(more)?;
    lines_of(alloc, levels)
}

fn lines_with_two(alloc: Global, levels_of_one: &mut MultiLevelStats) -> Result<usize, Fail> {
    let more = levels(alloc, &["L0", "L1"])?;
    lines_of_sum(alloc, levels_of_one, &more)
}

/// How many lines a level prints once two levels are added to it.
fn lines_of_both(alloc: Global) -> Result<usize, Fail> {
    let mut one = levels(alloc, &["L0"])?;
    lines_with_two(alloc, &mut one)
}

#[test]
fn ample_add_assign(rt: HostRuntime) -> Result<(), Fail> {
    assert_eq!(rt; lines_of_both(rt.alloc())?, 19);
    Ok(())
}

/// Whether a copy has the version of what is copied.
fn copy_has_version(info: &ServerInfo) -> Result<bool, Fail> {
    let copy = info.clone()?;
    Ok(copy.version.as_str() == "0.19.0")
}

fn has_version(alloc: Global) -> Result<bool, Fail> {
    let info = info(alloc)?;
    copy_has_version(&info)
}

#[test]
fn ample_clone(rt: HostRuntime) -> Result<(), Fail> {
    assert!(rt; has_version(rt.alloc())?);
    Ok(())
}

#[test]
fn prints_on_standard_output(rt: HostRuntime) {
    let mut writer = StdoutServerStatsWriter { runtime: &rt };
    writer.write("Cache location");
}
