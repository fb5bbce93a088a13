ghost use Rattle.std.specs.Prelude.{◌≡◌, IfOk, OnOk};
ghost use Rattle.serde_json.specs.View.{members_view, view};
ghost use Rattle.sc_stats_json.specs.Fields.{put_cache_writes, put_compilations, put_elsewhere, put_lookups, put_requests};
ghost use Rattle.sc_stats_json.specs.Json.{stats_json};

use crate::fields::{put_counts, put_languages, put_number, put_span};
use crate::levels::levels_value;
use sc_entry::NoMemory;
use sc_stats::ServerStats;
use serde_json::{Map, Value, put};
use std::alloc::Global;

/// All that the daemon counts.
pub(crate) fn stats_value(alloc: Global, stats: &ServerStats) -> Result<Value, NoMemory>
    ensures { IfOk result (λ v. view v ≡ stats_json stats.now) }
{
    let mut fields = Map::new(alloc);
    put_lookups(&mut fields, alloc, stats)?;
    put_cache_writes(&mut fields, alloc, stats)?;
    put_compilations(&mut fields, alloc, stats)?;
    put_elsewhere(&mut fields, alloc, stats)?;
    put_requests(&mut fields, alloc, stats)?;
    Ok(Value::from(fields))
}

#[tactic(auto, unfolding(crate::specs::Fields::put_lookups))]
fn put_lookups(
    fields: &mut Map<String, Value>,
    alloc: Global,
    stats: &ServerStats,
) -> Result<(), NoMemory>
    ensures { OnOk result (members_view fields.new.entries ≡ put_lookups stats.now (members_view fields.old.entries)) }
{
    put_languages(fields, alloc, "cache_errors", &stats.cache_errors)?;
    put_languages(fields, alloc, "cache_hits", &stats.cache_hits)?;
    put_languages(fields, alloc, "cache_misses", &stats.cache_misses)?;
    put_number(fields, alloc, "cache_read_errors", stats.cache_read_errors)?;
    put_span(
        fields,
        alloc,
        "cache_read_hit_duration",
        &stats.cache_read_hit_duration,
    )?;
    put_number(fields, alloc, "cache_timeouts", stats.cache_timeouts)?;
    Ok(())
}

#[tactic(auto, unfolding(crate::specs::Fields::put_cache_writes))]
fn put_cache_writes(
    fields: &mut Map<String, Value>,
    alloc: Global,
    stats: &ServerStats,
) -> Result<(), NoMemory>
    ensures { OnOk result (members_view fields.new.entries ≡ put_cache_writes stats.now (members_view fields.old.entries)) }
{
    put_span(
        fields,
        alloc,
        "cache_write_duration",
        &stats.cache_write_duration,
    )?;
    put_number(
        fields,
        alloc,
        "cache_write_errors",
        stats.cache_write_errors,
    )?;
    put_number(fields, alloc, "cache_writes", stats.cache_writes)?;
    Ok(())
}

#[tactic(auto, unfolding(crate::specs::Fields::put_compilations))]
fn put_compilations(
    fields: &mut Map<String, Value>,
    alloc: Global,
    stats: &ServerStats,
) -> Result<(), NoMemory>
    ensures { OnOk result (members_view fields.new.entries ≡ put_compilations stats.now (members_view fields.old.entries)) }
{
    put_number(fields, alloc, "compilations", stats.compilations)?;
    put_number(fields, alloc, "compile_fails", stats.compile_fails)?;
    put_number(fields, alloc, "compile_requests", stats.compile_requests)?;
    put_span(
        fields,
        alloc,
        "compiler_write_duration",
        &stats.compiler_write_duration,
    )?;
    Ok(())
}

/// What was compiled elsewhere, and what the levels count.
#[tactic(auto, unfolding(crate::specs::Fields::put_elsewhere))]
fn put_elsewhere(
    fields: &mut Map<String, Value>,
    alloc: Global,
    stats: &ServerStats,
) -> Result<(), NoMemory>
    ensures { OnOk result (members_view fields.new.entries ≡ put_elsewhere stats.now (members_view fields.old.entries)) }
{
    put_counts(fields, alloc, "dist_compiles", &stats.dist_compiles)?;
    put_number(fields, alloc, "dist_errors", stats.dist_errors)?;
    put_number(fields, alloc, "forced_recaches", stats.forced_recaches)?;
    let levels = levels_value(alloc, &stats.multi_level)?;
    put(fields, alloc, "multi_level", levels)?;
    Ok(())
}

#[tactic(auto, unfolding(crate::specs::Fields::put_requests))]
fn put_requests(
    fields: &mut Map<String, Value>,
    alloc: Global,
    stats: &ServerStats,
) -> Result<(), NoMemory>
    ensures { OnOk result (members_view fields.new.entries ≡ put_requests stats.now (members_view fields.old.entries)) }
{
    put_number(
        fields,
        alloc,
        "non_cacheable_compilations",
        stats.non_cacheable_compilations,
    )?;
    put_counts(fields, alloc, "not_cached", &stats.not_cached)?;
    put_number(fields, alloc, "requests_executed", stats.requests_executed)?;
    put_number(
        fields,
        alloc,
        "requests_not_cacheable",
        stats.requests_not_cacheable,
    )?;
    put_number(
        fields,
        alloc,
        "requests_not_compile",
        stats.requests_not_compile,
    )?;
    put_number(
        fields,
        alloc,
        "requests_unsupported_compiler",
        stats.requests_unsupported_compiler,
    )?;
    Ok(())
}
