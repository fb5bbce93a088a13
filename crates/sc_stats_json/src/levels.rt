ghost use Rattle.std.specs.Prelude.{◌≡◌, map, IfOk, OnOk};
ghost use Rattle.serde_json.specs.View.{members_view, view};
ghost use Rattle.sc_stats_json.specs.Fields.{put_backfills, put_place, put_writes};
ghost use Rattle.sc_stats_json.specs.Json.{level_json, levels_json};

use crate::fields::{put_number, put_span, put_text};
use sc_entry::{Items, NoMemory};
use sc_stats::LevelStats;
use serde_json::{Map, Value, push};
use std::alloc::Global;

/// The levels in their order, or `null`.
#[tactic(auto, unfolding(crate::specs::Json::levels_json))]
pub(crate) fn levels_value(
    alloc: Global,
    levels: &Option<Items<LevelStats>>,
) -> Result<Value, NoMemory>
    ensures { IfOk result (λ v. view v ≡ levels_json levels.now) }
{
    let Some(levels) = levels else {
        return Ok(Value::Null);
    };
    let values = level_values(alloc, levels.as_slice())?;
    Ok(Value::from(values))
}

fn level_values(alloc: Global, levels: &[LevelStats]) -> Result<Vec<Value>, NoMemory>
    ensures { IfOk result (λ vs. map view vs.items ≡ map level_json levels.now) }
{
    let mut values = Vec::new(alloc);
    for level in levels {
        let value = level_value(alloc, level)?;
        push(&mut values, value)?;
    }
    Ok(values)
}

/// What one level counts.
fn level_value(alloc: Global, level: &LevelStats) -> Result<Value, NoMemory>
    ensures { IfOk result (λ v. view v ≡ level_json level.now) }
{
    let mut fields = Map::new(alloc);
    put_backfills(&mut fields, alloc, level)?;
    put_place(&mut fields, alloc, level)?;
    put_writes(&mut fields, alloc, level)?;
    Ok(Value::from(fields))
}

#[tactic(auto, unfolding(crate::specs::Fields::put_backfills))]
fn put_backfills(
    fields: &mut Map<String, Value>,
    alloc: Global,
    level: &LevelStats,
) -> Result<(), NoMemory>
    ensures { OnOk result (members_view fields.new.entries ≡ put_backfills level.now (members_view fields.old.entries)) }
{
    put_number(fields, alloc, "backfills_from", level.backfills_from)?;
    put_number(fields, alloc, "backfills_to", level.backfills_to)?;
    put_span(fields, alloc, "hit_duration", &level.hit_duration)?;
    put_number(fields, alloc, "hits", level.hits)?;
    Ok(())
}

#[tactic(auto, unfolding(crate::specs::Fields::put_place))]
fn put_place(
    fields: &mut Map<String, Value>,
    alloc: Global,
    level: &LevelStats,
) -> Result<(), NoMemory>
    ensures { OnOk result (members_view fields.new.entries ≡ put_place level.now (members_view fields.old.entries)) }
{
    put_text(fields, alloc, "location", &level.location)?;
    put_number(fields, alloc, "misses", level.misses)?;
    put_text(fields, alloc, "name", &level.name)?;
    Ok(())
}

#[tactic(auto, unfolding(crate::specs::Fields::put_writes))]
fn put_writes(
    fields: &mut Map<String, Value>,
    alloc: Global,
    level: &LevelStats,
) -> Result<(), NoMemory>
    ensures { OnOk result (members_view fields.new.entries ≡ put_writes level.now (members_view fields.old.entries)) }
{
    put_span(fields, alloc, "write_duration", &level.write_duration)?;
    put_number(fields, alloc, "write_failures", level.write_failures)?;
    put_number(fields, alloc, "writes", level.writes)?;
    Ok(())
}
