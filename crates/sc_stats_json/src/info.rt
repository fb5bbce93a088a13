ghost use Rattle.std.specs.Prelude.{◌≡◌, ℕ, List, Option, map, IfOk, OnOk};
ghost use Rattle.std.specs.Option.{option_copied};
ghost use Rattle.serde_json.specs.Data.{Data, string};
ghost use Rattle.serde_json.specs.View.{members_view, view};
ghost use Rattle.serde_json.specs.Written.{compact_text};
ghost use Rattle.sc_stats_json.specs.Fields.{put_mode, put_state, put_store};
ghost use Rattle.sc_stats_json.specs.Json.{info_json, number_or_null, text_or_null};

use crate::fields::put_text;
use crate::stats::stats_value;
use crate::text::compact_text;
use sc_entry::{NoMemory, Text};
use sc_stats::ServerInfo;
use serde_json::{Map, Value, push, put};
use std::alloc::Global;

/// The statistics of a daemon, and what its store tells of itself, as JSON: an object of the struct's fields
/// and of `effective_cache_mode`, the mode that puts meet, which is `null` where it is not known. Keys
/// ascend, and a span of time is an object of its whole seconds `secs` and of the `nanos` beyond them.
pub trait ServerInfoJson {
    /// The JSON, by the mode.
    ghost json: { Option (List ℕ) → Self → Data };

    fn to_json(&self, alloc: Global, mode: Option<&str>) -> Result<Value, NoMemory>
        ensures { IfOk result (λ v. view v ≡ json (option_copied mode.entry) self.now) };

    /// The text of the JSON, without spaces.
    fn json_text(&self, alloc: Global, mode: Option<&str>) -> Result<Text, NoMemory>
        ensures { IfOk result (λ text. text ≡ compact_text (json (option_copied mode.entry) self.now)) };
}

impl ServerInfoJson for ServerInfo {
    ghost json = { info_json };

    fn to_json(&self, alloc: Global, mode: Option<&str>) -> Result<Value, NoMemory> {
        info_value(alloc, self, mode)
    }

    fn json_text(&self, alloc: Global, mode: Option<&str>) -> Result<Text, NoMemory> {
        let value = info_value(alloc, self, mode)?;
        compact_text(alloc, &value)
    }
}

fn info_value(alloc: Global, info: &ServerInfo, mode: Option<&str>) -> Result<Value, NoMemory>
    ensures { IfOk result (λ v. view v ≡ info_json (option_copied mode.entry) info.now) }
{
    let mut fields = Map::new(alloc);
    put_store(&mut fields, alloc, info)?;
    put_mode(&mut fields, alloc, mode)?;
    put_state(&mut fields, alloc, info)?;
    Ok(Value::from(fields))
}

/// Where the store is, and what it holds.
#[tactic(auto, unfolding(crate::specs::Fields::put_store))]
fn put_store(
    fields: &mut Map<String, Value>,
    alloc: Global,
    info: &ServerInfo,
) -> Result<(), NoMemory>
    ensures { OnOk result (members_view fields.new.entries ≡ put_store info.now (members_view fields.old.entries)) }
{
    let directories = text_values(alloc, info.basedirs.as_slice())?;
    put(fields, alloc, "basedirs", Value::from(directories))?;
    put_text(fields, alloc, "cache_location", &info.cache_location)?;
    put(fields, alloc, "cache_size", number_or_null(info.cache_size))?;
    Ok(())
}

/// The mode that puts meet.
#[tactic(auto, unfolding(crate::specs::Fields::put_mode))]
fn put_mode(
    fields: &mut Map<String, Value>,
    alloc: Global,
    mode: Option<&str>,
) -> Result<(), NoMemory>
    ensures { OnOk result (members_view fields.new.entries ≡ put_mode (option_copied mode.entry) (members_view fields.old.entries)) }
{
    let mode = text_or_null(alloc, mode)?;
    put(fields, alloc, "effective_cache_mode", mode)?;
    Ok(())
}

/// What the store may hold, what is counted, and which daemon it is.
#[tactic(auto, unfolding(crate::specs::Fields::put_state))]
fn put_state(
    fields: &mut Map<String, Value>,
    alloc: Global,
    info: &ServerInfo,
) -> Result<(), NoMemory>
    ensures { OnOk result (members_view fields.new.entries ≡ put_state info.now (members_view fields.old.entries)) }
{
    let largest = number_or_null(info.max_cache_size);
    put(fields, alloc, "max_cache_size", largest)?;
    let stats = stats_value(alloc, &info.stats)?;
    put(fields, alloc, "stats", stats)?;
    let used = Value::from(info.use_preprocessor_cache_mode);
    put(fields, alloc, "use_preprocessor_cache_mode", used)?;
    put_text(fields, alloc, "version", &info.version)?;
    Ok(())
}

fn number_or_null(number: Option<u64>) -> Value
    ensures { view result ≡ number_or_null number }
{
    Value::from(number)
}

fn text_or_null(alloc: Global, text: Option<&str>) -> Result<Value, NoMemory>
    ensures { IfOk result (λ v. view v ≡ text_or_null (option_copied text.entry)) }
{
    match text {
        Some(text) => Ok(Value::try_from_str(alloc, text)?),
        None => Ok(Value::Null),
    }
}

fn text_values(alloc: Global, texts: &[Text]) -> Result<Vec<Value>, NoMemory>
    ensures { IfOk result (λ vs. map view vs.items ≡ map string texts.now) }
{
    let mut values = Vec::new(alloc);
    for text in texts {
        let value = Value::try_from_str(alloc, text.as_str())?;
        push(&mut values, value)?;
    }
    Ok(values)
}
