ghost use Rattle.std.specs.Prelude.{◌≡◌, IfOk, OnOk};
ghost use Rattle.serde_json.specs.Data.{put as with_field, string};
ghost use Rattle.serde_json.specs.View.{members_view, view};
ghost use Rattle.sc_stats_json.specs.Fields.{put_counted};
ghost use Rattle.sc_stats_json.specs.Json.{counts_json, languages_json, number_json, span_json};

use sc_entry::{CountedText, Counts, NoMemory, Text};
use sc_stats::{PerLanguageCount, Span};
use serde_json::{Map, Value, json, put};
use std::alloc::Global;

/// A span's nanoseconds beyond its whole seconds, and its whole seconds.
#[tactic(auto, unfolding(crate::specs::Json::span_json))]
pub(crate) fn span_value(alloc: Global, span: &Span) -> Result<Value, NoMemory>
    ensures { IfOk result (λ v. view v ≡ span_json span.now) }
{
    let value = json!(in alloc; {"nanos": span.subsec_nanos(), "secs": span.as_secs()})?;
    Ok(value)
}

/// Each text with its count.
pub(crate) fn counts_value(alloc: Global, counts: &Counts) -> Result<Value, NoMemory>
    ensures { IfOk result (λ v. view v ≡ counts_json counts.now) }
{
    let texts = counts.listed(alloc)?;
    let mut fields = Map::new(alloc);
    put_counted(&mut fields, alloc, texts.as_slice())?;
    Ok(Value::from(fields))
}

fn put_counted(
    fields: &mut Map<String, Value>,
    alloc: Global,
    texts: &[CountedText],
) -> Result<(), NoMemory>
    ensures { OnOk result (members_view fields.new.entries ≡ put_counted texts.now (members_view fields.old.entries)) }
{
    for text in texts {
        put_number(fields, alloc, text.text.as_str(), text.count)?;
    }
    Ok(())
}

/// Counts by a language's kind, and by language and compiler.
#[tactic(auto, unfolding(crate::specs::Json::languages_json))]
pub(crate) fn languages_value(alloc: Global, counts: &PerLanguageCount) -> Result<Value, NoMemory>
    ensures { IfOk result (λ v. view v ≡ languages_json counts.now) }
{
    let adv_counts = counts_value(alloc, &counts.adv_counts)?;
    let counts = counts_value(alloc, &counts.counts)?;
    let value = json!(in alloc; {"adv_counts": adv_counts, "counts": counts})?;
    Ok(value)
}

pub(crate) fn put_number(
    fields: &mut Map<String, Value>,
    alloc: Global,
    key: &str,
    number: u64,
) -> Result<(), NoMemory>
    ensures { OnOk result (members_view fields.new.entries ≡ with_field key.now (number_json number) (members_view fields.old.entries)) }
{
    put(fields, alloc, key, Value::from(number))?;
    Ok(())
}

pub(crate) fn put_text(
    fields: &mut Map<String, Value>,
    alloc: Global,
    key: &str,
    text: &Text,
) -> Result<(), NoMemory>
    ensures { OnOk result (members_view fields.new.entries ≡ with_field key.now (string text.now) (members_view fields.old.entries)) }
{
    let value = Value::try_from_str(alloc, text.as_str())?;
    put(fields, alloc, key, value)?;
    Ok(())
}

pub(crate) fn put_span(
    fields: &mut Map<String, Value>,
    alloc: Global,
    key: &str,
    span: &Span,
) -> Result<(), NoMemory>
    ensures { OnOk result (members_view fields.new.entries ≡ with_field key.now (span_json span.now) (members_view fields.old.entries)) }
{
    let value = span_value(alloc, span)?;
    put(fields, alloc, key, value)?;
    Ok(())
}

pub(crate) fn put_counts(
    fields: &mut Map<String, Value>,
    alloc: Global,
    key: &str,
    counts: &Counts,
) -> Result<(), NoMemory>
    ensures { OnOk result (members_view fields.new.entries ≡ with_field key.now (counts_json counts.now) (members_view fields.old.entries)) }
{
    let value = counts_value(alloc, counts)?;
    put(fields, alloc, key, value)?;
    Ok(())
}

pub(crate) fn put_languages(
    fields: &mut Map<String, Value>,
    alloc: Global,
    key: &str,
    counts: &PerLanguageCount,
) -> Result<(), NoMemory>
    ensures { OnOk result (members_view fields.new.entries ≡ with_field key.now (languages_json counts.now) (members_view fields.old.entries)) }
{
    let value = languages_value(alloc, counts)?;
    put(fields, alloc, key, value)?;
    Ok(())
}
