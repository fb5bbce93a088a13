ghost use Rattle.std.specs.Prelude.{◌≡◌, codes, IfOk};
ghost use Rattle.serde_json.specs.Data.{Data, string};
ghost use Rattle.serde_json.specs.View.{view};
ghost use Rattle.serde_json.specs.Written.{compact_text};
ghost use Rattle.sc_stats_json.specs.Json.{dist_json, one_field, pair_json, scheduler_json, text_or_null};

use crate::text::compact_text;
use sc_entry::{NoMemory, Text};
use sc_stats::DistInfo;
use serde_json::{Value, json};
use std::alloc::Global;

/// How distributed compilation stands, as JSON: an object with the variant's name as its one field, which is
/// a text, or an array of both parts.
pub trait DistInfoJson {
    ghost json: { Self → Data };

    fn to_json(&self, alloc: Global) -> Result<Value, NoMemory>
        ensures { IfOk result (λ v. view v ≡ json self.now) };

    /// The text of the JSON, without spaces.
    fn json_text(&self, alloc: Global) -> Result<Text, NoMemory>
        ensures { IfOk result (λ text. text ≡ compact_text (json self.now)) };
}

impl DistInfoJson for DistInfo {
    ghost json = { dist_json };

    fn to_json(&self, alloc: Global) -> Result<Value, NoMemory> {
        dist_value(alloc, self)
    }

    fn json_text(&self, alloc: Global) -> Result<Text, NoMemory> {
        let value = dist_value(alloc, self)?;
        compact_text(alloc, &value)
    }
}

#[tactic(auto, unfolding(crate::specs::Json::dist_json))]
fn dist_value(alloc: Global, info: &DistInfo) -> Result<Value, NoMemory>
    ensures { IfOk result (λ v. view v ≡ dist_json info.now) }
{
    match info {
        DistInfo::Disabled(text) => disabled(alloc, text),
        DistInfo::NotConnected(url, text) => not_connected(alloc, url, text),
        DistInfo::SchedulerStatus {
            url,
            num_servers,
            num_cpus,
            in_progress,
        } => {
            let status = scheduler(alloc, *num_servers, *num_cpus, *in_progress)?;
            scheduler_status(alloc, url, status)
        }
    }
}

fn disabled(alloc: Global, text: &Text) -> Result<Value, NoMemory>
    ensures { IfOk result (λ v. view v ≡ one_field (codes "Disabled") (string text.now)) }
{
    let value = json!(in alloc; {"Disabled": text.as_str()})?;
    Ok(value)
}

fn not_connected(alloc: Global, url: &Option<Text>, text: &Text) -> Result<Value, NoMemory>
    ensures { IfOk result (λ v. view v ≡ one_field (codes "NotConnected") (pair_json (text_or_null url.now) (string text.now))) }
{
    let url = url_value(alloc, url)?;
    let value = json!(in alloc; {"NotConnected": [url, text.as_str()]})?;
    Ok(value)
}

fn scheduler_status(alloc: Global, url: &Option<Text>, status: Value) -> Result<Value, NoMemory>
    ensures { IfOk result (λ v. view v ≡ one_field (codes "SchedulerStatus") (pair_json (text_or_null url.now) (view status))) }
{
    let url = url_value(alloc, url)?;
    let value = json!(in alloc; {"SchedulerStatus": [url, status]})?;
    Ok(value)
}

#[tactic(auto, unfolding(crate::specs::Json::scheduler_json))]
fn scheduler(
    alloc: Global,
    num_servers: u64,
    num_cpus: u64,
    in_progress: u64,
) -> Result<Value, NoMemory>
    ensures { IfOk result (λ v. view v ≡ scheduler_json num_servers num_cpus in_progress) }
{
    let value = json!(in alloc; {
        "in_progress": in_progress,
        "num_cpus": num_cpus,
        "num_servers": num_servers,
    })?;
    Ok(value)
}

fn url_value(alloc: Global, url: &Option<Text>) -> Result<Value, NoMemory>
    ensures { IfOk result (λ v. view v ≡ text_or_null url.now) }
{
    match url {
        Some(url) => Ok(Value::try_from_str(alloc, url.as_str())?),
        None => Ok(Value::Null),
    }
}
