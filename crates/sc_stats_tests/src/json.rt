use crate::fixtures::info;
use sc_entry::Text;
use sc_stats::{DistInfo, ServerInfo};
use sc_stats_json::{DistInfoJson, ServerInfoJson};
use serde_json::Value;
use std::alloc::Global;
use std::test::Fail;

/// Whether the JSON of what a daemon tells has its store's size, and no mode where none is told.
fn has_values(alloc: Global, info: &ServerInfo) -> Result<bool, Fail> {
    let value = info.to_json(alloc, None)?;
    let size = value.pointer("/cache_size").and_then(Value::as_u64);
    let mode = value.pointer("/effective_cache_mode").map(Value::is_null);
    Ok(size == Some(1536) && mode == Some(true))
}

fn info_has_values(alloc: Global) -> Result<bool, Fail> {
    let info = info(alloc)?;
    has_values(alloc, &info)
}

#[test]
fn ample_to_json(rt: HostRuntime) -> Result<(), Fail> {
    assert!(rt; info_has_values(rt.alloc())?);
    Ok(())
}

/// Whether the JSON of where distributed compilation stands has a scheduler's numbers.
fn has_numbers(alloc: Global, info: &DistInfo) -> Result<bool, Fail> {
    let value = info.to_json(alloc)?;
    Ok(value.pointer("/SchedulerStatus/1").is_some())
}

fn scheduler_has_numbers(alloc: Global) -> Result<bool, Fail> {
    let on = DistInfo::SchedulerStatus {
        url: Some(Text::from_str(alloc, "http://s")?),
        num_servers: 1,
        num_cpus: 8,
        in_progress: 3,
    };
    has_numbers(alloc, &on)
}

#[test]
fn ample_to_json_of_distribution(rt: HostRuntime) -> Result<(), Fail> {
    assert!(rt; scheduler_has_numbers(rt.alloc())?);
    Ok(())
}
