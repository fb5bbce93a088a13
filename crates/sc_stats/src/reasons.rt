ghost use Rattle.std.specs.Prelude.{◌≡◌, IfOk, OnErr, OnOk};
ghost use Rattle.std.specs.Option.{option_copied};
ghost use Rattle.sc_stats.specs.Reasons.{not_cacheable, reason};

use crate::counters::ServerStats;
use sc_entry::{NoMemory, Text};
use std::alloc::Global;

/// What is told in place of a crate type where none was passed.
const NO_CRATE_TYPE_PASSED: &str = "no crate-type passed";

impl ServerStats {
    /// Counts a request that could not be cached, and its reason. Without memory nothing is counted.
    pub fn record_not_cacheable(
        &mut self,
        alloc: Global,
        why: &str,
        extra_info: Option<&str>,
    ) -> Result<(), NoMemory>
        ensures ok { OnOk result (self.new ≡ not_cacheable self.old (reason why.now (option_copied extra_info.entry))) }
        ensures err { OnErr result (self.new ≡ self.old) }
    {
        let text = reason_text(alloc, why, extra_info)?;
        self.not_cached.add(&text, 1)?;
        self.requests_not_cacheable = self.requests_not_cacheable.saturating_add(1);
        Ok(())
    }
}

/// The reason that is counted.
fn reason_text(alloc: Global, why: &str, extra_info: Option<&str>) -> Result<Text, NoMemory>
    ensures { IfOk result (λ text. text ≡ reason why.now (option_copied extra_info.entry)) }
{
    match extra_info {
        Some(extra) => {
            if why == "crate-type" && extra != NO_CRATE_TYPE_PASSED {
                return Ok(Text::from_string(format!(in alloc; "crate-type ({extra})")?));
            }
            Text::from_str(alloc, why)
        }
        None => Text::from_str(alloc, why),
    }
}
