ghost use Rattle.std.specs.Prelude.{◌≡◌, IfOk};
ghost use Rattle.sc_store_config.specs.Policies.{setting_policies};
ghost use Rattle.sc_store_config.specs.declared.write_error_policy.WriteErrorPolicy.TheVariants as settings;

use sc_entry::{Items, NoMemory};
use sc_model::LevelPolicy;
use std::alloc::Global;

/// A setting of all levels' policies: which refused writes count.
#[derive(Clone, Copy)]
pub enum WriteErrorPolicy {
    /// None does: each level is written in the background.
    Ignore,
    /// Those of level 0: it has to be written, and the others are in the background.
    L0,
    /// Each does: every level has to be written.
    All,
}

impl WriteErrorPolicy {
    /// The setting of a configuration that names none: level 0 counts.
    pub fn new() -> WriteErrorPolicy
        ensures { result ≡ settings.L0 }
    {
        WriteErrorPolicy::L0
    }

    /// The policies of so many levels, in order.
    pub fn policies(self, alloc: Global, levels: usize) -> Result<Items<LevelPolicy>, NoMemory>
        ensures { IfOk result (λ policies. policies ≡ setting_policies self levels) }
    {
        let policies = match self {
            WriteErrorPolicy::Ignore => vec![in alloc; LevelPolicy::Background; levels]?,
            WriteErrorPolicy::L0 => level_0_alone(alloc, levels)?,
            WriteErrorPolicy::All => vec![in alloc; LevelPolicy::Required; levels]?,
        };
        Ok(Items::from_vec(policies))
    }
}

/// The policies of so many levels, of which the first has to be written.
fn level_0_alone(alloc: Global, levels: usize) -> Result<Vec<LevelPolicy>, NoMemory>
    ensures { IfOk result (λ policies. policies.items ≡ setting_policies settings.L0 levels) }
{
    let mut policies = vec![in alloc; LevelPolicy::Background; levels]?;
    if levels > 0 {
        policies[0] = LevelPolicy::Required;
    }
    Ok(policies)
}
