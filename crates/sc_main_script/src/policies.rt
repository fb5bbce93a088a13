//! How the levels are written.
ghost use Rattle.std.specs.Prelude.{◌≡◌, replicate, IfOk};
ghost use Rattle.sc_model.specs.declared.level.LevelPolicy.TheVariants.{Required};
ghost use Rattle.sc_main_script.specs.Levels.{fits_word, has_its_levels, policy_of};

use sc_entry::{Items, NoMemory};
use sc_model::{LevelPolicy, Policy};
use std::alloc::Global;

/// How a script names the way that the levels are written.
#[derive(Clone, Copy)]
pub enum PolicyName {
    /// One store, which is asked and written by itself.
    Single,
    /// Every write is made later.
    Ignore,
    /// The first level is written before the answer, the others later.
    L0,
    /// Every level is written before the answer.
    All,
    /// Each level has a policy of its own.
    Levels,
}

/// Whether a level's line may end in this word, or in none.
pub fn fits_word(name: PolicyName, word: Option<LevelPolicy>) -> bool
    ensures { result ≡ fits_word name word }
{
    match name {
        PolicyName::Levels => word.is_some(),
        _ => word.is_none(),
    }
}

/// Whether there may be so many levels.
pub fn has_its_levels(name: PolicyName, levels: usize) -> bool
    ensures { result ≡ has_its_levels name levels }
{
    match name {
        PolicyName::Single => levels == 1,
        _ => true,
    }
}

fn all_required(alloc: Global, levels: usize) -> Result<Items<LevelPolicy>, NoMemory>
    ensures { IfOk result (λ all. all ≡ replicate levels Required) }
{
    let mut all = Items::new(alloc);
    for _ in 0..levels {
        all.push(LevelPolicy::Required)?;
    }
    Ok(all)
}

/// The policy of this name over so many levels, whose own policies are the words.
pub fn policy_of(
    alloc: Global,
    name: PolicyName,
    levels: usize,
    words: Items<LevelPolicy>,
) -> Result<Policy, NoMemory>
    ensures { IfOk result (λ policy. policy ≡ policy_of name levels words) }
{
    match name {
        PolicyName::Single => Ok(Policy::Single),
        PolicyName::Ignore => Ok(Policy::Levels(Items::new(alloc))),
        PolicyName::L0 => {
            let first = all_required(alloc, 1)?;
            Ok(Policy::Levels(first))
        }
        PolicyName::All => {
            let all = all_required(alloc, levels)?;
            Ok(Policy::Levels(all))
        }
        PolicyName::Levels => Ok(Policy::Levels(words)),
    }
}
