//! Chains of texts that tell of faults.
ghost use Rattle.std.specs.Prelude.{◌≡◌, ◌∷◌, ◌++◌, [], IfOk, OnOk};
ghost use Rattle.sc_command_workshop.specs.Collecting.{unread};
ghost use Rattle.sc_command_workshop.specs.Shops.{unheld};

use sc_entry::{Items, NoMemory, Text};
use sc_model::RunAnswer;
use std::alloc::Global;

/// A chain of one text.
pub(crate) fn chain_of(alloc: Global, text: &str) -> Result<Items<Text>, NoMemory>
    ensures { IfOk result (λ chain. chain ≡ text.now ∷ []) }
{
    let mut chain = Items::new(alloc);
    chain.push(Text::from_str(alloc, text)?)?;
    Ok(chain)
}

/// One text more at a chain's end: two pieces, one behind the other.
fn push_joined(
    chain: &mut Items<Text>,
    alloc: Global,
    front: &str,
    end: &str,
) -> Result<(), NoMemory>
    ensures { OnOk result (chain.new ≡ chain.old ++ (front.now ++ end.now) ∷ []) }
{
    let mut text = String::from_str(alloc, front)?;
    text.push_str(end)?;
    chain.push(Text::from_string(text))
}

/// Why the objects of a run can't be had: the file of this name wasn't read.
pub(crate) fn unread(alloc: Global, name: &Text) -> Result<Items<Text>, NoMemory>
    ensures { IfOk result (λ chain. chain ≡ unread name.now) }
{
    let mut chain = chain_of(alloc, "failed to zip up compiler outputs")?;
    push_joined(&mut chain, alloc, "failed to open file ", name.as_str())?;
    Ok(chain)
}

/// That no entry can hold what was collected.
pub(crate) fn unheld(alloc: Global) -> Result<RunAnswer, NoMemory>
    ensures { IfOk result (λ answer. answer ≡ unheld) }
{
    let mut chain = chain_of(alloc, "failed to zip up compiler outputs")?;
    chain.push(Text::from_str(alloc, "bad object name")?)?;
    Ok(RunAnswer::Fault(chain))
}
