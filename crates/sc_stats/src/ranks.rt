ghost use Rattle.std.specs.Prelude.{◌≡◌, [], IfOk};
ghost use Rattle.sc_stats.specs.Lines.{ranked};

use sc_entry::{CountedText, NoMemory, Text};
use std::alloc::Global;
use std::cmp::Reverse;
use std::collections::BTreeMap;

/// Where a count is listed: greater counts first, equal ones by name.
#[derive(PartialEq, Eq, PartialOrd, Ord, Drop)]
pub struct Rank {
    pub falling: Reverse<u64>,
    pub name: Text,
}

/// Counts in the order in which they are listed.
pub(crate) fn ranked(alloc: Global, texts: &[CountedText]) -> Result<BTreeMap<Rank, ()>, NoMemory>
    ensures { IfOk result (λ ranks. ranks.entries ≡ ranked texts.now []) }
{
    let mut ranks = BTreeMap::new(alloc);
    for text in texts {
        let rank = Rank {
            falling: Reverse(text.count),
            name: text.text.try_clone()?,
        };
        ranks.insert(rank, ())?;
    }
    Ok(ranks)
}
