//! Counts by text, as they travel.
ghost use Rattle.std.specs.Prelude.{◌≡◌, ◌++◌, OnOk, true};
ghost use Rattle.sc_entry.specs.Tally.{entries_of};
ghost use Rattle.sc_wire.specs.Lists.{FitAll, spell_all};
ghost use Rattle.sc_wire.specs.Tallies.{counts, is_text_below, pair, rises};

use crate::error::DecodeError;
use crate::reader::Reader;
use crate::several::put2;
use crate::wire::Wire;
use sc_entry::{Counts, Items, NoMemory, Text};
use std::alloc::Global;
use std::cmp::Ordering;
use std::collections::BTreeMap;

fn is_below(a: &Text, b: &Text) -> bool
    ensures { result ≡ is_text_below a.now b.now }
{
    a.cmp(b) == Ordering::Less
}

fn is_ascending(entries: &[(Text, u64)]) -> bool
    ensures { result ≡ rises entries.now }
{
    let mut rest = entries;
    while let [first, tail @ ..] = rest {
        if let [second, ..] = tail {
            if !is_below(&first.0, &second.0) {
                return false;
            }
        }
        rest = tail;
    }
    true
}

fn put_counts(by_text: &BTreeMap<Text, u64>, out: &mut Vec<u8>) -> Result<(), NoMemory>
    ensures spelled { OnOk result (out.new.items ≡ out.old.items ++ spell_all pair by_text.now.entries) }
    ensures fits { OnOk result (FitAll pair by_text.now.entries) }
{
    for (text, count) in by_text.iter() {
        put2(text, count, out)?;
    }
    Ok(())
}

impl Wire for Counts {
    ghost codec = { counts };

    fn take(alloc: Global, reader: &mut Reader) -> Result<Counts, DecodeError> {
        let entries: Items<(Text, u64)> = Wire::take(alloc, reader)?;
        if !is_ascending(entries.as_slice()) {
            return Err(DecodeError::BadFrame);
        }
        Ok(Counts::from_entries(alloc, entries)?)
    }

    fn put(&self, out: &mut Vec<u8>) -> Result<(), NoMemory> {
        let by_text = self.by_text();
        (by_text.len() as u64).put(out)?;
        put_counts(by_text, out)
    }
}
