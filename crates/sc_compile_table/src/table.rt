//! A list of values that are found by their keys.
ghost use Rattle.std.specs.Prelude.{◌≡◌, IfOk};
ghost use Rattle.std.specs.Option.{option_copied};
ghost use Rattle.sc_compile_table.specs.Tables.{AreFirsts, first_of};

use crate::keyed::Keyed;
use sc_entry::{ByteText, NoMemory};
use std::alloc::Global;
use std::collections::BTreeMap;
use std::marker::Model;

/// A list of values, in which the first with a key is found at the cost of a logarithm. Contracts see it as its list.
#[derive(Drop)]
pub struct Table<T: Keyed> {
    values: Vec<T>,
    /// Where the first value with each key stands.
    firsts: BTreeMap<ByteText, usize>,
}

impl<T: Keyed> Model for Table<T> {
    ghost use Rattle.std.specs.Prelude.{List};
    ghost use Rattle.sc_compile_table.specs.Tables.{AreFirsts};

    ghost Value = { List T };

    ghost view = { λ t. t.values.items };

    ghost invariant = { λ t. AreFirsts T.key t.values.items t.firsts };
}

/// Where the first value with each key stands. Goes from the end, so that an earlier place takes a later one's.
fn firsts_of<T: Keyed>(alloc: Global, values: &[T]) -> Result<BTreeMap<ByteText, usize>, NoMemory>
    ensures { IfOk result (AreFirsts T.key values.now) }
{
    let mut firsts = BTreeMap::new(alloc);
    let mut place = values.len();
    while place > 0 {
        place -= 1;
        let key = values[place].key().try_clone()?;
        firsts.insert(key, place)?;
    }
    Ok(firsts)
}

impl<T: Keyed + Drop> Table<T> {
    /// A table of these values.
    pub fn new(alloc: Global, values: Vec<T>) -> Result<Table<T>, NoMemory>
        ensures { IfOk result (λ table. table ≡ values.items) }
    {
        let firsts = firsts_of(alloc, values.as_slice())?;
        Ok(Table { values, firsts })
    }

    /// All values, in their order.
    pub fn as_slice(&self) -> &[T]
        ensures { result.now ≡ self.now }
    {
        self.values.as_slice()
    }

    /// The first value with this key.
    pub fn first(&self, key: &ByteText) -> Option<&T>
        ensures { option_copied result ≡ first_of T.key key.now self.now }
    {
        match self.firsts.get(key) {
            None => None,
            Some(place) => Some(&self.values[*place]),
        }
    }
}
