ghost use Rattle.std.specs.Prelude.{ℕ, List, [], slice_index};
ghost use Rattle.sc_stats_ledgers.specs.Stakes.{all_parts};

use std::marker::{Brand, PhantomData};
use std::sync::ledger::Ledger;

/// Fifteen ledgers, one for each counter: a type that stands for their names, which are known only at run time.
pub trait Ledgers {
    /// The names, in the order of the fields of `Numbers`.
    ghost names: { List ℕ };
}

impl Ledgers for Brand {
    ghost names = { [] };
}

/// The ledger of the counter at this place among the fields of `Numbers`, from 0 to 14.
#[derive(Drop)]
pub struct Nth<L: Ledgers, const I: u8> {
    of: PhantomData<L>,
}

impl<L: Ledgers, const I: u8> Ledger for Nth<L, I> {
    ghost name = { slice_index L.names I };

    ghost parts = { all_parts };
}
