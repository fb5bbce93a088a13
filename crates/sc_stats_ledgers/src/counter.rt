ghost use Rattle.std.specs.Prelude.{◌≡◌, ◌+◌, ◌<◌};
ghost use Rattle.sc_stats.specs.Sums.{sat};

use std::sync::ledger::{Blank, Book, Ledger, Share};

/// One counter, and the book of its ledger.
#[derive(Drop)]
pub(crate) struct Counter<L: Ledger> {
    pub(crate) number: u64,
    pub(crate) book: Book<L>,
}

impl<L: Ledger> Counter<L> {
    /// A counter that begins at a number, as if the whole share of its ledger had added that.
    pub(crate) fn open(blank: Blank, start: u64) -> (Counter<L>, Share<L>)
        requires name { blank.name ≡ L.name }
        requires parts { blank.parts ≡ L.parts }
        requires some { 0 < L.parts }
        ensures number { result.0.number ≡ start }
        ensures total { result.0.book.total ≡ start }
        ensures parts { result.1.parts ≡ L.parts }
        ensures amount { result.1.amount ≡ start }
    {
        let (mut book, mut share) = blank.open::<L>();
        book.add(&mut share, start);
        (
            Counter {
                number: start,
                book,
            },
            share,
        )
    }

    /// Adds to the counter, which stops at its type's end, and to the book and the share, which don't.
    pub(crate) fn add(&mut self, share: &mut Share<L>, amount: u64)
        requires { 0 < share.old.parts }
        ensures number { self.new.number ≡ sat self.old.number amount }
        ensures total { self.new.book.total ≡ self.old.book.total + amount }
        ensures amount { share.new.amount ≡ share.old.amount + amount }
        ensures parts { share.new.parts ≡ share.old.parts }
    {
        self.book.add(share, amount);
        self.number = self.number.saturating_add(amount);
    }
}
