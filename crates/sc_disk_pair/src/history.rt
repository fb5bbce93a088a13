//! What two disks were, each time that one of them was called.
ghost use Rattle.std.specs.Prelude.{◌≡◌, List, [], ◌∷◌};
ghost use Rattle.std.specs.Borrow.{ftrue};

use std::marker::{Model, PhantomData};

/// Two disks after each of their calls, the newest first. Only proofs read it: it takes no memory, and its calls do
/// nothing when they run.
#[derive(Drop)]
pub(crate) struct History<D> {
    of: PhantomData<D>,
    pub(crate) ghost items: { List (D × D) },
}

impl<D> Model for History<D> {
    ghost also_owns = { λ _. ftrue };
}

// It owns nothing.
unsafe impl<D: Send> Send for History<D> {}

impl<D> History<D> {
    pub(crate) fn new() -> History<D>
        ensures { result.items ≡ [] }
    {
        History { of: PhantomData }
    }

    /// The same history, and what the two disks are now.
    pub(crate) fn and(&self, main: &D, pre: &D) -> History<D>
        ensures { result.items ≡ (main.now, pre.now) ∷ self.now.items }
    {
        History { of: PhantomData }
    }
}
