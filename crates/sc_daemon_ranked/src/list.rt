ghost use Rattle.std.specs.Prelude.{◌≡◌, ◌<◌, ◌≤◌, ◌++◌, ◌∷◌, [], ◌↔◌, length, slice_get, IsTrue, IsSome, OnOk, OnErr, OnSome, IfNone, option_copied, Option, Some, None, slice_set};
ghost use Rattle.std.specs.List.{remove};
ghost use Rattle.std.specs.Option.{option_copied_mut};
ghost use Rattle.std.specs.Borrow.{sem};
ghost use Rattle.sc_daemon_ranked.specs.Trees.{items, IsCounted};
ghost use Rattle.sc_daemon_ranked.specs.Shown.{filled};

use crate::tree::Tree;
use std::alloc::{AllocError, Global};
use std::marker::Model;

/// Values in order, which are added at the end, and looked at, changed or taken by their place among those that are
/// left. Contracts see them as a list.
///
/// They are the leaves of a binary tree. A call takes some steps at each of its levels, and moves no value but the one
/// that it is for, that one's neighbour in the tree, and the one that was lent before. The tree has at most as many
/// levels as the binary logarithm, rounded up, of how many values were added since the list was last empty.
/// A value takes the memory of two nodes, which is given back when it is taken.
#[derive(Drop)]
pub struct RankedList<T> {
    alloc: Global,
    cells: Tree<Option<T>>,
    // The value that was lent last stands here, and its cell is empty, until it is put back: a reference goes to a
    // field, since one that is handed up out of a tree gets no proof.
    out: Option<T>,
    // The place of that value.
    place: usize,
}

impl<T> Model for RankedList<T> {
    ghost use Rattle.std.specs.Prelude.{List};

    ghost Value = { List T };

    ghost use Rattle.sc_daemon_ranked.specs.Shown.{shown, IsRanked};

    ghost view = { shown };

    ghost invariant = { IsRanked };
}

impl<T> RankedList<T> {
    /// The empty list, which takes no memory.
    pub fn new(alloc: Global) -> RankedList<T>
        ensures { result ≡ [] }
    {
        RankedList {
            alloc,
            cells: Tree::Empty,
            out: None,
            place: 0,
        }
    }

    /// How many values it has.
    pub fn len(&self) -> usize
        ensures { result ≡ length self.now }
    {
        self.cells.len()
    }

    /// Whether it has none.
    pub fn is_empty(&self) -> bool
        ensures { IsTrue result ↔ (self.now ≡ []) }
    {
        self.len() == 0
    }

    /// The value at this place, if there is one.
    pub fn get(&self, place: usize) -> Option<&T>
        ensures value { option_copied result ≡ slice_get self.now place }
        ensures variant { IsSome result ↔ (place < length self.now) }
    {
        if place >= self.cells.len() {
            return None;
        }
        if place == self.place && self.out.is_some() {
            return self.out.as_ref();
        }
        self.cells.get(place).as_ref()
    }
}

/// Puts a value that was lent back in its cell.
fn put_back<T: Drop>(cells: &mut Tree<Option<T>>, place: usize, out: Option<T>)
    requires counted { IsCounted cells.old }
    requires within { OnSome out (place < length (items cells.old)) }
    ensures counted { IsCounted cells.new }
    ensures items { items cells.new ≡ filled (items cells.old) place out }
{
    if out.is_some() {
        cells.replace(place, out);
    }
}

impl<T: Drop> RankedList<T> {
    ghost use Rattle.sc_daemon_ranked.specs.Lends.{lends_at};

    /// The value at this place, if there is one. What the caller leaves there stands at that place.
    pub fn get_mut(&mut self, place: usize) -> Option<&mut T>
        ensures* writes_back { sem 𝓛 (lends_at T.row self.entry place result) }
        ensures value { option_copied_mut result ≡ slice_get self.old place }
        ensures variant { IsSome result ↔ (place < length self.old) }
    {
        if place >= self.cells.len() {
            return None;
        }
        put_back(&mut self.cells, self.place, self.out.take());
        self.place = place;
        self.out = self.cells.replace(place, None);
        self.out.as_mut()
    }

    /// Adds a value at the end. Where memory runs out, the value is dropped and the list stays.
    pub fn push_back(&mut self, item: T) -> Result<(), AllocError>
        ensures ok { OnOk result (self.new ≡ self.old ++ item ∷ []) }
        ensures err { OnErr result (self.new ≡ self.old) }
    {
        if self.cells.len() == usize::MAX {
            return Err(AllocError);
        }
        let leaf = Box::new(self.alloc, Tree::Leaf(Some(item)))?;
        let spare = Box::new(self.alloc, Tree::Empty)?;
        put_back(&mut self.cells, self.place, self.out.take());
        self.cells.push(spare, leaf);
        Ok(())
    }

    /// Takes the value at this place, if there is one. Those behind it move up a place.
    pub fn remove(&mut self, place: usize) -> Option<T>
        ensures value { result ≡ slice_get self.old place }
        ensures variant { IsSome result ↔ (place < length self.old) }
        ensures some { OnSome result (self.new ≡ remove self.old place) }
        ensures none { IfNone result (self.new ≡ self.old) }
    {
        if place >= self.cells.len() {
            return None;
        }
        put_back(&mut self.cells, self.place, self.out.take());
        self.cells.remove(place)
    }
}
