//! A binary tree of values in order, which grows at its end.
ghost use Rattle.std.specs.Prelude.{◌≡◌, ◌+◌, ◌^◌, ◌<◌, ◌++◌, ◌∷◌, [], length, slice_get, slice_set, Some, IsTrue, ◌↔◌};
ghost use Rattle.std.specs.List.{remove};
ghost use Rattle.sc_daemon_ranked.specs.Trees.{items, IsCounted};

use std::mem;

/// A binary tree of values in order. Its depth is at most its rank. A join of rank `r` was made of a full tree below
/// `r`, and a full tree of rank `r` has had 2^r values added to it at least: so one of rank `r` had more than 2^(r - 1).
#[derive(Drop)]
pub(crate) enum Tree<T> {
    /// No value. It is no side of a join.
    Empty,
    /// One value, a full tree of rank 0.
    Leaf(T),
    Join {
        /// How many values there are.
        count: usize,
        /// It is above the ranks of both sides.
        rank: u32,
        /// Whether the next value goes to a new join above, and not to the right side.
        full: bool,
        left: Box<Tree<T>>,
        right: Box<Tree<T>>,
    },
}

impl<T> Tree<T> {
    /// How many values there are.
    pub(crate) fn len(&self) -> usize
        requires { IsCounted self.now }
        ensures { result ≡ length (items self.now) }
    {
        match self {
            Tree::Empty => 0,
            Tree::Leaf(_) => 1,
            Tree::Join { count, .. } => *count,
        }
    }

    fn rank(&self) -> u32 {
        match self {
            Tree::Join { rank, .. } => *rank,
            _ => 0,
        }
    }

    /// Whether a join of this rank is full with this tree as its right side.
    fn fills(&self, join: u32) -> bool {
        let full = match self {
            Tree::Empty => false,
            Tree::Leaf(_) => true,
            Tree::Join { full, .. } => *full,
        };
        full && self.rank().saturating_add(1) == join
    }

    /// The value at this place.
    pub(crate) fn get(&self, place: usize) -> &T
        requires counted { IsCounted self.now }
        requires within { place < length (items self.now) }
        ensures { slice_get (items self.now) place ≡ Some result.now }
    {
        match self {
            Tree::Empty => unreachable!(),
            Tree::Leaf(item) => item,
            Tree::Join { left, right, .. } => {
                let lefts = left.len();
                if place < lefts {
                    left.get(place)
                } else {
                    right.get(place - lefts)
                }
            }
        }
    }

    /// Puts a value in the place of another, which it gives back.
    pub(crate) fn replace(&mut self, place: usize, item: T) -> T
        requires counted { IsCounted self.old }
        requires within { place < length (items self.old) }
        ensures counted { IsCounted self.new }
        ensures replaced { slice_get (items self.old) place ≡ Some result }
        ensures items { items self.new ≡ slice_set (items self.old) place item }
    {
        match self {
            Tree::Empty => unreachable!(),
            Tree::Leaf(old) => mem::replace(old, item),
            Tree::Join { left, right, .. } => {
                let lefts = left.len();
                if place < lefts {
                    left.replace(place, item)
                } else {
                    right.replace(place - lefts, item)
                }
            }
        }
    }
}

impl<T: Drop> Tree<T> {
    /// The tree becomes the left side of a new join, for which the spare box is, and a leaf its right side.
    fn join(&mut self, mut spare: Box<Tree<T>>, leaf: Box<Tree<T>>)
        requires counted { IsCounted self.old × IsCounted leaf.value }
        requires one { length (items leaf.value) ≡ 1 }
        requires fits { length (items self.old) + 1 < 2 ^ 64 }
        ensures counted { IsCounted self.new }
        ensures items { items self.new ≡ items self.old ++ items leaf.value }
    {
        let count = self.len() + 1;
        let rank = self.rank().saturating_add(1);
        *spare = mem::replace(self, Tree::Empty);
        *self = Tree::Join {
            count,
            rank,
            full: rank == 1,
            left: spare,
            right: leaf,
        };
    }

    /// Adds the value of a leaf at the end. The spare box is for a new join.
    pub(crate) fn push(&mut self, spare: Box<Tree<T>>, leaf: Box<Tree<T>>)
        requires counted { IsCounted self.old × IsCounted leaf.value }
        requires one { length (items leaf.value) ≡ 1 }
        requires fits { length (items self.old) + 1 < 2 ^ 64 }
        ensures counted { IsCounted self.new }
        ensures items { items self.new ≡ items self.old ++ items leaf.value }
    {
        match self {
            Tree::Empty => *self = Box::into_inner(leaf),
            Tree::Leaf(_) => self.join(spare, leaf),
            Tree::Join {
                count,
                rank,
                full,
                right,
                ..
            } => {
                if *full {
                    self.join(spare, leaf);
                } else {
                    let right = &mut **right;
                    *count += 1;
                    right.push(spare, leaf);
                    *full = right.fills(*rank);
                }
            }
        }
    }

    /// Takes the value at this place. Its leaf goes, and so does the join above it.
    pub(crate) fn remove(&mut self, place: usize) -> T
        requires counted { IsCounted self.old }
        requires within { place < length (items self.old) }
        ensures counted { IsCounted self.new }
        ensures removed { slice_get (items self.old) place ≡ Some result }
        ensures items { items self.new ≡ remove (items self.old) place }
    {
        match self {
            Tree::Join {
                count,
                left,
                right,
                ..
            } => {
                let lefts = left.len();
                *count -= 1;
                let item = if place < lefts {
                    left.remove(place)
                } else {
                    right.remove(place - lefts)
                };
                self.close_up();
                item
            }
            Tree::Leaf(_) => {
                let Tree::Leaf(item) = mem::replace(self, Tree::Empty) else {
                    unreachable!()
                };
                item
            }
            Tree::Empty => unreachable!(),
        }
    }

    /// Where a side of a join is empty, the other side takes the join's place.
    fn close_up(&mut self)
        requires counted { IsCounted self.old }
        ensures counted { IsCounted self.new }
        ensures items { items self.new ≡ items self.old }
    {
        let Tree::Join { left, right, .. } = self else {
            return;
        };
        let (left, right) = (&mut **left, &mut **right);
        if left.len() == 0 {
            let rest = mem::replace(right, Tree::Empty);
            *self = rest;
        } else if right.len() == 0 {
            let rest = mem::replace(left, Tree::Empty);
            *self = rest;
        }
    }
}
