//! The writes that were handed on and are not done.
ghost use Rattle.std.specs.Prelude.{◌≡◌, ◌+◌, ◌<◌, ◌≤◌, ◌^◌, ◌++◌, [], true, false, Some, length, IsTrue, ◌↔◌, IfNone, IfOk, IfSome, OnOk};
ghost use Rattle.std.specs.List.{remove};
ghost use Rattle.sc_daemon.specs.Backlogs.{AdvancesAt, ArePending, MarksAt, fresh_writes, write_at};
ghost use Rattle.sc_daemon_job.specs.Askers.{asker};
ghost use Rattle.sc_model.specs.Pendings.{pend};
ghost use Rattle.sc_model.specs.Trace.{numbered};
ghost use Rattle.sc_model.specs.World.{Need};
ghost use Rattle.sc_model.specs.declared.message.Request.{Request as Asks};

use crate::write::{Write, is_end};
use sc_daemon_hold::Hold;
use sc_daemon_job::Since;
use sc_daemon_ranked::RankedList;
use sc_entry::NoMemory;
use sc_model::{Handed, What};
use std::alloc::Global;
use std::marker::Model;

/// The writes that were handed on and are not done, in order. Contracts see them as a list. A call costs a logarithm of how
/// many were handed on since none was left.
#[derive(Drop)]
pub struct Backlog {
    writes: RankedList<Write>,
}

impl Model for Backlog {
    ghost use Rattle.std.specs.Prelude.{List};
    ghost use Rattle.sc_daemon.specs.Backlogs.{Write as Held};

    ghost Value = { List Held };

    ghost view = { λ b. b.writes };
}

/// Drops a write in a call of its own: dropped at the end of a branch it takes the check minutes.
fn discard(write: Option<Write>) {
    drop(write);
}

impl Backlog {
    pub fn new(alloc: Global) -> Backlog
        ensures { result ≡ [] }
    {
        Backlog {
            writes: RankedList::new(alloc),
        }
    }

    pub fn len(&self) -> usize
        ensures { result ≡ length self.now }
    {
        self.writes.len()
    }

    pub fn is_empty(&self) -> bool
        ensures { IsTrue result ↔ (self.now ≡ []) }
    {
        self.writes.is_empty()
    }

    /// The write at this place.
    pub fn get(&self, place: usize) -> Option<&Write>
        ensures some { IfSome result (λ w. write_at place self.now ≡ Some w.now) }
        ensures none { IfNone result (length self.now ≤ place) }
    {
        self.writes.get(place)
    }

    /// Does the next event of the write at this place, which goes where it is done then.
    pub fn advance<H: Hold>(
        &mut self,
        alloc: Global,
        hold: &mut H,
        place: usize,
        since: Since,
    ) -> Result<What, NoMemory>
        requires place { place < length self.old }
        requires pending { ArePending (H.config hold.old) (H.rooms hold.old) self.old }
        ensures advances { IfOk result (λ what. AdvancesAt (H.config hold.old) (H.moment hold.new) (H.rooms hold.old) (H.rooms hold.new) place what self.old self.new) }
        ensures moves { IfOk result (λ what. (n : Need) (r : Asks) → MarksAt place self.old n → H.moves hold.old (asker since n r) what hold.new) }
        ensures same { IfOk result (λ _. H.config hold.new ≡ H.config hold.old) }
    {
        let Some(write) = self.writes.get_mut(place) else {
            unreachable!()
        };
        let what = write.advance(alloc, hold, since)?;
        self.settle(place, is_end(&what));
        Ok(what)
    }

    /// The write at this place goes, where it is done.
    fn settle(&mut self, place: usize, done: bool)
        requires { place < length self.old }
        ensures goes { done ≡ true → self.new ≡ remove self.old place }
        ensures stays { done ≡ false → self.new ≡ self.old }
    {
        if done {
            discard(self.writes.remove(place));
        }
    }

    /// Adds writes that are handed on at this moment, under the numbers from `first` on. Where memory runs out, a front
    /// part of them is added.
    pub(crate) fn append(
        &mut self,
        first: u64,
        moment: u64,
        backfill: bool,
        handed: &[Handed],
    ) -> Result<(), NoMemory>
        requires { first + length handed.now < 2 ^ 64 }
        ensures { OnOk result (self.new ≡ self.old ++ fresh_writes (pend (numbered first moment backfill handed.now))) }
    {
        let mut number = first;
        let mut left = handed;
        while let [write, rest @ ..] = left {
            self.writes
                .push_back(Write::new(number, write, moment, backfill)?)?;
            number += 1;
            left = rest;
        }
        Ok(())
    }
}
