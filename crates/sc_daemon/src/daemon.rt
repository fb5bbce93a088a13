//! A daemon: its state, what it counted, and its tokens.
ghost use Rattle.std.specs.Prelude.{◌≡◌, ◌↔◌, ◌<◌, IsTrue, IfOk, Some};
ghost use Rattle.sc_daemon.specs.Backlogs.{ArePending};
ghost use Rattle.sc_daemon.specs.Daemons.{BacksEvent, IsIdleDaemon, ReadsEvent, ServesEvent, anew, new_daemon, passed};
ghost use Rattle.sc_daemon.specs.Standings.{Rests};
ghost use Rattle.sc_daemon_job.specs.LevelRows.{origin_of};
ghost use Rattle.sc_model.specs.Rows.{by_backfill};
ghost use Rattle.sc_daemon_owned.specs.State.{AreLevelsWithin, disk_at};
ghost use Rattle.sc_daemon_owned.specs.Facts.{config_of};

use crate::backlog::Backlog;
use crate::conn::Conn;
use crate::reading::Reading;
use sc_daemon_hold::Hold;
use sc_daemon_job::{Origin, Since, adds_nothing};
use sc_daemon_owned::{Owned, Parts};
use sc_entry::NoMemory;
use sc_model::{Event, Owner, What};
use sc_stats::{LevelStats, ServerStats};
use std::alloc::Global;
use std::marker::Model;

/// A daemon. Contracts see what it is made of and what its parts hold, what it counted, how many tokens are free, and the
/// writes that were handed on and are not done.
#[derive(Drop)]
pub struct Daemon<P: Parts> {
    pub(crate) owned: Owned<P>,
    pub(crate) stats: ServerStats,
    pub(crate) free: u64,
    pub(crate) levels: Vec<LevelStats>,
    pub(crate) background: Backlog,
    pub(crate) handed: u64,
}

impl<P: Parts> Model for Daemon<P> {
    ghost use Rattle.sc_daemon.specs.Daemons.{Kept, kept_code};

    ghost Value = { Kept };

    ghost coded = { kept_code };

    ghost view = { λ d. record { state = d.owned; stats = d.stats; free = d.free; levels = d.levels.items; background = d.background; handed = d.handed } };
}

/// Whose a handed write is, which was handed on at this moment.
fn handed_origin(backfill: bool, at: u64) -> Origin
    ensures { origin_of result ≡ by_backfill backfill at }
{
    if backfill {
        Origin::Backfill
    } else {
        Origin::FromPut(at)
    }
}

impl<P: Parts> Daemon<P> {
    /// A daemon that has counted nothing yet, whose tokens are all free, and which handed no write on.
    pub fn new(alloc: Global, owned: Owned<P>) -> Result<Daemon<P>, NoMemory>
        ensures { IfOk result (λ daemon. daemon ≡ new_daemon owned) }
    {
        let free = owned.tokens();
        let levels = owned.new_counters(alloc)?;
        Ok(Daemon {
            owned,
            stats: ServerStats::new(alloc),
            free,
            levels,
            background: Backlog::new(alloc),
            handed: 0,
        })
    }

    /// Whether every token is free, each level has its counters, no write that was handed on is left, and nothing is
    /// reserved.
    pub fn is_idle(&self) -> bool
        ensures { IsTrue result ↔ IsIdleDaemon self.now }
    {
        self.free == self.owned.tokens()
            && self.levels.len() == self.owned.levels().len()
            && self.background.is_empty()
            && self.owned.levels().is_unreserved()
    }

    /// What its levels keep: each disk level's files and reservations take at most its capacity.
    pub fn keeps(&self)
        ensures { AreLevelsWithin self.now.state }
    {
        self.owned.keeps();
    }

    /// What it counted of each level: nothing that is told, where a store stands alone.
    pub fn level_stats(&self) -> &[LevelStats]
        ensures { result.now ≡ self.now.levels }
    {
        self.levels.as_slice()
    }

    /// The writes that were handed on and are not done.
    pub fn background(&self) -> &Backlog
        ensures { result.now ≡ self.now.background }
    {
        &self.background
    }

    /// The writes that are handed on from now are numbered from 0.
    pub(crate) fn number_anew(&mut self)
        ensures { self.new ≡ anew self.old }
    {
        self.handed = 0;
    }

    /// What it is made of and what its parts hold.
    pub fn owned(&self) -> &Owned<P>
        ensures { result.now ≡ self.now.state }
    {
        &self.owned
    }

    /// What it counted.
    pub fn stats(&self) -> &ServerStats
        ensures { result.now ≡ self.now.stats }
    {
        &self.stats
    }

    /// How many tokens are free.
    pub fn free(&self) -> u64
        ensures { result ≡ self.now.free }
    {
        self.free
    }

    /// The greatest payload of a frame.
    pub fn limit(&self) -> u32
        ensures { result ≡ self.now.state.config.limit }
    {
        self.owned.limit()
    }

    /// Its clock, in nanoseconds.
    pub fn now(&self) -> u64
        ensures { result ≡ self.now.state.world.moment }
    {
        self.owned.now()
    }

    /// An event of nobody's, at this moment.
    fn event(&self, what: What) -> Event
        ensures { result ≡ record { moment = self.now.state.world.moment; owner = Owner.Nobody; what = what } }
    {
        Event {
            moment: self.now(),
            owner: Owner::Nobody,
            what,
        }
    }

    /// Lets time pass.
    pub(crate) fn pass(&mut self, nanoseconds: u64) -> Event
        ensures daemon { self.new ≡ passed self.old nanoseconds }
        ensures event { result ≡ record { moment = self.new.state.world.moment; owner = Owner.Nobody; what = What.Passed nanoseconds } }
    {
        self.owned.pass(nanoseconds);
        self.event(What::Passed(nanoseconds))
    }

    /// Nothing happens.
    pub(crate) fn idle(&self) -> Event
        ensures { result ≡ record { moment = self.now.state.world.moment; owner = Owner.Nobody; what = What.Idle } }
    {
        self.event(What::Idle)
    }

    /// Reads at most so many bytes of a connection's input.
    pub(crate) fn read(
        &self,
        alloc: Global,
        number: u64,
        conn: &mut Conn,
        input: &[u8],
        count: u64,
    ) -> Result<Event, NoMemory>
        ensures { IfOk result (λ event. ReadsEvent self.now number input.now count event conn.old conn.new) }
    {
        match conn.read(alloc, input, count)? {
            Reading::Nothing => Ok(self.event(What::Idle)),
            Reading::Taken(bytes) => Ok(self.event(What::Taken(number, bytes))),
            Reading::Closed => Ok(self.event(What::Closed(number))),
        }
    }

    /// Does the action that is due at a connection, where one is.
    pub(crate) fn serve(
        &mut self,
        alloc: Global,
        number: u64,
        conn: &mut Conn,
    ) -> Result<Event, NoMemory>
        requires rests { Rests (config_of self.old.state.config) (Some (disk_at self.old.state)) conn.old.phase conn.old.entry conn.old.waiting }
        ensures serves { IfOk result (λ event. ServesEvent number event self.old self.new conn.old conn.new) }
        ensures rests { IfOk result (λ _. Rests (config_of self.old.state.config) (Some (disk_at self.new.state)) conn.new.phase conn.new.entry conn.new.waiting) }
    {
        let at = conn.at();
        let free = self.free;
        adds_nothing(&self.stats);
        match conn.serve(alloc, self, free)? {
            None => Ok(self.event(What::Idle)),
            Some(what) => Ok(Event {
                moment: self.now(),
                owner: Owner::Request(number, at),
                what,
            }),
        }
    }

    /// Does the next event of the handed write at this place among those that are left, where there is one.
    pub(crate) fn back(&mut self, alloc: Global, place: u64) -> Result<Event, NoMemory>
        requires pending { ArePending (config_of self.old.state.config) (Some (disk_at self.old.state)) self.old.background }
        ensures backs { IfOk result (λ event. BacksEvent place event self.old self.new) }
    {
        let Some(write) = self.background.get(place as usize) else {
            return Ok(self.event(What::Idle));
        };
        let owner = Owner::Write(write.number());
        let since = Since {
            origin: handed_origin(write.is_backfill(), write.at()),
            last: 0,
            outcome: 0,
            reserved: write.since(),
        };
        // Lent out for the step, and put back: none is handed on by it.
        let mut backlog = std::mem::replace(&mut self.background, Backlog::new(alloc));
        let what = backlog.advance(alloc, self, place as usize, since);
        self.background = backlog;
        Ok(Event {
            moment: self.now(),
            owner,
            what: what?,
        })
    }
}
