//! A write that was handed on and is not done.
ghost use Rattle.std.specs.Prelude.{◌≡◌, ◌<◌, false, None, Some, IfOk};
ghost use Rattle.sc_daemon.specs.Backlogs.{Advances, Goes, IsPending, MarksAs};
ghost use Rattle.sc_daemon_job.specs.Askers.{asker};
ghost use Rattle.sc_model.specs.Conns.{reserved_after};
ghost use Rattle.sc_model.specs.Pendings.{stage_after};
ghost use Rattle.sc_model.specs.Dues.{kind_at};
ghost use Rattle.sc_model.specs.Trace.{ends_write};
ghost use Rattle.sc_model.specs.World.{Need};
ghost use Rattle.sc_model.specs.declared.message.Request.{Request as Asks};
ghost use Rattle.sc_model.specs.declared.level.LevelKind.TheVariants.{Disk, Remote};
ghost use Rattle.sc_model.specs.declared.phase.Stage.TheVariants.{Filled as IsFilled, Fresh, Reserved as IsReserved};

use sc_daemon_action::{commit_entry, fill_entry, open_entry};
use sc_daemon_hold::Hold;
use sc_daemon_job::Since;
use sc_disk::LruDiskCacheAddEntry;
use sc_entry::NoMemory;
use sc_model::{Bytes, Handed, LevelKind, Mode, Stage, What, Written};
use std::alloc::Global;
use std::marker::Model;

/// A write that was handed on and is not done. Contracts see how far it is, and the entry of a disk level that it holds.
#[derive(Drop)]
pub struct Write {
    number: u64,
    level: u64,
    bytes: Bytes,
    at: u64,
    backfill: bool,
    stage: Stage,
    since: u64,
    entry: Option<LruDiskCacheAddEntry>,
}

impl Model for Write {
    ghost use Rattle.sc_daemon.specs.Backlogs.{Write as Held, write_code};

    ghost Value = { Held };

    ghost coded = { write_code };

    ghost view = { λ w. record {
      pending = record {
        number = w.number;
        handed = record { level = w.level; key = w.bytes.key; bytes = w.bytes.bytes; marked = w.bytes.run };
        at = w.at;
        backfill = w.backfill;
        stage = w.stage;
        since = w.since;
      };
      entry = w.entry;
    } };
}

/// Whether an event ends a handed write.
pub fn is_end(what: &What) -> bool
    ensures { result ≡ ends_write what.now }
{
    match what {
        What::Reserved(_, _, _, Written::Refused(_)) => true,
        What::Filled(_, _, _, _, Written::Refused(_)) => true,
        What::Committed(_, _, _, _) => true,
        What::Wrote(_, _, _, _, _, _) => true,
        _ => false,
    }
}

/// How far a write is, once this event of it is done.
fn stage_after(stage: Stage, what: &What) -> Stage
    ensures { result ≡ stage_after stage what.now }
{
    match what {
        What::Reserved(_, _, _, Written::Done) => Stage::Reserved,
        What::Filled(_, _, _, _, Written::Done) => Stage::Filled,
        _ => stage,
    }
}

/// The moment of a write's reservation, once this event of it is done at this moment.
fn since_after(since: u64, moment: u64, what: &What) -> u64
    ensures { result ≡ reserved_after since moment what.now }
{
    match what {
        What::Reserved(_, _, _, Written::Done) => moment,
        _ => since,
    }
}

impl Write {
    /// A write that is handed on at this moment.
    pub fn new(number: u64, handed: &Handed, at: u64, backfill: bool) -> Result<Write, NoMemory>
        ensures pending { IfOk result (λ w. w.pending ≡ record { number = number; handed = handed.now; at = at; backfill = backfill; stage = Fresh; since = 0 }) }
        ensures entry { IfOk result (λ w. w.entry ≡ None) }
    {
        Ok(Write {
            number,
            level: handed.level,
            bytes: Bytes {
                key: handed.key.try_clone()?,
                bytes: handed.bytes.try_clone()?,
                run: handed.marked,
            },
            at,
            backfill,
            stage: Stage::Fresh,
            since: 0,
            entry: None,
        })
    }

    /// Its number among all that were handed on.
    pub fn number(&self) -> u64
        ensures { result ≡ self.now.pending.number }
    {
        self.number
    }

    /// The moment at which it was handed on.
    pub fn at(&self) -> u64
        ensures { result ≡ self.now.pending.at }
    {
        self.at
    }

    /// Whether a lookup's hit handed it on.
    pub fn is_backfill(&self) -> bool
        ensures { result ≡ self.now.pending.backfill }
    {
        self.backfill
    }

    /// The moment of its reservation.
    pub fn since(&self) -> u64
        ensures { result ≡ self.now.pending.since }
    {
        self.since
    }

    /// The level, key and bytes that it was handed on with.
    pub fn handed(&self) -> Result<Handed, NoMemory>
        ensures { IfOk result (λ handed. handed ≡ self.now.pending.handed) }
    {
        Ok(Handed {
            level: self.level,
            key: self.bytes.key.try_clone()?,
            bytes: self.bytes.bytes.try_clone()?,
            marked: self.bytes.run,
        })
    }

    /// Opens an entry at its disk level.
    fn open<H: Hold>(&mut self, alloc: Global, hold: &mut H, since: Since) -> Result<What, NoMemory>
        requires pending { IsPending (H.config hold.old) (H.rooms hold.old) self.old }
        requires fresh { self.old.pending.stage ≡ Fresh }
        requires disk { kind_at (H.config hold.old).levels self.old.pending.handed.level ≡ Disk }
        ensures goes { IfOk result (λ what. Goes (H.config hold.old) (H.rooms hold.old) (H.rooms hold.new) what self.old self.new) }
        ensures moves { IfOk result (λ what. (n : Need) (r : Asks) → H.moves hold.old (asker since n r) what hold.new) }
        ensures same { IfOk result (λ _. H.config hold.new ≡ H.config hold.old) }
    {
        let action = open_entry(alloc, hold, self.level, &self.bytes, since)?;
        self.entry = action.entry;
        Ok(action.what)
    }

    /// Writes at its remote level.
    fn put<H: Hold>(&mut self, alloc: Global, hold: &mut H, since: Since) -> Result<What, NoMemory>
        requires pending { IsPending (H.config hold.old) (H.rooms hold.old) self.old }
        requires fresh { self.old.pending.stage ≡ Fresh }
        requires remote { kind_at (H.config hold.old).levels self.old.pending.handed.level ≡ Remote }
        ensures goes { IfOk result (λ what. Goes (H.config hold.old) (H.rooms hold.old) (H.rooms hold.new) what self.old self.new) }
        ensures moves { IfOk result (λ what. (n : Need) (r : Asks) → H.moves hold.old (asker since n r) what hold.new) }
        ensures same { IfOk result (λ _. H.config hold.new ≡ H.config hold.old) }
    {
        let key = self.bytes.key.try_clone()?;
        let bytes = self.bytes.bytes.try_clone()?;
        let written = hold.write(alloc, self.level, &self.bytes, since)?;
        Ok(What::Wrote(self.level, key, bytes, Mode::Whole, self.bytes.run, written))
    }

    /// Fills the entry that it holds.
    fn fill<H: Hold>(&mut self, alloc: Global, hold: &mut H, since: Since) -> Result<What, NoMemory>
        requires pending { IsPending (H.config hold.old) (H.rooms hold.old) self.old }
        requires reserved { self.old.pending.stage ≡ IsReserved }
        ensures goes { IfOk result (λ what. Goes (H.config hold.old) (H.rooms hold.old) (H.rooms hold.new) what self.old self.new) }
        ensures moves { IfOk result (λ what. (n : Need) (r : Asks) → H.moves hold.old (asker since n r) what hold.new) }
        ensures same { IfOk result (λ _. H.config hold.new ≡ H.config hold.old) }
    {
        let Some(held) = self.entry.take() else {
            unreachable!()
        };
        let action = fill_entry(alloc, hold, self.level, held, &self.bytes, since)?;
        self.entry = action.entry;
        Ok(action.what)
    }

    /// Commits the entry that it holds.
    fn commit<H: Hold>(
        &mut self,
        alloc: Global,
        hold: &mut H,
        since: Since,
    ) -> Result<What, NoMemory>
        requires pending { IsPending (H.config hold.old) (H.rooms hold.old) self.old }
        requires filled { self.old.pending.stage ≡ IsFilled }
        ensures goes { IfOk result (λ what. Goes (H.config hold.old) (H.rooms hold.old) (H.rooms hold.new) what self.old self.new) }
        ensures moves { IfOk result (λ what. (n : Need) (r : Asks) → MarksAs n self.old.pending → H.moves hold.old (asker since n r) what hold.new) }
        ensures same { IfOk result (λ _. H.config hold.new ≡ H.config hold.old) }
    {
        let Some(held) = self.entry.take() else {
            unreachable!()
        };
        let action = commit_entry(alloc, hold, self.level, held, &self.bytes, since)?;
        Ok(action.what)
    }

    /// Does its next event, with the entry that it holds.
    fn act<H: Hold>(&mut self, alloc: Global, hold: &mut H, since: Since) -> Result<What, NoMemory>
        requires pending { IsPending (H.config hold.old) (H.rooms hold.old) self.old }
        ensures goes { IfOk result (λ what. Goes (H.config hold.old) (H.rooms hold.old) (H.rooms hold.new) what self.old self.new) }
        ensures moves { IfOk result (λ what. (n : Need) (r : Asks) → MarksAs n self.old.pending → H.moves hold.old (asker since n r) what hold.new) }
        ensures same { IfOk result (λ _. H.config hold.new ≡ H.config hold.old) }
    {
        match self.stage {
            Stage::Fresh => match hold.kind(self.level) {
                LevelKind::Disk => self.open(alloc, hold, since),
                LevelKind::Remote => self.put(alloc, hold, since),
            },
            Stage::Reserved => self.fill(alloc, hold, since),
            Stage::Filled => self.commit(alloc, hold, since),
        }
    }

    /// Does its next event.
    pub fn advance<H: Hold>(
        &mut self,
        alloc: Global,
        hold: &mut H,
        since: Since,
    ) -> Result<What, NoMemory>
        requires { IsPending (H.config hold.old) (H.rooms hold.old) self.old }
        ensures advances { IfOk result (λ what. Advances (H.config hold.old) (H.moment hold.new) (H.rooms hold.old) (H.rooms hold.new) what self.old self.new) }
        ensures moves { IfOk result (λ what. (n : Need) (r : Asks) → MarksAs n self.old.pending → H.moves hold.old (asker since n r) what hold.new) }
        ensures same { IfOk result (λ _. H.config hold.new ≡ H.config hold.old) }
    {
        let what = self.act(alloc, hold, since)?;
        let now = hold.now();
        self.stage = stage_after(self.stage, &what);
        self.since = since_after(self.since, now, &what);
        Ok(what)
    }
}
