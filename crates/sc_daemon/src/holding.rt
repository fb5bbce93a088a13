//! A daemon as what one action of a request works on: its parts are asked, and what comes of it is counted.
ghost use Rattle.std.specs.Prelude.{◌≡◌, ◌+◌, ◌++◌, ℕ, Bool, List, length, IfOk, OnOk};
ghost use Rattle.sc_daemon.specs.Backlogs.{fresh_writes};
ghost use Rattle.sc_daemon_hold.specs.Holding.{filled_of};
ghost use Rattle.sc_daemon_job.specs.LevelRows.{counted_in, origin_of};
ghost use Rattle.sc_model.specs.Machine.{counters_at as counters_in};
ghost use Rattle.sc_model.specs.Pendings.{pend};
ghost use Rattle.sc_model.specs.Rows.{level_row, zeroes};
ghost use Rattle.sc_model.specs.Trace.{numbered};
ghost use Rattle.sc_model.specs.declared.event.What.TheVariants.{Began as BeganEvent, Filled as FilledEvent, Reserved as ReservedEvent};
ghost use Rattle.sc_model.specs.declared.event.Told.{Told as ToldThen};
ghost use Rattle.sc_store_disk.specs.Moving.{written_of};

use crate::daemon::Daemon;
use sc_daemon_hold::{Hold, Keying, LevelSize, Lookup, PutEnd};
use sc_daemon_job::{
    Origin, Since, asked_row, count_level, refused_row, row_of_began, row_of_keyed, row_of_parsed,
    row_of_verdict, row_of_write, written_row, wrote_row,
};
use sc_daemon_owned::Parts;
use sc_disk::LruDiskCacheAddEntry;
use sc_entry::{ByteText, CacheMode, FileObjectSource, Items, NoMemory, Queue, Text};
use sc_model::{
    Bytes, Compile, DistAnswer, Handed, LevelKind, Mode, Parsed, Placing, Refusal, Request,
    RunAnswer, Task, Told, Verdict, Written,
};
use sc_stats::{DistInfo, LevelStats, ServerStats};
use sc_store_disk::{Filling, Reservation};
use std::alloc::Global;

/// Whether all counts start anew as a request begins.
fn starts_anew(request: &Request) -> bool
    ensures { (told : ToldThen) → result ≡ zeroes (BeganEvent request.now told) }
{
    matches!(request, Request::ZeroStats)
}

/// What a reservation counts.
fn reserved_row(alloc: Global, origin: Origin, how: &Reservation) -> LevelStats
    ensures { (l n : ℕ) (k : List ℕ) (last since moment : ℕ) → result ≡ level_row (origin_of origin) last since moment (ReservedEvent l k n (written_of how.now)) }
{
    match how {
        Reservation::Open(_) => LevelStats::new(alloc),
        Reservation::Refused(_) => refused_row(alloc, origin),
    }
}

/// What a fill counts.
fn filled_row(alloc: Global, origin: Origin, how: &Filling) -> LevelStats
    ensures { (l : ℕ) (k b : List ℕ) (mark : Bool) (last since moment : ℕ) → result ≡ level_row (origin_of origin) last since moment (FilledEvent l k b mark (filled_of how.now)) }
{
    match how {
        Filling::Filled(_) => LevelStats::new(alloc),
        Filling::Refused(_) => refused_row(alloc, origin),
    }
}

impl<P: Parts> Hold for Daemon<P> {
    ghost use Rattle.std.specs.Prelude.{Some, refl};
    ghost use Rattle.sc_daemon.specs.Moving.{KeptMoves};
    ghost use Rattle.sc_daemon_owned.specs.Facts.{config_of};
    ghost use Rattle.sc_daemon_owned.specs.Laws.{planned_levels, pre_planned_levels, reserves_rooms, still_rooms, tells_same};
    ghost use Rattle.sc_daemon_owned.specs.State.{disk_at};

    ghost config = { λ d. config_of d.state.config };

    ghost moves = { λ old n what new. KeptMoves old n what new };

    ghost moment = { λ d. d.state.world.moment };

    ghost rooms = { λ d. Some (disk_at d.state) };

    ghost still = { λ a n what b moves none level. still_rooms a.state n.need what b.state moves.moves none level };

    ghost tells = { λ a n what b moves level. tells_same a.state n.need what b.state moves.moves level };

    ghost reserves = { λ a n what b moves. reserves_rooms a.state n.need what b.state moves.moves };

    ghost spells = { λ d. refl };

    ghost planned = { λ d. planned_levels d.state };

    ghost pre_planned = { λ d. pre_planned_levels d.state };

    fn now(&self) -> u64 {
        self.owned.now()
    }

    fn limit(&self) -> u32 {
        self.owned.limit()
    }

    fn level_count(&self) -> u64 {
        self.owned.level_count()
    }

    fn plan(&self, alloc: Global) -> Result<Queue<u64>, NoMemory> {
        self.owned.plan(alloc)
    }

    fn is_single(&self) -> bool {
        self.owned.is_single()
    }

    fn location(&self, alloc: Global) -> Result<Text, NoMemory> {
        self.owned.location(alloc)
    }

    fn cache_type_name(&self) -> &str {
        self.owned.cache_type_name()
    }

    fn basedirs(&self, alloc: Global) -> Result<Items<ByteText>, NoMemory> {
        self.owned.basedirs(alloc)
    }

    fn use_preprocessor_cache_mode(&self) -> bool {
        self.owned.use_preprocessor_cache_mode()
    }

    fn max_size(&self) -> Option<u64> {
        self.owned.max_size()
    }

    fn cache_mode(&self) -> CacheMode {
        self.owned.cache_mode()
    }

    fn pretty(&self, alloc: Global, request: &Compile) -> Result<ByteText, NoMemory> {
        self.owned.pretty(alloc, request)
    }

    fn kind(&self, level: u64) -> LevelKind {
        self.owned.kind(level)
    }

    fn pre_plan(&self, alloc: Global) -> Result<Queue<u64>, NoMemory> {
        self.owned.pre_plan(alloc)
    }

    fn has_paths(&self) -> bool {
        self.owned.has_paths()
    }

    fn tick(&mut self) {}

    fn begin(&mut self, alloc: Global, request: &Compile) -> Result<Parsed, NoMemory> {
        let parsed = self.owned.begin(alloc, request)?;
        let row = row_of_parsed(alloc, &parsed)?;
        self.stats.add_assign(&row)?;
        Ok(parsed)
    }

    fn begin_plain(
        &mut self,
        alloc: Global,
        request: &Request,
        told: &Told,
    ) -> Result<(), NoMemory> {
        if starts_anew(request) {
            self.stats = ServerStats::new(alloc);
            return Ok(());
        }
        let row = row_of_began(alloc, request, told)?;
        self.stats.add_assign(&row)
    }

    fn begin_stats(&mut self, alloc: Global, request: &Request) -> Result<ServerStats, NoMemory> {
        let told = self.stats.clone()?;
        self.stats.add_assign(&ServerStats::new(alloc))?;
        Ok(told)
    }

    fn dist_status(&mut self, alloc: Global) -> Result<DistInfo, NoMemory> {
        let info = self.owned.dist_status(alloc)?;
        self.stats.add_assign(&ServerStats::new(alloc))?;
        Ok(info)
    }

    fn key(&mut self, alloc: Global, request: &Compile, first: bool) -> Result<Keying, NoMemory> {
        let keying = self.owned.key(alloc, request, first)?;
        if !first {
            return Ok(keying);
        }
        self.stats.add_assign(&row_of_keyed(alloc))?;
        Ok(keying)
    }

    fn distribute(
        &mut self,
        alloc: Global,
        request: &Compile,
        key: &Text,
        outputs: &[FileObjectSource],
    ) -> Result<DistAnswer, NoMemory> {
        self.owned.distribute(alloc, request, key, outputs)
    }

    fn outcome(&mut self, alloc: Global, verdict: &Verdict, task: Task) -> Result<(), NoMemory> {
        let row = row_of_verdict(alloc, task, verdict)?;
        self.stats.add_assign(&row)?;
        self.owned.end_client(verdict);
        Ok(())
    }

    fn put_end(
        &mut self,
        alloc: Global,
        compiles: bool,
        bytes: &Bytes,
        refusal: Refusal,
        since: Since,
    ) -> Result<PutEnd, NoMemory> {
        let end = self.owned.put_end(alloc, bytes, refusal)?;
        let duration = self.owned.now().saturating_sub(since.outcome);
        let row = row_of_write(alloc, compiles, duration, &end.answer);
        self.stats.add_assign(&row)?;
        self.queue(false, end.handed.as_slice())?;
        Ok(end)
    }

    fn take_token(&mut self) {
        self.free = self.free.saturating_sub(1);
    }

    fn run(
        &mut self,
        alloc: Global,
        request: &Compile,
        key: &Text,
        outputs: &[FileObjectSource],
    ) -> Result<RunAnswer, NoMemory> {
        let Some(free) = self.free.checked_add(1) else {
            return Err(NoMemory);
        };
        let answer = self.owned.run(alloc, request, key, outputs)?;
        self.free = free;
        Ok(answer)
    }

    fn place(
        &mut self,
        alloc: Global,
        key: &Text,
        outputs: &[FileObjectSource],
        entry: &ByteText,
    ) -> Result<Placing, NoMemory> {
        self.owned.place(alloc, key, outputs, entry)
    }

    fn ask(
        &mut self,
        alloc: Global,
        level: u64,
        key: &Text,
        mode: Mode,
        since: Since,
    ) -> Result<Lookup, NoMemory> {
        let lookup = self.owned.ask(alloc, level, key, mode)?;
        let duration = self.owned.now().saturating_sub(since.last);
        let row = asked_row(alloc, level, mode, &lookup.answer, duration);
        self.count(level, &row);
        self.queue(true, lookup.handed.as_slice())?;
        Ok(lookup)
    }

    fn size(&mut self, alloc: Global, level: u64) -> Result<LevelSize, NoMemory> {
        let counters = self.counters_at(alloc, level)?;
        let size = self.owned.size(alloc, level)?;
        self.count(level, &LevelStats::new(alloc));
        Ok(LevelSize { size, counters })
    }

    fn write(
        &mut self,
        alloc: Global,
        level: u64,
        bytes: &Bytes,
        since: Since,
    ) -> Result<Written, NoMemory> {
        let written = self.owned.write(alloc, level, bytes)?;
        let now = self.owned.now();
        let row = wrote_row(alloc, since.origin, since.last, now, Mode::Whole, written);
        self.count(level, &row);
        Ok(written)
    }

    fn write_pre(
        &mut self,
        alloc: Global,
        level: u64,
        bytes: &Bytes,
        since: Since,
    ) -> Result<Written, NoMemory> {
        let written = self.owned.write_pre(level, bytes)?;
        let now = self.owned.now();
        let row = wrote_row(alloc, since.origin, since.last, now, Mode::Pre, written);
        self.count(level, &row);
        Ok(written)
    }

    fn reserve(
        &mut self,
        alloc: Global,
        level: u64,
        bytes: &Bytes,
        since: Since,
    ) -> Result<Reservation, NoMemory> {
        let how = self.owned.reserve(level, bytes)?;
        self.count(level, &reserved_row(alloc, since.origin, &how));
        Ok(how)
    }

    fn fill(
        &mut self,
        alloc: Global,
        level: u64,
        entry: LruDiskCacheAddEntry,
        bytes: &Bytes,
        since: Since,
    ) -> Result<Filling, NoMemory> {
        let how = self.owned.fill(level, entry, bytes)?;
        self.count(level, &filled_row(alloc, since.origin, &how));
        Ok(how)
    }

    fn commit(
        &mut self,
        alloc: Global,
        level: u64,
        entry: LruDiskCacheAddEntry,
        bytes: &Bytes,
        since: Since,
    ) -> Result<Written, NoMemory> {
        let written = self.owned.commit(level, entry, bytes)?;
        let duration = self.owned.now().saturating_sub(since.reserved);
        let row = written_row(alloc, since.origin, duration, written);
        self.count(level, &row);
        Ok(written)
    }
}

impl<P: Parts> Daemon<P> {
    /// Adds a row to the counters of a level. A store that stands alone has none.
    fn count(&mut self, level: u64, row: &LevelStats)
        ensures levels { self.new ≡ record self.old { levels = counted_in self.old.state.config.policy level row.now self.old.levels } }
        ensures state { self.new.state ≡ self.old.state }
    {
        let single = self.owned.is_single();
        count_level(&mut self.levels, single, level, row);
    }

    /// What was counted at a level: a store that stands alone tells none.
    fn counters_at(&self, alloc: Global, level: u64) -> Result<Option<LevelStats>, NoMemory>
        ensures { IfOk result (λ counters. counters ≡ counters_in self.now.state.config.policy self.now.levels level) }
    {
        if self.owned.is_single() {
            return Ok(None);
        }
        if level < self.levels.len() as u64 {
            return Ok(Some(self.levels[level as usize].clone()?));
        }
        Ok(Some(LevelStats::new(alloc)))
    }

    /// Queues writes that are handed on now: a hit's, or a put's.
    fn queue(&mut self, backfill: bool, handed: &[Handed]) -> Result<(), NoMemory>
        ensures queued { OnOk result (self.new ≡ record self.old { background = self.old.background ++ fresh_writes (pend (numbered self.old.handed self.old.state.world.moment backfill handed.now)); handed = self.old.handed + length (numbered self.old.handed self.old.state.world.moment backfill handed.now) }) }
        ensures state { OnOk result (self.new.state ≡ self.old.state) }
    {
        let Some(count) = self.handed.checked_add(handed.len() as u64) else {
            return Err(NoMemory);
        };
        let moment = self.owned.now();
        self.background
            .append(self.handed, moment, backfill, handed)?;
        self.handed = count;
        Ok(())
    }
}
