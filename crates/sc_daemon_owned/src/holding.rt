//! What one action of a request asks of the parts of a daemon of one's own.
ghost use Rattle.std.specs.Prelude.{◌≡◌, ◌<◌, ◌&&◌, [], false, not, length, IfOk, None, Option, Some};
ghost use Rattle.sc_store_disk.specs.DiskStores.{entry_path};
ghost use Rattle.sc_store_disk.specs.Entries.{ClosesEntry, FillsBy};
ghost use Rattle.sc_store_disk.specs.Marks.{filled_by};
ghost use Rattle.sc_store_disk.specs.Moving.{OpensBy, written_of as reserved_of};
ghost use Rattle.sc_daemon_hold.specs.Distributing.{GoodDist};
ghost use Rattle.sc_daemon_hold.specs.Holding.{Elsewhere, Holds, IsGood, IsSame, filled_of};
ghost use Rattle.sc_entry.specs.Causes.{IfTold};
ghost use Rattle.sc_daemon_job.specs.Setups.{setup};
ghost use Rattle.sc_model.specs.Collected.{GoodAnswer};
ghost use Rattle.sc_model.specs.Describing.{all_read_only, mode_of};
ghost use Rattle.sc_model.specs.Dues.{kind_at};
ghost use Rattle.sc_model.specs.Plan.{backfills, handed_by, is_none, plan, pre_plan, put_answer};
ghost use Rattle.sc_model.specs.Script.{is_single};
ghost use Rattle.sc_model.specs.World.{Need, keys_of};
ghost use Rattle.sc_model.specs.declared.event.What.{What};
ghost use Rattle.sc_model.specs.declared.event.What.TheVariants.{Asked as AskedEvent, Began, Committed, Dist, Filled, Keyed, Outcome, Placed, Ran, Reserved, Wrote};
ghost use Rattle.sc_model.specs.declared.event.Answer.TheVariants.{Size as SizeIs};
ghost use Rattle.sc_model.specs.declared.event.Task.{Task};
ghost use Rattle.sc_model.specs.declared.event.Told.TheVariants.{Dist as TellsDist};
ghost use Rattle.sc_model.specs.declared.event.Verdict.TheVariants.{Http as HttpError};
ghost use Rattle.sc_model.specs.declared.event.Mode.TheVariants.{Path, Pre, Size as SizeMode, Whole};
ghost use Rattle.sc_stats.specs.declared.counters.LevelStats.{LevelStats};
ghost use Rattle.sc_model.specs.declared.level.LevelKind.TheVariants.{Disk, Remote};
ghost use Rattle.sc_model.specs.declared.message.Request.TheVariants.{Compile as CompileOf, DistStatus};
ghost use Rattle.sc_compile.specs.Tools.{told_key};
ghost use Rattle.sc_daemon_owned.specs.Distributing.{StepsBy};
ghost use Rattle.sc_daemon_owned.specs.Moving.{placing_of, size_in, OwnedMoves};
ghost use Rattle.sc_daemon_owned.specs.Facts.{config_of};
ghost use Rattle.sc_daemon_owned.specs.State.{disk_at};

use crate::missing::first_missing;
use crate::owned::Owned;
use crate::parts::Parts;
use sc_compile::{PlainCompiler, Workshop, begin, key_step};
use sc_compile_dist::ClientAnswer;
use sc_daemon_hold::{Keying, Lookup, PutEnd};
use sc_disk::LruDiskCacheAddEntry;
use sc_entry::{ByteText, CacheMode, FileObjectSource, Items, NoMemory, Queue, Text};
use sc_model::{
    Answer, Bytes, Compile, DistAnswer, KeyStep, LevelKind, Mode, Parsed, Placing, Refusal,
    RunAnswer, Verdict, Written,
};
use sc_stats::DistInfo;
use sc_store_disk::{EntryError, Filling, Reservation};
use std::alloc::Global;

impl<P: Parts> Owned<P> {
    pub fn now(&self) -> u64
        ensures { result ≡ self.now.world.moment }
    {
        self.moment
    }

    /// The greatest payload of a frame.
    pub fn limit(&self) -> u32
        ensures { result ≡ (config_of self.now.config).limit }
    {
        self.limit
    }

    pub fn level_count(&self) -> u64
        ensures { result ≡ length (config_of self.now.config).levels }
    {
        self.levels.len() as u64
    }

    /// The levels that are written before an answer.
    pub fn plan(&self, alloc: Global) -> Result<Queue<u64>, NoMemory>
        ensures { IfOk result (λ levels. levels ≡ plan (config_of self.now.config).policy (config_of self.now.config).levels) }
    {
        let levels = self.levels.plan(alloc)?;
        Ok(levels)
    }

    /// The levels that take a preprocessor entry.
    pub fn pre_plan(&self, alloc: Global) -> Result<Queue<u64>, NoMemory>
        ensures { IfOk result (λ levels. levels ≡ pre_plan (config_of self.now.config).policy (config_of self.now.config).levels) }
    {
        let levels = self.levels.pre_plan(alloc)?;
        Ok(levels)
    }

    /// Whether one store stands alone, and is written by itself.
    pub fn is_single(&self) -> bool
        ensures { result ≡ is_single (config_of self.now.config).policy }
    {
        self.levels.is_single()
    }

    /// Where its store is, in words.
    pub fn location(&self, alloc: Global) -> Result<Text, NoMemory>
        ensures { IfOk result (λ text. text ≡ (config_of self.now.config).store.location) }
    {
        let text = self.levels.location(alloc)?;
        Ok(text)
    }

    /// What type its store has, in a word.
    pub fn cache_type_name(&self) -> &str
        ensures { result.now ≡ (config_of self.now.config).store.type_name }
    {
        self.levels.cache_type_name()
    }

    /// The base directories of its store.
    pub fn basedirs(&self, alloc: Global) -> Result<Items<ByteText>, NoMemory>
        ensures { IfOk result (λ basedirs. basedirs ≡ (config_of self.now.config).store.basedirs) }
    {
        let basedirs = self.levels.basedirs(alloc)?;
        Ok(basedirs)
    }

    /// Whether its store is to keep entries of the preprocessor.
    pub fn use_preprocessor_cache_mode(&self) -> bool
        ensures { result ≡ (config_of self.now.config).store.flag }
    {
        self.levels.use_preprocessor_cache_mode()
    }

    /// The most bytes that its store may take, where that is known.
    pub fn max_size(&self) -> Option<u64>
        ensures { result ≡ (config_of self.now.config).store.max_size }
    {
        self.levels.max_size()
    }

    /// The mode of its store: read-only where there are levels and each is.
    pub fn cache_mode(&self) -> CacheMode
        ensures { result ≡ mode_of (not (is_none (config_of self.now.config).levels) && all_read_only (config_of self.now.config).levels) }
    {
        self.levels.cache_mode()
    }

    /// What a put comes to.
    pub fn put_end(
        &self,
        alloc: Global,
        bytes: &Bytes,
        refusal: Refusal,
    ) -> Result<PutEnd, NoMemory>
        ensures answer { IfOk result (λ end. end.answer ≡ put_answer (config_of self.now.config).policy (config_of self.now.config).levels refusal) }
        ensures handed { IfOk result (λ end. end.handed ≡ handed_by (config_of self.now.config).policy (config_of self.now.config).levels bytes.now refusal) }
    {
        let handed = self.levels.handed(alloc, bytes, refusal)?;
        let answer = self.levels.put_answer(refusal);
        Ok(PutEnd { answer, handed })
    }

    /// What a compile's words are, by the compiler at its path.
    pub fn begin(&self, alloc: Global, request: &Compile) -> Result<Parsed, NoMemory>
        ensures { IfOk result (λ parsed. IfTold ((config_of self.now.config).reads request.now) (λ told. parsed ≡ told)) }
    {
        begin(alloc, &self.finder, request)
    }

    /// What a compile's output is called where a server's refusal of it is told.
    pub fn pretty(&self, alloc: Global, request: &Compile) -> Result<ByteText, NoMemory>
        ensures { IfOk result (λ text. text ≡ (config_of self.now.config).pretty request.now) }
    {
        PlainCompiler::pretty(alloc, request)
    }

    /// The key step of a compile, its first or a later one. It asks for a distributed client first.
    pub fn key(&mut self, alloc: Global, request: &Compile, first: bool) -> Result<Keying, NoMemory>
        ensures moves { IfOk result (λ keying. (n : Need) → n.keys ≡ keys_of (setup (config_of self.old.config)) (CompileOf request.now) → OwnedMoves self.old n (Keyed first keying.client keying.step) self.new) }
        ensures same { IfOk result (λ _. config_of self.new.config ≡ config_of self.old.config) }
    {
        let answer = self.dist.get_client(alloc, self.moment)?;
        let keying = self.keying(alloc, request, answer)?;
        Ok(keying)
    }

    /// Tells where the distributed client stands.
    pub fn dist_status(&mut self, alloc: Global) -> Result<DistInfo, NoMemory>
        ensures moves { IfOk result (λ info. (n : Need) → OwnedMoves self.old n (Began DistStatus (TellsDist info)) self.new) }
        ensures same { IfOk result (λ _. config_of self.new.config ≡ config_of self.old.config) }
    {
        let info = self.dist.get_status(alloc, self.moment)?;
        Ok(info)
    }

    /// Compiles by the distributed client.
    pub fn distribute(
        &mut self,
        alloc: Global,
        request: &Compile,
        key: &Text,
        outputs: &[FileObjectSource],
    ) -> Result<DistAnswer, NoMemory>
        ensures moves { IfOk result (λ answer. (n : Need) → n.key ≡ key.now → n.wanted ≡ outputs.now → OwnedMoves self.old n (Dist answer) self.new) }
        ensures good { IfOk result (λ answer. GoodDist answer) }
        ensures same { IfOk result (λ answer. config_of self.new.config ≡ config_of self.old.config) }
    {
        let command = PlainCompiler::command(alloc, request)?;
        let answer = self.dist.run(alloc, key, &command, outputs)?;
        Ok(answer)
    }

    /// Has the distributed client made anew at its next use: a server refused a job.
    fn reset_state(&mut self)
        ensures moves { (n : Need) (task : Task) → OwnedMoves self.old n (Outcome HttpError task) self.new }
        ensures same { config_of self.new.config ≡ config_of self.old.config }
    {
        self.dist.reset_state(self.moment);
    }

    /// Has the distributed client made anew at its next use, where a server refused the job that comes to this.
    pub fn end_client(&mut self, verdict: &Verdict)
        ensures moves { (n : Need) (task : Task) → OwnedMoves self.old n (Outcome verdict.now task) self.new }
        ensures same { config_of self.new.config ≡ config_of self.old.config }
    {
        match verdict {
            Verdict::Http => self.reset_state(),
            Verdict::Error => {}
            Verdict::CacheHit(_) => {}
            Verdict::CacheMiss(_, _, _) => {}
            Verdict::NotCached(_, _) => {}
            Verdict::NotCacheable(_, _) => {}
            Verdict::CompileFailed(_, _) => {}
            Verdict::ProcessError => {}
            Verdict::Fault => {}
        }
    }

    /// Asks a level; a disk level alone for a path.
    pub fn ask(
        &mut self,
        alloc: Global,
        level: u64,
        key: &Text,
        mode: Mode,
    ) -> Result<Lookup, NoMemory>
        requires level { level < length (config_of self.old.config).levels }
        requires path { mode ≡ Path → kind_at (config_of self.old.config).levels level ≡ Disk }
        ensures moves { IfOk result (λ lookup. (n : Need) → OwnedMoves self.old n (AskedEvent level key.now mode lookup.answer lookup.handed) self.new) }
        ensures handed { IfOk result (λ lookup. lookup.handed ≡ backfills (config_of self.old.config).policy (config_of self.old.config).levels level key.now mode lookup.answer) }
        ensures same { IfOk result (λ lookup. config_of self.new.config ≡ config_of self.old.config) }
    {
        let _count = self.levels.len();
        let answer = self
            .levels
            .ask(alloc, level as usize, key, mode, self.moment)?;
        let handed = self.levels.backfills(alloc, level, key, mode, &answer)?;
        Ok(Lookup { answer, handed })
    }

    /// The bytes that a level holds and has reserved, where that is known. Whatever was counted at the level may be told
    /// beside it.
    pub fn size(&mut self, alloc: Global, level: u64) -> Result<Option<u64>, NoMemory>
        requires { level < length (config_of self.old.config).levels }
        ensures moves { IfOk result (λ size. (n : Need) (counters : Option LevelStats) → OwnedMoves self.old n (AskedEvent level [] SizeMode (SizeIs size counters) []) self.new) }
        ensures same { IfOk result (λ _. config_of self.new.config ≡ config_of self.old.config) }
    {
        let _count = self.levels.len();
        let none = Text::new(alloc);
        let answer = self
            .levels
            .ask(alloc, level as usize, &none, Mode::Size, self.moment)?;
        Ok(size_in(&answer))
    }

    /// Places a hit's outputs.
    pub fn place(
        &mut self,
        alloc: Global,
        key: &Text,
        outputs: &[FileObjectSource],
        entry: &ByteText,
    ) -> Result<Placing, NoMemory>
        ensures moves { IfOk result (λ placing. (n : Need) → n.key ≡ key.now → n.outputs ≡ outputs.now → n.hit ≡ entry.now → OwnedMoves self.old n (Placed placing) self.new) }
        ensures same { IfOk result (λ placing. config_of self.new.config ≡ config_of self.old.config) }
    {
        if let Some(name) = first_missing(alloc, entry, outputs)? {
            let name = name.try_clone()?;
            return Ok(Placing::Missing(name));
        }
        let failed = self.shop.place(alloc, key, outputs, entry)?;
        Ok(placing_of(failed))
    }

    /// Runs a compile.
    pub fn run(
        &mut self,
        alloc: Global,
        request: &Compile,
        key: &Text,
        outputs: &[FileObjectSource],
    ) -> Result<RunAnswer, NoMemory>
        ensures moves { IfOk result (λ answer. (n : Need) → n.key ≡ key.now → n.wanted ≡ outputs.now → OwnedMoves self.old n (Ran answer) self.new) }
        ensures good { IfOk result (λ answer. GoodAnswer answer) }
        ensures same { IfOk result (λ answer. config_of self.new.config ≡ config_of self.old.config) }
    {
        let command = PlainCompiler::command(alloc, request)?;
        let answer = self.shop.run(alloc, key, &command, outputs)?;
        Ok(answer)
    }

    /// Writes an entry at a remote level.
    pub fn write(&mut self, alloc: Global, level: u64, bytes: &Bytes) -> Result<Written, NoMemory>
        requires level { level < length (config_of self.old.config).levels }
        requires remote { kind_at (config_of self.old.config).levels level ≡ Remote }
        ensures moves { IfOk result (λ written. (n : Need) → OwnedMoves self.old n (Wrote level bytes.now.key bytes.now.bytes Whole bytes.now.run written) self.new) }
        ensures same { IfOk result (λ written. config_of self.new.config ≡ config_of self.old.config) }
    {
        let _count = self.levels.len();
        let written = self
            .levels
            .put_step(alloc, level as usize, &bytes.key, &bytes.bytes, bytes.run)?;
        Ok(written)
    }

    /// Puts a preprocessor entry at a level. A remote level keeps none.
    pub fn write_pre(&mut self, level: u64, bytes: &Bytes) -> Result<Written, NoMemory>
        requires level { level < length (config_of self.old.config).levels }
        ensures moves { IfOk result (λ written. (n : Need) → OwnedMoves self.old n (Wrote level bytes.now.key bytes.now.bytes Pre bytes.now.run written) self.new) }
        ensures same { IfOk result (λ written. config_of self.new.config ≡ config_of self.old.config) }
    {
        let _count = self.levels.len();
        let entry = bytes.bytes.as_slice();
        let written = self
            .levels
            .put_pre_step(level as usize, &bytes.key, entry, self.moment)?;
        Ok(written)
    }

    /// What kind of store a level is.
    pub fn kind(&self, level: u64) -> LevelKind
        requires { level < length (config_of self.now.config).levels }
        ensures { result ≡ kind_at (config_of self.now.config).levels level }
    {
        let _count = self.levels.len();
        self.levels.kind(level as usize)
    }

    /// Opens an entry at a disk level, for these bytes under their key.
    pub fn reserve(&mut self, level: u64, bytes: &Bytes) -> Result<Reservation, NoMemory>
        requires level { level < length (config_of self.old.config).levels }
        requires disk { kind_at (config_of self.old.config).levels level ≡ Disk }
        ensures moves { IfOk result (λ how. (n : Need) → OwnedMoves self.old n (Reserved level bytes.now.key (length bytes.now.bytes) (reserved_of how)) self.new) }
        ensures opens { IfOk result (λ how. OpensBy (entry_path bytes.now.key) (length bytes.now.bytes) how (disk_at self.old level) (disk_at self.new level)) }
        ensures good { IfOk result (λ how. IsGood how bytes.now.key) }
        ensures elsewhere { IfOk result (λ _. Elsewhere level (disk_at self.old) (disk_at self.new)) }
        ensures same { IfOk result (λ _. config_of self.new.config ≡ config_of self.old.config) }
    {
        let _count = self.levels.len();
        let size = bytes.bytes.len() as u64;
        let how = self
            .levels
            .reserve(level as usize, &bytes.key, size, self.moment)?;
        Ok(how)
    }

    /// Fills an open entry of a disk level with these bytes. A refusal closes it.
    pub fn fill(
        &mut self,
        level: u64,
        entry: LruDiskCacheAddEntry,
        bytes: &Bytes,
    ) -> Result<Filling, NoMemory>
        requires level { level < length (config_of self.old.config).levels }
        requires disk { kind_at (config_of self.old.config).levels level ≡ Disk }
        requires holds { Holds (Some (disk_at self.old)) level entry bytes.now [] None }
        ensures moves { IfOk result (λ how. (n : Need) → OwnedMoves self.old n (Filled level bytes.now.key bytes.now.bytes bytes.now.run (filled_of how)) self.new) }
        ensures entry { IfOk result (λ how. IsSame entry how) }
        ensures fills { IfOk result (λ how. FillsBy entry bytes.now.bytes (filled_by bytes.now.run) how (disk_at self.old level) (disk_at self.new level)) }
        ensures elsewhere { IfOk result (λ _. Elsewhere level (disk_at self.old) (disk_at self.new)) }
        ensures same { IfOk result (λ _. config_of self.new.config ≡ config_of self.old.config) }
    {
        let _count = self.levels.len();
        let entry_bytes = bytes.bytes.as_slice();
        let how = match self
            .levels
            .fill(level as usize, entry, entry_bytes, bytes.run)
        {
            Ok(how) => how,
            Err(EntryError::NoMemory) => return Err(NoMemory),
            Err(EntryError::NotOpen) => unreachable!(),
        };
        Ok(how)
    }

    /// Puts an open entry of a disk level, which was filled with these bytes and nothing else, in its key's place. It is closed
    /// then, also by a refusal.
    pub fn commit(
        &mut self,
        level: u64,
        entry: LruDiskCacheAddEntry,
        bytes: &Bytes,
    ) -> Result<Written, NoMemory>
        requires level { level < length (config_of self.old.config).levels }
        requires disk { kind_at (config_of self.old.config).levels level ≡ Disk }
        requires holds { Holds (Some (disk_at self.old)) level entry bytes.now bytes.now.bytes (Some bytes.now.run) }
        ensures moves { IfOk result (λ how. (n : Need) → n.mark ≡ bytes.now.run → OwnedMoves self.old n (Committed level bytes.now.key bytes.now.bytes how) self.new) }
        ensures closes { IfOk result (λ _. ClosesEntry entry.number (disk_at self.old level) (disk_at self.new level)) }
        ensures elsewhere { IfOk result (λ _. Elsewhere level (disk_at self.old) (disk_at self.new)) }
        ensures same { IfOk result (λ _. config_of self.new.config ≡ config_of self.old.config) }
    {
        let _count = self.levels.len();
        let how = match self.levels.commit(level as usize, entry, self.moment) {
            Ok(how) => how,
            Err(EntryError::NoMemory) => return Err(NoMemory),
            Err(EntryError::NotOpen) => unreachable!(),
        };
        Ok(how)
    }
}

impl<P: Parts> Owned<P> {
    /// A compile's key step, by what a request for a distributed client got.
    fn keying(
        &self,
        alloc: Global,
        request: &Compile,
        answer: ClientAnswer,
    ) -> Result<Keying, NoMemory>
        ensures { IfOk result (λ keying. StepsBy (told_key self.now.config.keys request.now) answer keying.client keying.step) }
    {
        match answer {
            ClientAnswer::Failed(text) => {
                let mut chain = Items::new(alloc);
                chain.push(text)?;
                Ok(Keying {
                    client: false,
                    step: KeyStep::Fault(chain),
                })
            }
            ClientAnswer::Ready => self.stepped(alloc, request, true),
            ClientAnswer::NoClient => self.stepped(alloc, request, false),
        }
    }

    /// A compile's key step, as its compiler answers it.
    fn stepped(&self, alloc: Global, request: &Compile, client: bool) -> Result<Keying, NoMemory>
        ensures client { IfOk result (λ keying. keying.client ≡ client) }
        ensures step { IfOk result (λ keying. IfTold (told_key self.now.config.keys request.now) (λ told. keying.step ≡ told)) }
    {
        let step = key_step(alloc, &self.finder, request)?;
        Ok(Keying { client, step })
    }
}

/// The size that an answer tells.
fn size_in(answer: &Answer) -> Option<u64>
    ensures { result ≡ size_in answer.now }
{
    match answer {
        Answer::Size(size, _) => *size,
        _ => None,
    }
}

/// What a workshop's placing comes to.
fn placing_of(failed: Option<Items<Text>>) -> Placing
    ensures { result ≡ placing_of failed }
{
    match failed {
        None => Placing::Done,
        Some(chain) => Placing::Fault(chain),
    }
}
