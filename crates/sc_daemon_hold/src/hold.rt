ghost use Rattle.std.specs.Prelude.{◌≡◌, ◌≢◌, ◌<◌, ◌&&◌, ℕ, not, [], length, IfOk, None, OnOk, Option, Some};
ghost use Rattle.sc_model.specs.There.{AreLevels};
ghost use Rattle.sc_store_disk.specs.DiskStores.{entry_path};
ghost use Rattle.sc_store_disk.specs.Entries.{ClosesEntry, FillsBy};
ghost use Rattle.sc_store_disk.specs.Marks.{filled_by};
ghost use Rattle.sc_store_disk.specs.Moving.{OpensBy, written_of as reserved_of};
ghost use Rattle.sc_daemon_hold.specs.Distributing.{GoodDist};
ghost use Rattle.sc_daemon_hold.specs.Holding.{AtLevel, Holds, IsGood, IsSame, OpensNone, ReservesBy, Rooms, SameRoom, filled_of};
ghost use Rattle.sc_daemon_hold.specs.Beginning.{IsPlainTold, IsTick, TellsStatistics};
ghost use Rattle.sc_entry.specs.Causes.{IfTold, Told as Changes};
ghost use Rattle.sc_daemon_job.specs.Askers.{Asker, asker, is_compile};
ghost use Rattle.sc_daemon_job.specs.Setups.{Config, setup};
ghost use Rattle.sc_model.specs.Collected.{GoodAnswer};
ghost use Rattle.sc_model.specs.Describing.{all_read_only, mode_of};
ghost use Rattle.sc_model.specs.Dues.{is_disk_alone, kind_at};
ghost use Rattle.sc_model.specs.Plan.{backfills, handed_by, is_none, plan, pre_plan, put_answer};
ghost use Rattle.sc_model.specs.Script.{is_single};
ghost use Rattle.sc_model.specs.World.{Need, keys_of};
ghost use Rattle.sc_model.specs.declared.event.What.{What};
ghost use Rattle.sc_model.specs.declared.event.What.TheVariants.{Asked as AskedEvent, Began, Committed, Dist, Filled, Keyed, Outcome, Placed, Ran, Reserved, TokenTaken, WriteEnded, Wrote};
ghost use Rattle.sc_model.specs.declared.event.Answer.TheVariants.{Size as SizeIs};
ghost use Rattle.sc_model.specs.declared.event.Told.TheVariants.{Compile as TellsCompile, Dist as TellsDist, Stats as TellsStats};
ghost use Rattle.sc_model.specs.declared.event.Mode.TheVariants.{Path, Pre, Size as SizeMode, Whole};
ghost use Rattle.sc_wire.specs.Responses.{payload};
ghost use Rattle.sc_model.specs.declared.level.LevelKind.TheVariants.{Disk, Remote};
ghost use Rattle.sc_model.specs.declared.message.Request.{Request as Asks};
ghost use Rattle.sc_model.specs.declared.message.Request.TheVariants.{Compile as CompileOf, DistStatus};

use sc_daemon_job::Since;
use sc_disk::LruDiskCacheAddEntry;
use sc_entry::{ByteText, CacheMode, FileObjectSource, Items, NoMemory, Queue, Text};
use sc_model::{
    Answer, Bytes, Compile, DistAnswer, Handed, KeyStep, LevelKind, Mode, Parsed, Placing, Put,
    Refusal, Request, RunAnswer, Task, Told, Verdict, Written,
};
use sc_stats::{DistInfo, LevelStats, ServerStats};
use sc_store_disk::{Filling, Reservation};
use std::alloc::Global;

/// A lookup's answer at one level, and the writes that it hands on.
#[derive(Drop)]
pub struct Lookup {
    pub answer: Answer,
    pub handed: Items<Handed>,
}

/// A put's answer, and the writes that it hands on.
#[derive(Drop)]
pub struct PutEnd {
    pub answer: Put,
    pub handed: Items<Handed>,
}

/// A key step's answer, and whether the job has a distributed client.
#[derive(Drop)]
pub struct Keying {
    pub client: bool,
    pub step: KeyStep,
}

/// The bytes that a level holds and has reserved, and what was counted there, as far as they are told.
#[derive(Drop)]
pub struct LevelSize {
    pub size: Option<u64>,
    pub counters: Option<LevelStats>,
}

/// What one action of a request works on: a daemon of one's own, or one behind locks.
pub trait Hold {
    /// What the daemon is made of. No action changes it.
    ghost config: { Self → Config };

    /// How the hold moves by an event that takes this from its owner. What the event counts is counted.
    ghost moves: { Self → Asker → What → Self → Type 0 };

    /// What its clock told as its last action ended.
    ghost moment: { Self → ℕ };

    /// The levels as disk stores, what is open there, where nobody else moves them.
    ghost rooms: { Self → Option Rooms };

    fn now(&self) -> u64
        ensures { result ≡ moment self.now };

    /// The greatest payload of a frame.
    fn limit(&self) -> u32
        ensures { result ≡ (config self.now).limit };

    fn level_count(&self) -> u64
        ensures { result ≡ length (config self.now).levels };

    /// Whether one store stands alone, and is written by itself.
    fn is_single(&self) -> bool
        ensures { result ≡ is_single (config self.now).policy };

    /// Where its store is, in words.
    fn location(&self, alloc: Global) -> Result<Text, NoMemory>
        ensures { IfOk result (λ text. text ≡ (config self.now).store.location) };

    /// What type its store has, in a word.
    fn cache_type_name(&self) -> &str
        ensures { result.now ≡ (config self.now).store.type_name };

    /// The base directories of its store.
    fn basedirs(&self, alloc: Global) -> Result<Items<ByteText>, NoMemory>
        ensures { IfOk result (λ basedirs. basedirs ≡ (config self.now).store.basedirs) };

    /// Whether its store is to keep entries of the preprocessor.
    fn use_preprocessor_cache_mode(&self) -> bool
        ensures { result ≡ (config self.now).store.flag };

    /// The most bytes that its store may take, where that is known.
    fn max_size(&self) -> Option<u64>
        ensures { result ≡ (config self.now).store.max_size };

    /// The mode of its store: read-only where there are levels and each is.
    fn cache_mode(&self) -> CacheMode
        ensures { result ≡ mode_of (not (is_none (config self.now).levels) && all_read_only (config self.now).levels) };

    /// What a compile's output is called where a server's refusal of it is told.
    fn pretty(&self, alloc: Global, request: &Compile) -> Result<ByteText, NoMemory>
        ensures { IfOk result (λ text. text ≡ (config self.now).pretty request.now) };

    /// The levels that are written before an answer.
    fn plan(&self, alloc: Global) -> Result<Queue<u64>, NoMemory>
        ensures { IfOk result (λ levels. levels ≡ plan (config self.now).policy (config self.now).levels) };

    /// The levels that take a preprocessor entry.
    fn pre_plan(&self, alloc: Global) -> Result<Queue<u64>, NoMemory>
        ensures { IfOk result (λ levels. levels ≡ pre_plan (config self.now).policy (config self.now).levels) };

    /// Whether it tells paths of entries: its one store is a disk store that is not only read.
    fn has_paths(&self) -> bool
        ensures { result ≡ is_disk_alone (config self.now).policy (config self.now).levels };

    /// The end of an action that calls nothing.
    fn tick(&mut self)
        ensures moves { (n : Asker) (what : What) → IsTick what → moves self.old n what self.new }
        ensures same { config self.new ≡ config self.old };

    /// What a compile's words are, by the compiler at its path.
    fn begin(&mut self, alloc: Global, request: &Compile) -> Result<Parsed, NoMemory>
        ensures moves { IfOk result (λ parsed. (n : Asker) → n.request ≡ CompileOf request.now → moves self.old n (Began (CompileOf request.now) (TellsCompile parsed)) self.new) }
        ensures told { IfOk result (λ parsed. IfTold ((config self.old).reads request.now) (λ told. parsed ≡ told)) }
        ensures same { IfOk result (λ _. config self.new ≡ config self.old) };

    /// Begins a request whose answer stands fast before it: one that tells neither statistics nor a distributed client.
    fn begin_plain(&mut self, alloc: Global, request: &Request, told: &Told) -> Result<(), NoMemory>
        requires plain { IsPlainTold told.now }
        ensures moves { OnOk result ((n : Asker) → n.request ≡ request.now → moves self.old n (Began request.now told.now) self.new) }
        ensures same { OnOk result (config self.new ≡ config self.old) };

    /// Tells the statistics as they are now.
    fn begin_stats(&mut self, alloc: Global, request: &Request) -> Result<ServerStats, NoMemory>
        requires tells { TellsStatistics request.now }
        ensures moves { IfOk result (λ stats. (n : Asker) → n.request ≡ request.now → moves self.old n (Began request.now (TellsStats stats)) self.new) }
        ensures same { IfOk result (λ _. config self.new ≡ config self.old) };

    /// Tells where the distributed client stands.
    fn dist_status(&mut self, alloc: Global) -> Result<DistInfo, NoMemory>
        ensures moves { IfOk result (λ info. (n : Asker) → n.request ≡ DistStatus → moves self.old n (Began DistStatus (TellsDist info)) self.new) }
        ensures same { IfOk result (λ _. config self.new ≡ config self.old) };

    /// The key step of a compile, its first or a later one. It asks for a distributed client first.
    fn key(&mut self, alloc: Global, request: &Compile, first: bool) -> Result<Keying, NoMemory>
        ensures moves { IfOk result (λ keying. (n : Asker) → n.need.keys ≡ keys_of (setup (config self.old)) (CompileOf request.now) → moves self.old n (Keyed first keying.client keying.step) self.new) }
        ensures same { IfOk result (λ _. config self.new ≡ config self.old) };

    /// Compiles by the distributed client.
    fn distribute(
        &mut self,
        alloc: Global,
        request: &Compile,
        key: &Text,
        outputs: &[FileObjectSource],
    ) -> Result<DistAnswer, NoMemory>
        ensures moves { IfOk result (λ answer. (n : Asker) → n.need.key ≡ key.now → n.need.wanted ≡ outputs.now → moves self.old n (Dist answer) self.new) }
        ensures good { IfOk result (λ answer. GoodDist answer) }
        ensures same { IfOk result (λ answer. config self.new ≡ config self.old) };

    /// Tells a job's outcome. Where a server refused the job, the distributed client is made anew at its next use.
    fn outcome(&mut self, alloc: Global, verdict: &Verdict, task: Task) -> Result<(), NoMemory>
        ensures moves { OnOk result ((n : Asker) → moves self.old n (Outcome verdict.now task) self.new) }
        ensures same { OnOk result (config self.new ≡ config self.old) };

    /// What a put comes to, a compile's or another. The writes that it hands on are queued.
    fn put_end(
        &mut self,
        alloc: Global,
        compiles: bool,
        bytes: &Bytes,
        refusal: Refusal,
        since: Since,
    ) -> Result<PutEnd, NoMemory>
        ensures moves { IfOk result (λ end. (n : Need) (r : Asks) → is_compile r ≡ compiles → moves self.old (asker since n r) (WriteEnded end.answer end.handed) self.new) }
        ensures answer { IfOk result (λ end. end.answer ≡ put_answer (config self.old).policy (config self.old).levels refusal) }
        ensures handed { IfOk result (λ end. end.handed ≡ handed_by (config self.old).policy (config self.old).levels bytes.now refusal) }
        ensures same { IfOk result (λ _. config self.new ≡ config self.old) };

    /// Takes a token: one is free.
    fn take_token(&mut self)
        ensures moves { (n : Asker) → moves self.old n TokenTaken self.new }
        ensures same { config self.new ≡ config self.old };

    /// Runs a compile, and gives the token back.
    fn run(
        &mut self,
        alloc: Global,
        request: &Compile,
        key: &Text,
        outputs: &[FileObjectSource],
    ) -> Result<RunAnswer, NoMemory>
        ensures moves { IfOk result (λ answer. (n : Asker) → n.need.key ≡ key.now → n.need.wanted ≡ outputs.now → moves self.old n (Ran answer) self.new) }
        ensures good { IfOk result (λ answer. GoodAnswer answer) }
        ensures same { IfOk result (λ answer. config self.new ≡ config self.old) };

    /// Places a hit's outputs.
    fn place(
        &mut self,
        alloc: Global,
        key: &Text,
        outputs: &[FileObjectSource],
        entry: &ByteText,
    ) -> Result<Placing, NoMemory>
        ensures moves { IfOk result (λ placing. (n : Asker) → n.need.key ≡ key.now → n.need.outputs ≡ outputs.now → n.need.hit ≡ entry.now → moves self.old n (Placed placing) self.new) }
        ensures same { IfOk result (λ placing. config self.new ≡ config self.old) };

    /// Asks a level, but for its size; a disk level alone for a path. The writes that it hands on are queued.
    fn ask(
        &mut self,
        alloc: Global,
        level: u64,
        key: &Text,
        mode: Mode,
        since: Since,
    ) -> Result<Lookup, NoMemory>
        requires level { level < length (config self.old).levels }
        requires path { mode ≡ Path → kind_at (config self.old).levels level ≡ Disk }
        requires counted { mode ≢ SizeMode }
        ensures moves { IfOk result (λ lookup. (n : Need) (r : Asks) → moves self.old (asker since n r) (AskedEvent level key.now mode lookup.answer lookup.handed) self.new) }
        ensures handed { IfOk result (λ lookup. lookup.handed ≡ backfills (config self.old).policy (config self.old).levels level key.now mode lookup.answer) }
        ensures same { IfOk result (λ lookup. config self.new ≡ config self.old) };

    /// The bytes that a level holds and has reserved, where that is known, and what was counted there: a store that stands
    /// alone tells no counters.
    fn size(&mut self, alloc: Global, level: u64) -> Result<LevelSize, NoMemory>
        requires { level < length (config self.old).levels }
        ensures moves { IfOk result (λ told. (n : Asker) → moves self.old n (AskedEvent level [] SizeMode (SizeIs told.size told.counters) []) self.new) }
        ensures same { IfOk result (λ _. config self.new ≡ config self.old) };

    /// Writes an entry at a remote level.
    fn write(
        &mut self,
        alloc: Global,
        level: u64,
        bytes: &Bytes,
        since: Since,
    ) -> Result<Written, NoMemory>
        requires level { level < length (config self.old).levels }
        requires remote { kind_at (config self.old).levels level ≡ Remote }
        ensures moves { IfOk result (λ written. (n : Need) (r : Asks) → moves self.old (asker since n r) (Wrote level bytes.now.key bytes.now.bytes Whole bytes.now.run written) self.new) }
        ensures same { IfOk result (λ written. config self.new ≡ config self.old) };

    /// Puts a preprocessor entry at a level. A remote level keeps none.
    fn write_pre(
        &mut self,
        alloc: Global,
        level: u64,
        bytes: &Bytes,
        since: Since,
    ) -> Result<Written, NoMemory>
        requires level { level < length (config self.old).levels }
        ensures moves { IfOk result (λ written. (n : Need) (r : Asks) → moves self.old (asker since n r) (Wrote level bytes.now.key bytes.now.bytes Pre bytes.now.run written) self.new) }
        ensures same { IfOk result (λ written. config self.new ≡ config self.old) };

    /// What kind of store a level is.
    fn kind(&self, level: u64) -> LevelKind
        requires { level < length (config self.now).levels }
        ensures { result ≡ kind_at (config self.now).levels level };

    /// Opens an entry at a disk level, for these bytes under their key.
    fn reserve(
        &mut self,
        alloc: Global,
        level: u64,
        bytes: &Bytes,
        since: Since,
    ) -> Result<Reservation, NoMemory>
        requires level { level < length (config self.old).levels }
        requires disk { kind_at (config self.old).levels level ≡ Disk }
        ensures moves { IfOk result (λ how. (n : Need) (r : Asks) → moves self.old (asker since n r) (Reserved level bytes.now.key (length bytes.now.bytes) (reserved_of how)) self.new) }
        ensures opens { IfOk result (λ how. Changes (AtLevel level (OpensBy (entry_path bytes.now.key) (length bytes.now.bytes) how)) (rooms self.old) (rooms self.new)) }
        ensures good { IfOk result (λ how. IsGood how bytes.now.key) }
        ensures same { IfOk result (λ _. config self.new ≡ config self.old) };

    /// Fills an open entry of a disk level with these bytes. A refusal closes it. Where others move the level it may be open no
    /// more.
    fn fill(
        &mut self,
        alloc: Global,
        level: u64,
        entry: LruDiskCacheAddEntry,
        bytes: &Bytes,
        since: Since,
    ) -> Result<Filling, NoMemory>
        requires level { level < length (config self.old).levels }
        requires disk { kind_at (config self.old).levels level ≡ Disk }
        requires holds { Holds (rooms self.old) level entry bytes.now [] None }
        ensures moves { IfOk result (λ how. (n : Need) (r : Asks) → moves self.old (asker since n r) (Filled level bytes.now.key bytes.now.bytes bytes.now.run (filled_of how)) self.new) }
        ensures entry { IfOk result (λ how. IsSame entry how) }
        ensures fills { IfOk result (λ how. Changes (AtLevel level (FillsBy entry bytes.now.bytes (filled_by bytes.now.run) how)) (rooms self.old) (rooms self.new)) }
        ensures same { IfOk result (λ _. config self.new ≡ config self.old) };

    /// Puts an open entry of a disk level, which was filled with these bytes and nothing else, in its key's place. It is closed
    /// then, also by a refusal.
    fn commit(
        &mut self,
        alloc: Global,
        level: u64,
        entry: LruDiskCacheAddEntry,
        bytes: &Bytes,
        since: Since,
    ) -> Result<Written, NoMemory>
        requires level { level < length (config self.old).levels }
        requires disk { kind_at (config self.old).levels level ≡ Disk }
        requires holds { Holds (rooms self.old) level entry bytes.now bytes.now.bytes (Some bytes.now.run) }
        ensures moves { IfOk result (λ how. (n : Need) (r : Asks) → n.mark ≡ bytes.now.run → moves self.old (asker since n r) (Committed level bytes.now.key bytes.now.bytes how) self.new) }
        ensures closes { IfOk result (λ _. Changes (AtLevel level (ClosesEntry entry.number)) (rooms self.old) (rooms self.new)) }
        ensures same { IfOk result (λ _. config self.new ≡ config self.old) };

    /// An event that opens, fills and closes no entry leaves what is open at each level.
    ghost still: { (a : Self) (n : Asker) (what : What) (b : Self) → moves a n what b → OpensNone what → Changes (λ d e. (l : ℕ) → SameRoom (d l) (e l)) (rooms a) (rooms b) };

    /// Whether the levels tell what they hold does not change.
    ghost tells: { (a : Self) (n : Asker) (what : What) (b : Self) → moves a n what b → Changes (λ d e. (l : ℕ) → (e l).told ≡ (d l).told) (rooms a) (rooms b) };

    /// The bytes that are reserved at each level are those of the events.
    ghost reserves: { (a : Self) (n : Asker) (what : What) (b : Self) → moves a n what b → Changes (λ d e. ReservesBy what (λ l. (d l).reserved) (λ l. (e l).reserved)) (rooms a) (rooms b) };

    /// A reply is spelled as it is on the wire.
    ghost spells: { (hold : Self) → (config hold).payload ≡ payload };

    /// The levels that a write goes to are there.
    ghost planned: { (hold : Self) → AreLevels (length (config hold).levels) (plan (config hold).policy (config hold).levels) };

    /// So are those that a preprocessor entry goes to.
    ghost pre_planned: { (hold : Self) → AreLevels (length (config hold).levels) (pre_plan (config hold).policy (config hold).levels) };
}
