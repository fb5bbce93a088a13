ghost use Rattle.std.specs.Prelude.{◌≡◌, ◌<◌, ◌↔◌, ℕ, IsTrue, true, false, Some, Ok, Err, IfOk, IfErr, OnErr, length, slice_set};
ghost use Rattle.sc_store_disk.specs.DiskStores.{entry_path};
ghost use Rattle.sc_store_disk.specs.Entries.{ClosesEntry, CommitCause, CommitsEntry, CommitsNothing, FillsBy, IsOpenAt, SameFiles};
ghost use Rattle.sc_store_disk.specs.Marked.{MarksCommitted, MarksFilled, MarksOpened};
ghost use Rattle.sc_store_disk.specs.Marks.{Forgets, filled_by};
ghost use Rattle.sc_store_disk.specs.Moving.{EvictsFor, OpensBy, ReserveCause, SameEntries};
ghost use Rattle.sc_store_disk.specs.declared.filling.EntryError.TheVariants.{NotOpen as IsNotOpen};
ghost use Rattle.sc_store_disk.specs.declared.reserving.Reservation.TheVariants.{Refused as IsNotReserved};
ghost use Rattle.sc_entry.specs.Keys.{is_store_key as is_key};
ghost use Rattle.sc_model.specs.Plan.{level_facts};
ghost use Rattle.sc_model.specs.Levels.{Later};
ghost use Rattle.sc_model.specs.WriteCauses.{causes, early_cause as early};
ghost use Rattle.sc_model.specs.declared.level.Cause.{Cause};
ghost use Rattle.sc_model.specs.declared.level.Cause.TheVariants.{ReadOnly as ForReading};
ghost use Rattle.sc_model.specs.declared.level.Store.TheVariants.{Wrapper};
ghost use Rattle.sc_model.specs.declared.level.Policy.{Policy as PolicyType};
ghost use Rattle.sc_model.specs.declared.level.LevelKind.TheVariants.{Disk as IsDisk, Remote as IsRemote};
ghost use Rattle.sc_store.specs.Asking.{AloneAt, AsksAt, CauseBy, Fewer, MarksAsked, MarksWrote, PreCauseAt, PutCause, PutsAt, PutsPre, ReservesDisk, TellsMark, fixed_answer, reads_key};
ghost use Rattle.sc_store.specs.Checking.{ChecksAt, facts_after};
ghost use Rattle.sc_store.specs.Held.{AreWithin, are_unreserved, disk_in, level_in, marks_in, room_in, title_in};
ghost use Rattle.sc_store.specs.Levels.{held_level, held_levels, rooms_of};

use crate::checked::Checked;
use crate::level::Level;
use crate::remote::Remote;
use crate::vouch::Vouch;
use sc_disk::{Disk, LruDiskCacheAddEntry};
use sc_entry::{ByteText, CacheMode, NoMemory, Text};
use sc_model::{Answer, LevelKind, Mode, Policy, Written};
use sc_store_disk::{EntryError, Filling, Reservation};
use std::alloc::Global;
use std::marker::Model;

/// The store of a daemon: its levels in order, and its policy. Contracts see what does not change of each level, the
/// policy, whether every level tells what it holds, and what each holds where it tells that.
#[derive(Drop)]
pub struct Layered<R: Remote, D: Disk, V: Vouch> {
    pub(crate) levels: Vec<Level<R, D, V>>,
    pub(crate) policy: Policy,
}

impl<R: Remote, D: Disk, V: Vouch> Model for Layered<R, D, V> {
    ghost use Rattle.sc_store.specs.Held.{Held, held_code};

    ghost Value = { Held };

    ghost coded = { held_code };

    ghost use Rattle.sc_store.specs.Levels.{held_levels};

    ghost view = { λ d. held_levels d.levels.items d.policy };

    ghost use Rattle.sc_store.specs.Held.{AreWithin};

    /// Each disk level is within its capacity.
    ghost invariant = { λ d. AreWithin (held_levels d.levels.items d.policy) };
}

/// Each of these levels is within its capacity.
fn keep_all<R: Remote, D: Disk, V: Vouch>(levels: &[Level<R, D, V>])
    ensures { (policy : PolicyType) → AreWithin (held_levels levels.now policy) }
{
    if let [first, rest @ ..] = levels {
        first.keeps();
        keep_all(rest);
    }
}

/// Whether nothing is reserved at any of these levels.
fn are_unreserved<R: Remote, D: Disk, V: Vouch>(levels: &[Level<R, D, V>]) -> bool
    ensures { result ≡ are_unreserved (rooms_of levels.now) }
{
    if let [first, rest @ ..] = levels {
        return first.reserved() == 0 && are_unreserved(rest);
    }
    true
}

impl<R: Remote, D: Disk, V: Vouch> Layered<R, D, V> {
    /// The store of these levels, in their order.
    pub fn new(levels: Vec<Level<R, D, V>>, policy: Policy) -> Layered<R, D, V>
        ensures { result ≡ held_levels levels.items policy }
    {
        keep_all(&levels);
        Layered { levels, policy }
    }

    /// What the levels keep, after each call and also after a refusal: each disk level's files and reservations take at most
    /// its capacity.
    pub fn keeps(&self)
        ensures { AreWithin self.now }
    {
        let _within = self.levels.len();
    }

    /// Whether no bytes are reserved at any level.
    pub fn is_unreserved(&self) -> bool
        ensures { IsTrue result ↔ ((l : ℕ) → (room_in self.now.rooms l).reserved ≡ 0) }
    {
        are_unreserved(&self.levels)
    }

    /// How many levels there are.
    pub fn len(&self) -> usize
        ensures levels { result ≡ length self.now.levels }
        ensures facts { result ≡ length self.now.facts }
        ensures titles { result ≡ length self.now.titles }
        ensures rooms { result ≡ length self.now.rooms }
    {
        self.levels.len()
    }

    /// A level. Levels that all tell what they hold are levels of which each tells it.
    pub fn get(&self, level: usize) -> &Level<R, D, V>
        requires { level < length self.now.levels }
        ensures title { (held_level result.now).title ≡ title_in self.now.titles level }
        ensures facts { (held_level result.now).facts ≡ level_facts self.now.facts level }
        ensures level { (held_level result.now).level ≡ level_in self.now.levels level }
        ensures room { (held_level result.now).room ≡ room_in self.now.rooms level }
        ensures marks { (held_level result.now).marks ≡ marks_in self.now.marks level }
        ensures told { self.now.told ≡ true → (held_level result.now).told ≡ true }
        ensures alone { length self.now.levels ≡ 1 → (held_level result.now).told ≡ self.now.told }
    {
        &self.levels[level]
    }

    pub fn policy(&self) -> &Policy
        ensures { result.now ≡ self.now.policy }
    {
        &self.policy
    }

    /// What kind of store a level is.
    pub fn kind(&self, level: usize) -> LevelKind
        requires { level < length self.now.levels }
        ensures { result ≡ (level_facts self.now.facts level).kind }
    {
        self.levels[level].kind()
    }

    /// The mode that a level's store was made with.
    pub fn configured(&self, level: usize) -> CacheMode
        requires { level < length self.now.levels }
        ensures { result ≡ (level_facts self.now.facts level).configured }
    {
        self.levels[level].configured()
    }

    /// The mode of a level that holds.
    pub fn mode(&self, level: usize) -> CacheMode
        requires { level < length self.now.levels }
        ensures { result ≡ (level_facts self.now.facts level).mode }
    {
        self.levels[level].mode()
    }
}

impl<R: Remote, D: Disk + Drop, V: Vouch> Layered<R, D, V> {
    /// Looks a key up at one level, and at no other, at this moment.
    pub fn ask(
        &mut self,
        alloc: Global,
        level: usize,
        key: &Text,
        mode: Mode,
        now: u64,
    ) -> Result<Answer, NoMemory>
        requires level { level < length self.old.levels }
        ensures titles { self.new.titles ≡ self.old.titles }
        ensures facts { self.new.facts ≡ self.old.facts }
        ensures policy { self.new.policy ≡ self.old.policy }
        ensures told { self.new.told ≡ self.old.told }
        ensures rooms { self.new.rooms ≡ self.old.rooms }
        ensures alone { self.new.levels ≡ slice_set self.old.levels level (level_in self.new.levels level) }
        ensures later { Later (level_in self.old.levels level) (level_in self.new.levels level) }
        ensures mark { reads_key mode ≡ true → IfOk result (λ answer. TellsMark (level_facts self.old.facts level).kind (marks_in self.old.marks level) key.now answer) }
        ensures marks { IfOk result (λ answer. MarksAsked (level_facts self.old.facts level).kind mode key.now answer (marks_in self.old.marks level) (marks_in self.new.marks level)) }
        ensures marks_alone { self.new.marks ≡ slice_set self.old.marks level (marks_in self.new.marks level) }
        ensures fewer { Fewer (marks_in self.old.marks level) (marks_in self.new.marks level) }
        ensures asked { IfOk result (λ answer. AsksAt level key.now mode answer self.old self.new) }
        ensures cause { IfOk result (λ answer. CauseBy (level_facts self.old.facts level).kind mode answer key.now (level_in self.old.levels level) (level_in self.new.levels level)) }
        ensures bad_key { reads_key mode ≡ true → is_key key.now ≡ false → (result ≡ Ok (Answer.Refused Cause.BadKey)) × (self.new ≡ self.old) }
        ensures no_read { (level_facts self.old.facts level).kind ≡ IsRemote → reads_key mode ≡ false → (result ≡ Ok (fixed_answer mode)) × (self.new ≡ self.old) }
    {
        self.levels[level].ask(alloc, key, mode, now)
    }

    /// Finds out whether one level's store can be read and written. The mode that was found is the level's from then on.
    pub fn check_step(&mut self, alloc: Global, level: usize) -> Result<Checked, NoMemory>
        requires { level < length self.old.levels }
        ensures titles { self.new.titles ≡ self.old.titles }
        ensures facts { IfOk result (λ answer. self.new.facts ≡ slice_set self.old.facts level (facts_after (level_facts self.old.facts level) answer)) }
        ensures facts_stay { OnErr result (self.new.facts ≡ self.old.facts) }
        ensures policy { self.new.policy ≡ self.old.policy }
        ensures told { self.new.told ≡ self.old.told }
        ensures marks { self.new.marks ≡ self.old.marks }
        ensures rooms { self.new.rooms ≡ self.old.rooms }
        ensures alone { self.new.levels ≡ slice_set self.old.levels level (level_in self.new.levels level) }
        ensures later { Later (level_in self.old.levels level) (level_in self.new.levels level) }
        ensures checked { IfOk result (λ answer. ChecksAt level answer self.old self.new) }
    {
        self.levels[level].check(alloc)
    }

    /// Puts an entry under a key at one remote level, and at no other. The flag says whether a local run made the bytes: a write
    /// that is done gives its key that mark, one that the remote refused takes it.
    pub fn put_step(
        &mut self,
        alloc: Global,
        level: usize,
        key: &Text,
        bytes: &ByteText,
        from_run: bool,
    ) -> Result<Written, NoMemory>
        requires level { level < length self.old.levels }
        requires remote { (level_facts self.old.facts level).kind ≡ IsRemote }
        ensures titles { self.new.titles ≡ self.old.titles }
        ensures facts { self.new.facts ≡ self.old.facts }
        ensures policy { self.new.policy ≡ self.old.policy }
        ensures told { self.new.told ≡ self.old.told }
        ensures rooms { self.new.rooms ≡ self.old.rooms }
        ensures alone { self.new.levels ≡ slice_set self.old.levels level (level_in self.new.levels level) }
        ensures marks { IfOk result (λ how. MarksWrote key.now from_run how (marks_in self.old.marks level) (marks_in self.new.marks level)) }
        ensures marks_alone { self.new.marks ≡ slice_set self.old.marks level (marks_in self.new.marks level) }
        ensures fewer { OnErr result (Fewer (marks_in self.old.marks level) (marks_in self.new.marks level)) }
        ensures later { Later (level_in self.old.levels level) (level_in self.new.levels level) }
        ensures wrote { IfOk result (λ how. PutsAt level key.now bytes.now from_run how self.old self.new) }
        ensures cause { IfOk result (λ how. PutCause (early self.old.policy (level_facts self.old.facts level) key.now) how (level_in self.old.levels level) (level_in self.new.levels level)) }
        ensures early { (c : Cause) → early self.old.policy (level_facts self.old.facts level) key.now ≡ Some c → (result ≡ Ok (Written.Refused c)) × (self.new ≡ self.old) }
    {
        self.levels[level].put_step(alloc, &self.policy, key, bytes, from_run)
    }

    /// Opens an entry for a key at one disk level, of this size, and at no other: files are evicted until it fits.
    pub fn reserve(
        &mut self,
        level: usize,
        key: &Text,
        size: u64,
        now: u64,
    ) -> Result<Reservation, NoMemory>
        requires level { level < length self.old.levels }
        requires disk { (level_facts self.old.facts level).kind ≡ IsDisk }
        ensures alone { AloneAt level self.old self.new }
        ensures later { Later (level_in self.old.levels level) (level_in self.new.levels level) }
        ensures marks { IfOk result (λ how. MarksOpened how (marks_in self.old.marks level) (marks_in self.new.marks level)) }
        ensures marks_stay { OnErr result ((marks_in self.new.marks level) ≡ (marks_in self.old.marks level)) }
        ensures moved { IfOk result (λ how. ReservesDisk self.old.policy key.now size how (disk_in self.old level) (disk_in self.new level)) }
        ensures entry { IfOk result (λ how. OpensBy (entry_path key.now) size how (disk_in self.old level) (disk_in self.new level)) }
        ensures kept { OnErr result (SameEntries (disk_in self.old level) (disk_in self.new level)) }
        ensures evicts { OnErr result (EvictsFor size (disk_in self.old level) (disk_in self.new level)) }
        ensures cause { IfOk result (λ how. ReserveCause (causes self.old.policy (level_facts self.old.facts level) (room_in self.old.rooms level).reserved key.now size) how (level_in self.old.levels level) (level_in self.new.levels level)) }
        ensures early { (c : Cause) → early self.old.policy (level_facts self.old.facts level) key.now ≡ Some c → (result ≡ Ok (IsNotReserved c)) × (self.new ≡ self.old) }
    {
        self.levels[level].reserve(&self.policy, key, size, now)
    }

    /// Adds bytes behind those that an open entry of one disk level was filled with. The first fill marks the entry where a
    /// local run made its bytes, and every further one clears that mark. A refusal closes the entry, and so does want of
    /// memory.
    pub fn fill(
        &mut self,
        level: usize,
        entry: LruDiskCacheAddEntry,
        bytes: &[u8],
        from_run: bool,
    ) -> Result<Filling, EntryError>
        requires level { level < length self.old.levels }
        requires disk { (level_facts self.old.facts level).kind ≡ IsDisk }
        ensures alone { AloneAt level self.old self.new }
        ensures later { Later (level_in self.old.levels level) (level_in self.new.levels level) }
        ensures marks { IfOk result (λ how. MarksFilled entry.number from_run how (marks_in self.old.marks level) (marks_in self.new.marks level)) }
        ensures forgotten { OnErr result (IsOpenAt entry (disk_in self.old level) → Forgets entry.number (marks_in self.old.marks level) (marks_in self.new.marks level)) }
        ensures filled { IfOk result (λ how. IsOpenAt entry (disk_in self.old level) × FillsBy entry bytes.now (filled_by from_run) how (disk_in self.old level) (disk_in self.new level)) }
        ensures closed { OnErr result (IsOpenAt entry (disk_in self.old level) → ClosesEntry entry.number (disk_in self.old level) (disk_in self.new level)) }
        ensures kept { OnErr result (SameFiles (level_in self.old.levels level) (level_in self.new.levels level)) }
        ensures not_open { IfErr result (λ refused. refused ≡ IsNotOpen → (IsOpenAt entry (disk_in self.old level) → ⊥) × (self.new ≡ self.old)) }
        ensures shut { (IsOpenAt entry (disk_in self.old level) → ⊥) → result ≡ Err IsNotOpen }
    {
        self.levels[level].fill(entry, bytes, from_run)
    }

    /// Puts an open entry's file of one disk level in its key's place, and closes the entry, also by a refusal. The key gets
    /// the mark of the entry.
    pub fn commit(
        &mut self,
        level: usize,
        entry: LruDiskCacheAddEntry,
        now: u64,
    ) -> Result<Written, EntryError>
        requires level { level < length self.old.levels }
        requires disk { (level_facts self.old.facts level).kind ≡ IsDisk }
        ensures alone { AloneAt level self.old self.new }
        ensures later { Later (level_in self.old.levels level) (level_in self.new.levels level) }
        ensures marks { IfOk result (λ how. MarksCommitted entry.number entry.key how (marks_in self.old.marks level) (marks_in self.new.marks level) (disk_in self.new level)) }
        ensures forgotten { OnErr result (IsOpenAt entry (disk_in self.old level) → Forgets entry.number (marks_in self.old.marks level) (marks_in self.new.marks level)) }
        ensures closed { IsOpenAt entry (disk_in self.old level) → ClosesEntry entry.number (disk_in self.old level) (disk_in self.new level) }
        ensures committed { IfOk result (λ how. IsOpenAt entry (disk_in self.old level) × CommitsEntry entry.number how (disk_in self.old level) (disk_in self.new level)) }
        ensures cause { IfOk result (λ how. CommitCause entry.number how (disk_in self.old level) (disk_in self.new level)) }
        ensures kept { OnErr result (CommitsNothing entry.number (disk_in self.old level) (disk_in self.new level)) }
        ensures not_open { IfErr result (λ refused. refused ≡ IsNotOpen → (IsOpenAt entry (disk_in self.old level) → ⊥) × (self.new ≡ self.old)) }
        ensures shut { (IsOpenAt entry (disk_in self.old level) → ⊥) → result ≡ Err IsNotOpen }
    {
        self.levels[level].commit(entry, now)
    }

    /// Puts a preprocessor entry under a key at one level, and at no other. A remote level keeps none, and is not called.
    pub fn put_pre_step(
        &mut self,
        level: usize,
        key: &Text,
        bytes: &[u8],
        now: u64,
    ) -> Result<Written, NoMemory>
        requires { level < length self.old.levels }
        ensures alone { AloneAt level self.old self.new }
        ensures later { Later (level_in self.old.levels level) (level_in self.new.levels level) }
        ensures entries { SameEntries (disk_in self.old level) (disk_in self.new level) }
        ensures marks { (marks_in self.new.marks level) ≡ (marks_in self.old.marks level) }
        ensures put { IfOk result (λ how. PutsPre self.old.policy key.now bytes.now how (disk_in self.old level) (disk_in self.new level)) }
        ensures evicts { OnErr result (EvictsFor (length bytes.now) (disk_in self.old level) (disk_in self.new level)) }
        ensures cause { IfOk result (λ how. PreCauseAt self.old.policy key.now bytes.now how (disk_in self.old level) (disk_in self.new level)) }
        ensures early { (level_facts self.old.facts level).kind ≡ IsDisk → (c : Cause) → early self.old.policy (level_facts self.old.facts level) key.now ≡ Some c → (result ≡ Ok (Written.Refused c)) × (self.new ≡ self.old) }
        ensures remote { (level_facts self.old.facts level).kind ≡ IsRemote → (level_facts self.old.facts level).wrapped ≡ false → (result ≡ Ok Written.Done) × (self.new ≡ self.old) }
        ensures only_read { (level_facts self.old.facts level).wrapped ≡ true → (result ≡ Ok (Written.Refused (ForReading Wrapper))) × (self.new ≡ self.old) }
    {
        self.levels[level].put_pre(&self.policy, key, bytes, now)
    }
}
