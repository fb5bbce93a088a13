//! One level of a daemon's store.
ghost use Rattle.std.specs.Prelude.{◌≡◌, true, false, Some, Ok, IfOk, IfErr, OnErr, Err, length};
ghost use Rattle.sc_store_disk.specs.DiskStores.{entry_path};
ghost use Rattle.sc_store_disk.specs.Entries.{ClosesEntry, CommitCause, CommitsEntry, CommitsNothing, FillsBy, IsOpenAt, SameFiles};
ghost use Rattle.sc_store_disk.specs.Marked.{MarksCommitted, MarksFilled, MarksOpened};
ghost use Rattle.sc_store_disk.specs.Marks.{Forgets, filled_by};
ghost use Rattle.sc_store_disk.specs.Moving.{EvictsFor, OpensBy, ReserveCause, SameEntries};
ghost use Rattle.sc_store_disk.specs.declared.filling.EntryError.TheVariants.{NotOpen as IsNotOpen};
ghost use Rattle.sc_store_disk.specs.declared.reserving.Reservation.TheVariants.{Refused as IsNotReserved};
ghost use Rattle.sc_entry.specs.Keys.{is_store_key as is_key};
ghost use Rattle.sc_model.specs.Levels.{Later};
ghost use Rattle.sc_model.specs.WriteCauses.{causes, early_cause as early};
ghost use Rattle.sc_model.specs.declared.level.Cause.{Cause as CauseType};
ghost use Rattle.sc_model.specs.declared.level.Cause.TheVariants.{ReadOnly as ForReading};
ghost use Rattle.sc_model.specs.declared.level.Store.TheVariants.{Wrapper};
ghost use Rattle.sc_model.specs.declared.level.LevelKind.TheVariants.{Disk as IsDisk, Remote as IsRemote};
ghost use Rattle.sc_store.specs.Asking.{AsksLevel, CauseBy, Fewer, MarksAsked, MarksWrote, PreCauseAt, PutCause, PutsLevel, PutsPre, ReservesDisk, TellsMark, fixed_answer, reads_key};
ghost use Rattle.sc_store.specs.Checking.{ChecksLevel, facts_after};
ghost use Rattle.sc_store.specs.Held.{IsWithin, disk_of};
ghost use Rattle.sc_store.specs.Levels.{held_level};
ghost use Rattle.sc_store.specs.Telling.{level_max};

use crate::checked::Checked;
use crate::disk_cache::DiskCache;
use crate::read_only::ReadOnlyLevel;
use crate::remote::Remote;
use crate::remote_storage::RemoteStorage;
use crate::vouch::Vouch;
use sc_disk::{Disk, LruDiskCacheAddEntry};
use sc_entry::{ByteText, CacheMode, NoMemory, Text};
use sc_model::{Answer, Cause, LevelKind, Mode, Policy, Store, Written};
use sc_store_disk::{EntryError, Filling, Reservation};
use std::alloc::Global;

/// Why a store that is only read refuses a put.
fn only_read() -> Cause
    ensures { result ≡ ForReading Wrapper }
{
    Cause::ReadOnly(Store::Wrapper)
}

/// One level of a daemon's store.
#[derive(Drop)]
pub enum Level<R: Remote, D: Disk, V: Vouch> {
    Remote(RemoteStorage<R, V>),
    Disk(DiskCache<D, V>),
    ReadOnly(ReadOnlyLevel<R, D, V>),
}

impl<R: Remote, D: Disk, V: Vouch> Level<R, D, V> {
    /// What type of store it is, in a word.
    pub fn cache_type_name(&self) -> &str
        ensures { result.now ≡ (held_level self.now).title.type_name }
    {
        match self {
            Level::Remote(store) => store.cache_type_name(),
            Level::Disk(store) => store.cache_type_name(),
            Level::ReadOnly(ReadOnlyLevel::Remote(only)) => only.store.cache_type_name(),
            Level::ReadOnly(ReadOnlyLevel::Disk(only)) => only.store.cache_type_name(),
        }
    }

    /// Where its store is, in words.
    pub fn location(&self, alloc: Global) -> Result<Text, NoMemory>
        ensures { IfOk result (λ text. text ≡ (held_level self.now).title.location) }
    {
        match self {
            Level::Remote(store) => {
                let text = store.location(alloc)?;
                Ok(text)
            }
            Level::Disk(store) => {
                let text = store.location(alloc)?;
                Ok(text)
            }
            Level::ReadOnly(ReadOnlyLevel::Remote(only)) => {
                let text = only.store.location(alloc)?;
                Ok(text)
            }
            Level::ReadOnly(ReadOnlyLevel::Disk(only)) => {
                let text = only.store.location(alloc)?;
                Ok(text)
            }
        }
    }

    /// The base directories that its store was given, in order.
    pub fn basedirs(&self) -> &[ByteText]
        ensures { result.now ≡ (held_level self.now).title.given.basedirs }
    {
        match self {
            Level::Remote(store) => store.basedirs(),
            Level::Disk(store) => store.basedirs(),
            Level::ReadOnly(ReadOnlyLevel::Remote(only)) => only.store.basedirs(),
            Level::ReadOnly(ReadOnlyLevel::Disk(only)) => only.store.basedirs(),
        }
    }

    /// Whether it is to keep entries of the preprocessor: a remote store never is.
    pub fn use_preprocessor_cache_mode(&self) -> bool
        ensures { result ≡ (held_level self.now).title.given.flag }
    {
        match self {
            Level::Remote(store) => store.use_preprocessor_cache_mode(),
            Level::Disk(store) => store.use_preprocessor_cache_mode(),
            Level::ReadOnly(ReadOnlyLevel::Remote(only)) => only
                .store
                .use_preprocessor_cache_mode(),
            Level::ReadOnly(ReadOnlyLevel::Disk(only)) => only.store.use_preprocessor_cache_mode(),
        }
    }

    /// The most bytes that it may take, where that is known: of a remote store it isn't.
    pub fn max_size(&self) -> Option<u64>
        ensures { result ≡ level_max (held_level self.now).facts }
    {
        match self {
            Level::Remote(store) => store.max_size(),
            Level::Disk(store) => {
                store.keeps();
                Some(store.max_size())
            }
            Level::ReadOnly(ReadOnlyLevel::Remote(only)) => only.store.max_size(),
            Level::ReadOnly(ReadOnlyLevel::Disk(only)) => {
                only.store.keeps();
                Some(only.store.max_size())
            }
        }
    }

    /// What kind of store it is.
    pub fn kind(&self) -> LevelKind
        ensures { result ≡ (held_level self.now).facts.kind }
    {
        match self {
            Level::Remote(store) => store.kind(),
            Level::Disk(store) => {
                store.keeps();
                LevelKind::Disk
            }
            Level::ReadOnly(ReadOnlyLevel::Remote(only)) => only.store.kind(),
            Level::ReadOnly(ReadOnlyLevel::Disk(only)) => {
                only.store.keeps();
                LevelKind::Disk
            }
        }
    }

    /// The mode that its store was made with.
    pub fn configured(&self) -> CacheMode
        ensures { result ≡ (held_level self.now).facts.configured }
    {
        match self {
            Level::Remote(store) => store.configured(),
            Level::Disk(store) => store.configured(),
            Level::ReadOnly(_) => CacheMode::ReadOnly,
        }
    }

    /// What every level keeps: a disk store's files and reservations take at most its capacity.
    pub fn keeps(&self)
        ensures { IsWithin (held_level self.now).facts (held_level self.now).level (held_level self.now).room }
    {
        match self {
            Level::Remote(store) => {
                let _remote = store.kind();
            }
            Level::Disk(store) => store.keeps(),
            Level::ReadOnly(ReadOnlyLevel::Remote(only)) => {
                let _remote = only.store.kind();
            }
            Level::ReadOnly(ReadOnlyLevel::Disk(only)) => only.store.keeps(),
        }
    }

    /// The bytes that open entries have declared: none at a remote level.
    pub fn reserved(&self) -> u64
        ensures { result ≡ (held_level self.now).room.reserved }
    {
        match self {
            Level::Remote(store) => store.reserved(),
            Level::Disk(store) => store.reserved(),
            Level::ReadOnly(ReadOnlyLevel::Remote(only)) => only.store.reserved(),
            Level::ReadOnly(ReadOnlyLevel::Disk(only)) => only.store.reserved(),
        }
    }

    /// The mode that holds.
    pub fn mode(&self) -> CacheMode
        ensures { result ≡ (held_level self.now).facts.mode }
    {
        match self {
            Level::Remote(store) => store.mode(),
            Level::Disk(store) => store.mode(),
            Level::ReadOnly(_) => CacheMode::ReadOnly,
        }
    }
}

impl<R: Remote, D: Disk + Drop, V: Vouch> Level<R, D, V> {
    /// Looks a key up, at this moment.
    #[tactic(auto, using(crate::proofs::ReadOnly::if_asked_read))]
    pub fn ask(
        &mut self,
        alloc: Global,
        key: &Text,
        mode: Mode,
        now: u64,
    ) -> Result<Answer, NoMemory>
        ensures title { (held_level self.new).title ≡ (held_level self.old).title }
        ensures facts { (held_level self.new).facts ≡ (held_level self.old).facts }
        ensures told { (held_level self.new).told ≡ (held_level self.old).told }
        ensures room { (held_level self.new).room ≡ (held_level self.old).room }
        ensures later { Later (held_level self.old).level (held_level self.new).level }
        ensures mark { reads_key mode ≡ true → IfOk result (λ answer. TellsMark (held_level self.old).facts.kind (held_level self.old).marks key.now answer) }
        ensures marks { IfOk result (λ answer. MarksAsked (held_level self.old).facts.kind mode key.now answer (held_level self.old).marks (held_level self.new).marks) }
        ensures fewer { Fewer (held_level self.old).marks (held_level self.new).marks }
        ensures within { IsWithin (held_level self.new).facts (held_level self.new).level (held_level self.new).room }
        ensures asked { IfOk result (λ answer. AsksLevel key.now mode answer (held_level self.old) (held_level self.new)) }
        ensures cause { IfOk result (λ answer. CauseBy (held_level self.old).facts.kind mode answer key.now (held_level self.old).level (held_level self.new).level) }
        ensures bad_key { reads_key mode ≡ true → is_key key.now ≡ false → (result ≡ Ok (Answer.Refused Cause.BadKey)) × (self.new ≡ self.old) }
        ensures no_read { (held_level self.old).facts.kind ≡ IsRemote → reads_key mode ≡ false → (result ≡ Ok (fixed_answer mode)) × (self.new ≡ self.old) }
    {
        match self {
            Level::Remote(store) => {
                let _remote = store.kind();
                store.ask(alloc, key, mode)
            }
            Level::Disk(store) => {
                store.keeps();
                let answer = store.ask(key, mode, now);
                store.keeps();
                answer
            }
            Level::ReadOnly(ReadOnlyLevel::Remote(only)) => {
                let _remote = only.store.kind();
                only.store.ask(alloc, key, mode)
            }
            Level::ReadOnly(ReadOnlyLevel::Disk(only)) => {
                only.store.keeps();
                let answer = only.store.ask(key, mode, now);
                only.store.keeps();
                answer
            }
        }
    }

    /// Finds out whether its store can be read and written. The mode that was found holds from then on.
    #[tactic(auto, using(crate::proofs::Devices::later_same))]
    pub fn check(&mut self, alloc: Global) -> Result<Checked, NoMemory>
        ensures title { (held_level self.new).title ≡ (held_level self.old).title }
        ensures facts { IfOk result (λ answer. (held_level self.new).facts ≡ facts_after (held_level self.old).facts answer) }
        ensures facts_stay { OnErr result ((held_level self.new).facts ≡ (held_level self.old).facts) }
        ensures told { (held_level self.new).told ≡ (held_level self.old).told }
        ensures marks { (held_level self.new).marks ≡ (held_level self.old).marks }
        ensures room { (held_level self.new).room ≡ (held_level self.old).room }
        ensures later { Later (held_level self.old).level (held_level self.new).level }
        ensures within { IsWithin (held_level self.new).facts (held_level self.new).level (held_level self.new).room }
        ensures checked { IfOk result (λ answer. ChecksLevel answer (held_level self.old) (held_level self.new)) }
    {
        match self {
            Level::Remote(store) => {
                let _remote = store.kind();
                store.check(alloc)
            }
            Level::Disk(store) => {
                store.keeps();
                Ok(Checked::Mode(store.mode()))
            }
            Level::ReadOnly(only) => {
                only.keeps();
                Ok(Checked::Mode(CacheMode::ReadOnly))
            }
        }
    }

    /// Puts an entry under a key of a remote level. The flag says whether a local run made the bytes.
    pub fn put_step(
        &mut self,
        alloc: Global,
        policy: &Policy,
        key: &Text,
        bytes: &ByteText,
        from_run: bool,
    ) -> Result<Written, NoMemory>
        requires { (held_level self.old).facts.kind ≡ IsRemote }
        ensures title { (held_level self.new).title ≡ (held_level self.old).title }
        ensures facts { (held_level self.new).facts ≡ (held_level self.old).facts }
        ensures told { (held_level self.new).told ≡ (held_level self.old).told }
        ensures room { (held_level self.new).room ≡ (held_level self.old).room }
        ensures marks { IfOk result (λ how. MarksWrote key.now from_run how (held_level self.old).marks (held_level self.new).marks) }
        ensures fewer { OnErr result (Fewer (held_level self.old).marks (held_level self.new).marks) }
        ensures later { Later (held_level self.old).level (held_level self.new).level }
        ensures within { IsWithin (held_level self.new).facts (held_level self.new).level (held_level self.new).room }
        ensures wrote { IfOk result (λ how. PutsLevel policy.now key.now bytes.now from_run how (held_level self.old) (held_level self.new)) }
        ensures cause { IfOk result (λ how. PutCause (early policy.now (held_level self.old).facts key.now) how (held_level self.old).level (held_level self.new).level) }
        ensures early { (c : CauseType) → early policy.now (held_level self.old).facts key.now ≡ Some c → (result ≡ Ok (Written.Refused c)) × (self.new ≡ self.old) }
    {
        match self {
            Level::Remote(store) => store.put_step(alloc, policy, key, bytes, from_run),
            Level::Disk(store) => {
                store.keeps();
                unreachable!()
            }
            Level::ReadOnly(only) => {
                only.keeps();
                Ok(Written::Refused(only_read()))
            }
        }
    }

    /// Opens an entry for a key of a disk level, of this size.
    pub fn reserve(
        &mut self,
        policy: &Policy,
        key: &Text,
        size: u64,
        now: u64,
    ) -> Result<Reservation, NoMemory>
        requires { (held_level self.old).facts.kind ≡ IsDisk }
        ensures title { (held_level self.new).title ≡ (held_level self.old).title }
        ensures facts { (held_level self.new).facts ≡ (held_level self.old).facts }
        ensures told { (held_level self.new).told ≡ (held_level self.old).told }
        ensures later { Later (held_level self.old).level (held_level self.new).level }
        ensures marks { IfOk result (λ how. MarksOpened how (held_level self.old).marks (held_level self.new).marks) }
        ensures marks_stay { OnErr result ((held_level self.new).marks ≡ (held_level self.old).marks) }
        ensures within { IsWithin (held_level self.new).facts (held_level self.new).level (held_level self.new).room }
        ensures moved { IfOk result (λ how. ReservesDisk policy.now key.now size how (disk_of (held_level self.old)) (disk_of (held_level self.new))) }
        ensures entry { IfOk result (λ how. OpensBy (entry_path key.now) size how (disk_of (held_level self.old)) (disk_of (held_level self.new))) }
        ensures kept { OnErr result (SameEntries (disk_of (held_level self.old)) (disk_of (held_level self.new))) }
        ensures evicts { OnErr result (EvictsFor size (disk_of (held_level self.old)) (disk_of (held_level self.new))) }
        ensures cause { IfOk result (λ how. ReserveCause (causes policy.now (held_level self.old).facts (held_level self.old).room.reserved key.now size) how (held_level self.old).level (held_level self.new).level) }
        ensures early { (c : CauseType) → early policy.now (held_level self.old).facts key.now ≡ Some c → (result ≡ Ok (IsNotReserved c)) × (self.new ≡ self.old) }
    {
        match self {
            Level::Disk(store) => {
                let how = store.reserve(policy, key, size, now);
                store.keeps();
                how
            }
            Level::ReadOnly(only) => {
                only.keeps();
                Ok(Reservation::Refused(only_read()))
            }
            Level::Remote(store) => {
                let _remote = store.kind();
                unreachable!()
            }
        }
    }

    /// Adds bytes behind those that an open entry of a disk level was filled with. The first fill marks the entry where a
    /// local run made its bytes, and every further one clears that mark. A refusal closes the entry.
    #[tactic(auto, using(crate::proofs::ReadOnly::none_open_read))]
    pub fn fill(
        &mut self,
        entry: LruDiskCacheAddEntry,
        bytes: &[u8],
        from_run: bool,
    ) -> Result<Filling, EntryError>
        requires { (held_level self.old).facts.kind ≡ IsDisk }
        ensures title { (held_level self.new).title ≡ (held_level self.old).title }
        ensures facts { (held_level self.new).facts ≡ (held_level self.old).facts }
        ensures told { (held_level self.new).told ≡ (held_level self.old).told }
        ensures later { Later (held_level self.old).level (held_level self.new).level }
        ensures marks { IfOk result (λ how. MarksFilled entry.number from_run how (held_level self.old).marks (held_level self.new).marks) }
        ensures forgotten { OnErr result (IsOpenAt entry (disk_of (held_level self.old)) → Forgets entry.number (held_level self.old).marks (held_level self.new).marks) }
        ensures within { IsWithin (held_level self.new).facts (held_level self.new).level (held_level self.new).room }
        ensures filled { IfOk result (λ how. IsOpenAt entry (disk_of (held_level self.old)) × FillsBy entry bytes.now (filled_by from_run) how (disk_of (held_level self.old)) (disk_of (held_level self.new))) }
        ensures closed { OnErr result (IsOpenAt entry (disk_of (held_level self.old)) → ClosesEntry entry.number (disk_of (held_level self.old)) (disk_of (held_level self.new))) }
        ensures kept { OnErr result (SameFiles (held_level self.old).level (held_level self.new).level) }
        ensures not_open { IfErr result (λ refused. refused ≡ IsNotOpen → (IsOpenAt entry (disk_of (held_level self.old)) → ⊥) × (self.new ≡ self.old)) }
        ensures shut { (IsOpenAt entry (disk_of (held_level self.old)) → ⊥) → result ≡ Err IsNotOpen }
    {
        match self {
            Level::Disk(store) => {
                let how = store.fill(entry, bytes, from_run);
                store.keeps();
                how
            }
            Level::ReadOnly(only) => {
                only.keeps();
                Err(EntryError::NotOpen)
            }
            Level::Remote(store) => {
                let _remote = store.kind();
                unreachable!()
            }
        }
    }

    /// Puts an open entry's file of a disk level in its key's place, and closes the entry, also by a refusal. The key gets the
    /// mark of the entry.
    #[tactic(auto, using(crate::proofs::ReadOnly::none_open_read))]
    pub fn commit(&mut self, entry: LruDiskCacheAddEntry, now: u64) -> Result<Written, EntryError>
        requires { (held_level self.old).facts.kind ≡ IsDisk }
        ensures title { (held_level self.new).title ≡ (held_level self.old).title }
        ensures facts { (held_level self.new).facts ≡ (held_level self.old).facts }
        ensures told { (held_level self.new).told ≡ (held_level self.old).told }
        ensures later { Later (held_level self.old).level (held_level self.new).level }
        ensures marks { IfOk result (λ how. MarksCommitted entry.number entry.key how (held_level self.old).marks (held_level self.new).marks (disk_of (held_level self.new))) }
        ensures forgotten { OnErr result (IsOpenAt entry (disk_of (held_level self.old)) → Forgets entry.number (held_level self.old).marks (held_level self.new).marks) }
        ensures within { IsWithin (held_level self.new).facts (held_level self.new).level (held_level self.new).room }
        ensures closed { IsOpenAt entry (disk_of (held_level self.old)) → ClosesEntry entry.number (disk_of (held_level self.old)) (disk_of (held_level self.new)) }
        ensures committed { IfOk result (λ how. IsOpenAt entry (disk_of (held_level self.old)) × CommitsEntry entry.number how (disk_of (held_level self.old)) (disk_of (held_level self.new))) }
        ensures cause { IfOk result (λ how. CommitCause entry.number how (disk_of (held_level self.old)) (disk_of (held_level self.new))) }
        ensures kept { OnErr result (CommitsNothing entry.number (disk_of (held_level self.old)) (disk_of (held_level self.new))) }
        ensures not_open { IfErr result (λ refused. refused ≡ IsNotOpen → (IsOpenAt entry (disk_of (held_level self.old)) → ⊥) × (self.new ≡ self.old)) }
        ensures shut { (IsOpenAt entry (disk_of (held_level self.old)) → ⊥) → result ≡ Err IsNotOpen }
    {
        match self {
            Level::Disk(store) => {
                let how = store.commit(entry, now);
                store.keeps();
                how
            }
            Level::ReadOnly(only) => {
                only.keeps();
                Err(EntryError::NotOpen)
            }
            Level::Remote(store) => {
                let _remote = store.kind();
                unreachable!()
            }
        }
    }

    /// Puts a preprocessor entry under a key. A remote level keeps none, and is not called.
    pub fn put_pre(
        &mut self,
        policy: &Policy,
        key: &Text,
        bytes: &[u8],
        now: u64,
    ) -> Result<Written, NoMemory>
        ensures title { (held_level self.new).title ≡ (held_level self.old).title }
        ensures facts { (held_level self.new).facts ≡ (held_level self.old).facts }
        ensures told { (held_level self.new).told ≡ (held_level self.old).told }
        ensures later { Later (held_level self.old).level (held_level self.new).level }
        ensures marks { (held_level self.new).marks ≡ (held_level self.old).marks }
        ensures within { IsWithin (held_level self.new).facts (held_level self.new).level (held_level self.new).room }
        ensures entries { SameEntries (disk_of (held_level self.old)) (disk_of (held_level self.new)) }
        ensures put { IfOk result (λ how. PutsPre policy.now key.now bytes.now how (disk_of (held_level self.old)) (disk_of (held_level self.new))) }
        ensures evicts { OnErr result (EvictsFor (length bytes.now) (disk_of (held_level self.old)) (disk_of (held_level self.new))) }
        ensures cause { IfOk result (λ how. PreCauseAt policy.now key.now bytes.now how (disk_of (held_level self.old)) (disk_of (held_level self.new))) }
        ensures early { (held_level self.old).facts.kind ≡ IsDisk → (c : CauseType) → early policy.now (held_level self.old).facts key.now ≡ Some c → (result ≡ Ok (Written.Refused c)) × (self.new ≡ self.old) }
        ensures remote { (held_level self.old).facts.kind ≡ IsRemote → (held_level self.old).facts.wrapped ≡ false → (result ≡ Ok Written.Done) × (self.new ≡ self.old) }
        ensures only_read { (held_level self.old).facts.wrapped ≡ true → (result ≡ Ok (Written.Refused (ForReading Wrapper))) × (self.new ≡ self.old) }
    {
        match self {
            Level::Disk(store) => {
                store.keeps();
                let how = store.put_pre(policy, key, bytes, now);
                store.keeps();
                how
            }
            Level::Remote(store) => {
                let _remote = store.kind();
                Ok(Written::Done)
            }
            Level::ReadOnly(only) => {
                only.keeps();
                Ok(Written::Refused(only_read()))
            }
        }
    }
}
