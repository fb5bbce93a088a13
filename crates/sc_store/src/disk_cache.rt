//! A disk store as a level's store.
ghost use Rattle.std.specs.Prelude.{◌≡◌, ◌+◌, ◌≤◌, false, true, Some, Ok, Err, IfOk, IfErr, OnErr, length};
ghost use Rattle.sc_store_disk.specs.DiskStores.{entry_path, held_disk, unopened_store};
ghost use Rattle.sc_store_disk.specs.Entries.{ClosesEntry, CommitCause, CommitsEntry, CommitsNothing, FillsBy, IsOpenAt, SameFiles};
ghost use Rattle.sc_store_disk.specs.Marked.{MarksCommitted, MarksFilled, MarksOpened};
ghost use Rattle.sc_store_disk.specs.Marks.{Forgets, filled_by};
ghost use Rattle.sc_store_disk.specs.Moving.{AskCause, AsksDisk, EvictsFor, OpensBy, ReserveCause, SameEntries, Stays, Steady};
ghost use Rattle.sc_store_disk.specs.Preprocessor.{PreCause, PutsPre};
ghost use Rattle.sc_store_disk.specs.declared.filling.EntryError.TheVariants.{NotOpen as IsNotOpen};
ghost use Rattle.sc_store_disk.specs.declared.reserving.Reservation.TheVariants.{Refused as IsNotReserved};
ghost use Rattle.sc_entry.specs.Keys.{is_store_key as is_key};
ghost use Rattle.sc_disk_pair.specs.Twos.{joined_state, joins};
ghost use Rattle.sc_model.specs.Evicting.{part_size};
ghost use Rattle.sc_model.specs.Levels.{KeepsMarks};
ghost use Rattle.sc_model.specs.WriteCauses.{causes, early_cause as early};
ghost use Rattle.sc_model.specs.declared.level.Cause.{Cause};
ghost use Rattle.sc_model.specs.declared.level.LevelKind.TheVariants.{Disk as IsDisk};
ghost use Rattle.sc_store.specs.Asking.{ReservesDisk, TellsMark, reads_key};
ghost use Rattle.sc_store.specs.Held.{disk_given, disk_of, disk_title, nothing_given, of_disk};

use crate::vouch::Vouch;
use sc_disk::{Disk, LruDiskCacheAddEntry};
use sc_entry::{ByteText, CacheMode, Items, NoMemory, Text};
use sc_model::{Answer, Mode, Policy, Written};
use sc_store_disk::{EntryCache, EntryError, Filling, Reservation};
use std::alloc::Global;
use std::marker::{Model, PhantomData};

/// A disk store of a level. Contracts see what it holds and what is open.
#[derive(Drop)]
pub struct DiskCache<D: Disk, V: Vouch> {
    cache: EntryCache<D>,
    use_preprocessor_cache_mode: bool,
    basedirs: Items<ByteText>,
    of: PhantomData<V>,
}

impl<D: Disk, V: Vouch> Model for DiskCache<D, V> {
    ghost use Rattle.sc_store_disk.specs.DiskStores.{held_disk};
    ghost use Rattle.sc_store_disk.specs.Marked.{marks_of};
    ghost use Rattle.sc_store.specs.Held.{HeldLevel, disk_given, held_level_code, marked, of_disk};

    ghost Value = { HeldLevel };

    ghost coded = { held_level_code };

    ghost view = { λ s. marked (marks_of s.cache) (of_disk (disk_given s.basedirs s.use_preprocessor_cache_mode) (held_disk s.cache)) };
}

/// Where a disk store is, in words.
fn location(alloc: Global, path: &ByteText) -> Result<Text, NoMemory>
    ensures { IfOk result (λ text. text ≡ (disk_title path.now nothing_given).location) }
{
    let mut text = String::from_str(alloc, "Local disk: \"")?;
    let path = String::from_utf8_lossy(alloc, path.as_slice())?;
    text.push_str(&path)?;
    text.push('"')?;
    Ok(Text::from_string(text))
}

impl<D: Disk, V: Vouch> DiskCache<D, V> {
    /// A store on two disks, of entries and of preprocessor entries, whose files take at most `max_size` bytes together; with
    /// the flag that says whether it is to keep entries of the preprocessor, its mode, and these base directories. It isn't
    /// opened yet.
    pub fn new(
        alloc: Global,
        main: D,
        pre: D,
        max_size: u64,
        use_preprocessor_cache_mode: bool,
        mode: CacheMode,
        basedirs: Items<ByteText>,
    ) -> DiskCache<D, V>
        ensures { result ≡ of_disk (disk_given basedirs use_preprocessor_cache_mode) (unopened_store mode max_size (joined_state (joins (D.state main) (D.state pre)))) }
    {
        DiskCache {
            cache: EntryCache::new(alloc, main, pre, max_size, mode),
            use_preprocessor_cache_mode,
            basedirs,
            of: PhantomData,
        }
    }

    pub fn cache(&self) -> &EntryCache<D>
        ensures { held_disk result.now ≡ disk_of self.now }
    {
        &self.cache
    }

    /// The base directories that it was given, in order.
    pub fn basedirs(&self) -> &[ByteText]
        ensures { result.now ≡ self.now.title.given.basedirs }
    {
        self.basedirs.as_slice()
    }

    /// Whether it is to keep entries of the preprocessor.
    pub fn use_preprocessor_cache_mode(&self) -> bool
        ensures { result ≡ self.now.title.given.flag }
    {
        self.use_preprocessor_cache_mode
    }

    /// What type of store it is, in a word.
    pub fn cache_type_name(&self) -> &str
        ensures { result.now ≡ self.now.title.type_name }
    {
        let _title = &self.basedirs;
        "disk"
    }

    /// Where the store is, in words.
    pub fn location(&self, alloc: Global) -> Result<Text, NoMemory>
        ensures { IfOk result (λ text. text ≡ self.now.title.location) }
    {
        let text = location(alloc, self.cache.path())?;
        Ok(text)
    }

    /// The most bytes that the files of both folders may take.
    pub fn max_size(&self) -> u64
        ensures { result ≡ self.now.facts.capacity }
    {
        self.cache.max_size()
    }

    /// The mode that the store was made with.
    pub fn configured(&self) -> CacheMode
        ensures { result ≡ self.now.facts.configured }
    {
        self.cache.configured()
    }

    /// The mode that holds.
    pub fn mode(&self) -> CacheMode
        ensures { result ≡ self.now.facts.mode }
    {
        self.cache.mode()
    }

    /// The bytes that open entries have declared.
    pub fn reserved(&self) -> u64
        ensures { result ≡ self.now.room.reserved }
    {
        self.cache.reserved()
    }

    /// What every disk store keeps: its files and reservations take at most its capacity, and no path is marked at which no file
    /// stands.
    pub fn keeps(&self)
        ensures kind { self.now.facts.kind ≡ IsDisk }
        ensures bare { self.now.facts.wrapped ≡ false }
        ensures within { part_size self.now.level + self.now.room.reserved ≤ self.now.facts.capacity }
        ensures marks { KeepsMarks self.now.level self.now.level }
    {
        self.cache.keeps();
    }
}

impl<D: Disk + Drop, V: Vouch> DiskCache<D, V> {
    /// Looks a key up, tells where its file stands, or tells the store's size.
    #[tactic(auto, using(crate::proofs::Marking::disk_tells))]
    pub fn ask(&mut self, key: &Text, mode: Mode, now: u64) -> Result<Answer, NoMemory>
        ensures title { self.new.title ≡ self.old.title }
        ensures steady { Steady (disk_of self.old) (disk_of self.new) }
        ensures marks { self.new.marks ≡ self.old.marks }
        ensures mark { reads_key mode ≡ true → IfOk result (λ answer. TellsMark IsDisk self.old.marks key.now answer) }
        ensures asked { IfOk result (λ answer. AsksDisk key.now mode answer (disk_of self.old) (disk_of self.new)) }
        ensures cause { IfOk result (λ answer. AskCause mode answer key.now self.old.level self.new.level) }
        ensures bad_key { reads_key mode ≡ true → is_key key.now ≡ false → (result ≡ Ok (Answer.Refused Cause.BadKey)) × (self.new ≡ self.old) }
    {
        self.cache.ask(key, mode, now)
    }

    /// Opens an entry for a key, of this size.
    pub fn reserve(
        &mut self,
        policy: &Policy,
        key: &Text,
        size: u64,
        now: u64,
    ) -> Result<Reservation, NoMemory>
        ensures title { self.new.title ≡ self.old.title }
        ensures stays { Stays (disk_of self.old) (disk_of self.new) }
        ensures marks { IfOk result (λ how. MarksOpened how self.old.marks self.new.marks) }
        ensures marks_stay { OnErr result (self.new.marks ≡ self.old.marks) }
        ensures moved { IfOk result (λ how. ReservesDisk policy.now key.now size how (disk_of self.old) (disk_of self.new)) }
        ensures entry { IfOk result (λ how. OpensBy (entry_path key.now) size how (disk_of self.old) (disk_of self.new)) }
        ensures kept { OnErr result (SameEntries (disk_of self.old) (disk_of self.new)) }
        ensures evicts { OnErr result (EvictsFor size (disk_of self.old) (disk_of self.new)) }
        ensures cause { IfOk result (λ how. ReserveCause (causes policy.now self.old.facts self.old.room.reserved key.now size) how self.old.level self.new.level) }
        ensures early { (c : Cause) → early policy.now self.old.facts key.now ≡ Some c → (result ≡ Ok (IsNotReserved c)) × (self.new ≡ self.old) }
    {
        self.cache.reserve(policy, key, size, now)
    }

    /// Adds bytes behind those that an open entry was filled with. The first fill marks the entry where a local run made its
    /// bytes, and every further one clears that mark. A refusal closes the entry, and so does want of memory.
    pub fn fill(
        &mut self,
        entry: LruDiskCacheAddEntry,
        bytes: &[u8],
        from_run: bool,
    ) -> Result<Filling, EntryError>
        ensures title { self.new.title ≡ self.old.title }
        ensures stays { Stays (disk_of self.old) (disk_of self.new) }
        ensures marks { IfOk result (λ how. MarksFilled entry.number from_run how self.old.marks self.new.marks) }
        ensures forgotten { OnErr result (IsOpenAt entry (disk_of self.old) → Forgets entry.number self.old.marks self.new.marks) }
        ensures filled { IfOk result (λ how. IsOpenAt entry (disk_of self.old) × FillsBy entry bytes.now (filled_by from_run) how (disk_of self.old) (disk_of self.new)) }
        ensures closed { OnErr result (IsOpenAt entry (disk_of self.old) → ClosesEntry entry.number (disk_of self.old) (disk_of self.new)) }
        ensures kept { OnErr result (SameFiles self.old.level self.new.level) }
        ensures not_open { IfErr result (λ refused. refused ≡ IsNotOpen → (IsOpenAt entry (disk_of self.old) → ⊥) × (self.new ≡ self.old)) }
        ensures shut { (IsOpenAt entry (disk_of self.old) → ⊥) → result ≡ Err IsNotOpen }
    {
        self.cache.fill(entry, bytes, from_run)
    }

    /// Puts an open entry's file in its key's place, and closes the entry, also by a refusal. The key gets the mark of the
    /// entry.
    pub fn commit(&mut self, entry: LruDiskCacheAddEntry, now: u64) -> Result<Written, EntryError>
        ensures title { self.new.title ≡ self.old.title }
        ensures stays { Stays (disk_of self.old) (disk_of self.new) }
        ensures marks { IfOk result (λ how. MarksCommitted entry.number entry.key how self.old.marks self.new.marks (disk_of self.new)) }
        ensures forgotten { OnErr result (IsOpenAt entry (disk_of self.old) → Forgets entry.number self.old.marks self.new.marks) }
        ensures closed { IsOpenAt entry (disk_of self.old) → ClosesEntry entry.number (disk_of self.old) (disk_of self.new) }
        ensures committed { IfOk result (λ how. IsOpenAt entry (disk_of self.old) × CommitsEntry entry.number how (disk_of self.old) (disk_of self.new)) }
        ensures cause { IfOk result (λ how. CommitCause entry.number how (disk_of self.old) (disk_of self.new)) }
        ensures kept { OnErr result (CommitsNothing entry.number (disk_of self.old) (disk_of self.new)) }
        ensures not_open { IfErr result (λ refused. refused ≡ IsNotOpen → (IsOpenAt entry (disk_of self.old) → ⊥) × (self.new ≡ self.old)) }
        ensures shut { (IsOpenAt entry (disk_of self.old) → ⊥) → result ≡ Err IsNotOpen }
    {
        self.cache.commit(entry, now)
    }

    /// Puts a preprocessor entry under a key. Its size is not declared: it is measured once it was written.
    pub fn put_pre(
        &mut self,
        policy: &Policy,
        key: &Text,
        bytes: &[u8],
        now: u64,
    ) -> Result<Written, NoMemory>
        ensures title { self.new.title ≡ self.old.title }
        ensures stays { Stays (disk_of self.old) (disk_of self.new) }
        ensures marks { self.new.marks ≡ self.old.marks }
        ensures entries { SameEntries (disk_of self.old) (disk_of self.new) }
        ensures put { IfOk result (λ how. PutsPre policy.now key.now bytes.now how (disk_of self.old) (disk_of self.new)) }
        ensures evicts { OnErr result (EvictsFor (length bytes.now) (disk_of self.old) (disk_of self.new)) }
        ensures cause { IfOk result (λ how. PreCause (early policy.now self.old.facts key.now) bytes.now how (disk_of self.old) (disk_of self.new)) }
        ensures early { (c : Cause) → early policy.now self.old.facts key.now ≡ Some c → (result ≡ Ok (Written.Refused c)) × (self.new ≡ self.old) }
    {
        self.cache.put_pre(policy, key, bytes, now)
    }
}
