//! Lookups at a disk store.
ghost use Rattle.std.specs.Prelude.{◌≡◌, ◌+◌, ◌++◌, ◌∷◌, ℕ, List, true, false, is_some, Ok, IfOk};
ghost use Rattle.sc_store_disk.specs.DiskStores.{bare_disk, count_of, held_disk, if_opened, indexed_bytes};
ghost use Rattle.sc_store_disk.specs.Marked.{TellsMark, marks_of, with_mark};
ghost use Rattle.sc_store_disk.specs.Marks.{is_marked};
ghost use Rattle.sc_store_disk.specs.Moving.{AskCause, AsksDisk, HasFile, OpensFor, ReadsAt, Steady, hit_or_miss, reads_key};
ghost use Rattle.sc_entry.specs.Keys.{IsStoreKey, is_file_key, is_store_key as is_key, make_key_path as make_path};
ghost use Rattle.sc_model.specs.Asking.{level_size};
ghost use Rattle.sc_model.specs.declared.event.Answer.TheVariants.{Refused as IsRefused};
ghost use Rattle.sc_model.specs.declared.level.Cause.TheVariants.{BadKey as IsBadKey};
ghost use Rattle.sc_model.specs.declared.level.LevelKind.TheVariants.{Disk as IsDisk};
ghost use Rattle.sc_disk_pair.specs.Parts.{in_part};
ghost use Rattle.sc_disk_pair.specs.declared.part.Part.TheVariants.{Main};

use crate::entry_cache::EntryCache;
use crate::reading::{read, touch};
use crate::whole::mode_answer;
use sc_disk::{Disk, FileKey, is_store_key, make_key_path, normalize_key};
use sc_disk_pair::{Part, part_key};
use sc_entry::{ByteText, NoMemory, Text};
use sc_model::{Answer, Cause, Mode};
use std::alloc::Global;

impl<D: Disk> EntryCache<D> {
    /// The bytes of the files of both folders, and those that open entries have declared. None until it is opened.
    pub fn current_size(&self) -> Option<u64>
        ensures size { result ≡ if_opened (held_disk self.now).level.opened (indexed_bytes self.now + (held_disk self.now).reserved) }
        ensures told { (held_disk self.now).told ≡ true → result ≡ level_size IsDisk (held_disk self.now).level (held_disk self.now).reserved }
    {
        match self.pair.peek() {
            Some(cache) => {
                cache.keeps();
                Some(cache.size())
            }
            None => None,
        }
    }

    /// How many files of both folders it has indexed. None until it is opened.
    pub fn current_len(&self) -> Option<usize>
        ensures told { (held_disk self.now).told ≡ true → result ≡ if_opened (held_disk self.now).level.opened (count_of (held_disk self.now).level.main + count_of (held_disk self.now).level.pre) }
    {
        match self.pair.peek() {
            Some(cache) => {
                cache.keeps();
                Some(cache.len())
            }
            None => None,
        }
    }

    /// What stands at a path of a part of the opened store.
    fn look(&mut self, part: Part, path: &FileKey, now: u64) -> Result<Answer, NoMemory>
        requires lent { is_some self.old.pair.opened ≡ true }
        requires key { is_file_key path.now ≡ true }
        ensures steady { Steady (bare_disk self.old) (bare_disk self.new) }
        ensures marks { marks_of self.new ≡ marks_of self.old }
        ensures answer { IfOk result (λ answer. ReadsAt part path.now answer (bare_disk self.old).told (bare_disk self.old).level (bare_disk self.new).level) }
        ensures opened { (bare_disk self.new).level.opened ≡ true }
    {
        let Some(cache) = self.pair.get() else {
            unreachable!()
        };
        read(cache, part, path, now)
    }
}

impl<D: Disk> EntryCache<D> {
    /// Whether a file stands at a path of the main part of the opened store. It becomes the most recently used.
    fn touch(&mut self, path: &FileKey) -> Result<bool, NoMemory>
        requires lent { is_some self.old.pair.opened ≡ true }
        requires key { is_file_key path.now ≡ true }
        ensures steady { Steady (bare_disk self.old) (bare_disk self.new) }
        ensures marks { marks_of self.new ≡ marks_of self.old }
        ensures there { IfOk result (λ there. HasFile path.now there (bare_disk self.old).told (bare_disk self.new).level) }
        ensures opened { (bare_disk self.new).level.opened ≡ true }
    {
        let Some(cache) = self.pair.get() else {
            unreachable!()
        };
        touch(cache, path)
    }
}

/// A path under a root.
fn path_under(alloc: Global, root: &ByteText, path: &FileKey) -> Result<ByteText, NoMemory>
    ensures { IfOk result (λ whole. whole ≡ root.now ++ 47 ∷ path.now) }
{
    let mut whole = ByteText::from_slice(alloc, root.as_slice())?;
    whole.push(b'/')?;
    whole.append(path.as_text().as_bytes())?;
    Ok(whole)
}

impl<D: Disk + Drop> EntryCache<D> {
    /// What stands at a path of the main part; the store is opened for it.
    fn find(&mut self, path: &FileKey, now: u64) -> Result<Answer, NoMemory>
        requires { is_file_key path.now ≡ true }
        ensures steady { Steady (bare_disk self.old) (bare_disk self.new) }
        ensures marks { marks_of self.new ≡ marks_of self.old }
        ensures answer { IfOk result (λ answer. ReadsAt Part.Main path.now answer (bare_disk self.old).told (bare_disk self.old).level (bare_disk self.new).level) }
        ensures opened { IfOk result (λ answer. OpensFor answer (bare_disk self.new).level.opened) }
    {
        if !self.open(now)? {
            return Ok(Answer::Refused(Cause::Io));
        }
        self.look(Part::Main, path, now)
    }

    /// What stands at a path of the main part, as this lookup tells it, but without its mark.
    fn ask_at(&mut self, path: &FileKey, mode: Mode, now: u64) -> Result<Answer, NoMemory>
        requires mode { reads_key mode ≡ true }
        requires key { is_file_key path.now ≡ true }
        ensures steady { Steady (bare_disk self.old) (bare_disk self.new) }
        ensures marks { marks_of self.new ≡ marks_of self.old }
        ensures asked { IfOk result (λ answer. (key : List ℕ) → IsStoreKey key → path.now ≡ make_path key → AsksDisk key mode (with_mark (is_marked (marks_of self.old) (in_part Main path.now)) answer) (held_disk self.old) (held_disk self.new)) }
        ensures cause { IfOk result (λ answer. (key : List ℕ) → IsStoreKey key → path.now ≡ make_path key → AskCause mode answer key (held_disk self.old).level (held_disk self.new).level) }
    {
        let raw = self.find(path, now)?;
        mode_answer(self.alloc, mode, raw)
    }

    /// The same answer: a hit of the file at a path of the main part tells its mark.
    fn marked(&self, path: &FileKey, answer: Answer) -> Result<Answer, NoMemory>
        ensures { IfOk result (λ told. told ≡ with_mark (is_marked (marks_of self.now) (in_part Main path.now)) answer) }
    {
        match answer {
            Answer::Hit(bytes, _) => {
                let both = part_key(self.alloc, Part::Main, path)?;
                let mark = self.marks.is_marked(&both);
                Ok(Answer::Hit(bytes, mark))
            }
            other => Ok(other),
        }
    }

    /// Looks an entry up. A bad key is found before the store is opened.
    #[tactic(auto, using(crate::proofs::KeyPaths::entry_key))]
    fn ask_entry(&mut self, key: &Text, mode: Mode, now: u64) -> Result<Answer, NoMemory>
        requires { reads_key mode ≡ true }
        ensures steady { Steady (bare_disk self.old) (bare_disk self.new) }
        ensures marks { marks_of self.new ≡ marks_of self.old }
        ensures asked { IfOk result (λ answer. AsksDisk key.now mode answer (held_disk self.old) (held_disk self.new)) }
        ensures cause { IfOk result (λ answer. AskCause mode answer key.now (held_disk self.old).level (held_disk self.new).level) }
        ensures mark { IfOk result (λ answer. TellsMark (marks_of self.old) key.now answer) }
        ensures bad_key { is_key key.now ≡ false → (result ≡ Ok (IsRefused IsBadKey)) × (self.new ≡ self.old) }
    {
        if !is_store_key(key) {
            return Ok(Answer::Refused(Cause::BadKey));
        }
        let path = FileKey::new(make_key_path(self.alloc, key)?);
        let answer = self.ask_at(&path, mode, now)?;
        self.marked(&path, answer)
    }

    /// Looks a preprocessor entry up. A refused read is a miss, and so is a bad key; a refused opening alone is told.
    #[tactic(auto, using(crate::proofs::KeyPaths::pre_key))]
    fn ask_pre(&mut self, key: &Text, now: u64) -> Result<Answer, NoMemory>
        ensures steady { Steady (bare_disk self.old) (bare_disk self.new) }
        ensures marks { marks_of self.new ≡ marks_of self.old }
        ensures asked { IfOk result (λ answer. AsksDisk key.now Mode.Pre answer (held_disk self.old) (held_disk self.new)) }
        ensures cause { IfOk result (λ answer. AskCause Mode.Pre answer key.now (held_disk self.old).level (held_disk self.new).level) }
    {
        if !is_store_key(key) {
            return Ok(Answer::Miss);
        }
        let path = FileKey::new(normalize_key(self.alloc, key)?);
        if !self.open(now)? {
            return Ok(Answer::Refused(Cause::Io));
        }
        let answer = self.look(Part::Pre, &path, now)?;
        Ok(unless_refused(answer))
    }

    /// Where the file of a key stands. The key becomes the most recently used in memory alone. A bad key, an absent one and a
    /// refused opening have none.
    #[tactic(auto, using(crate::proofs::KeyPaths::entry_key))]
    fn ask_path(&mut self, key: &Text, now: u64) -> Result<Answer, NoMemory>
        ensures steady { Steady (bare_disk self.old) (bare_disk self.new) }
        ensures marks { marks_of self.new ≡ marks_of self.old }
        ensures asked { IfOk result (λ answer. AsksDisk key.now Mode.Path answer (held_disk self.old) (held_disk self.new)) }
        ensures cause { IfOk result (λ answer. AskCause Mode.Path answer key.now (held_disk self.old).level (held_disk self.new).level) }
    {
        if !is_store_key(key) {
            return Ok(Answer::Miss);
        }
        let path = FileKey::new(make_key_path(self.alloc, key)?);
        if !self.open(now)? {
            return Ok(Answer::Miss);
        }
        if !self.touch(&path)? {
            return Ok(Answer::Miss);
        }
        let whole = path_under(self.alloc, self.path(), &path)?;
        Ok(Answer::Found(whole))
    }

    /// Looks a key up, tells where its file stands, or tells the store's size.
    pub fn ask(&mut self, key: &Text, mode: Mode, now: u64) -> Result<Answer, NoMemory>
        ensures steady { Steady (held_disk self.old) (held_disk self.new) }
        ensures asked { IfOk result (λ answer. AsksDisk key.now mode answer (held_disk self.old) (held_disk self.new)) }
        ensures cause { IfOk result (λ answer. AskCause mode answer key.now (held_disk self.old).level (held_disk self.new).level) }
        ensures marks { marks_of self.new ≡ marks_of self.old }
        ensures mark { reads_key mode ≡ true → IfOk result (λ answer. TellsMark (marks_of self.old) key.now answer) }
        ensures bad_key { reads_key mode ≡ true → is_key key.now ≡ false → (result ≡ Ok (IsRefused IsBadKey)) × (self.new ≡ self.old) }
    {
        match mode {
            Mode::Whole | Mode::Raw => self.ask_entry(key, mode, now),
            Mode::Pre => self.ask_pre(key, now),
            Mode::Size => Ok(Answer::Size(self.current_size(), None)),
            Mode::Path => self.ask_path(key, now),
        }
    }
}

/// A refusal as a miss.
fn unless_refused(answer: Answer) -> Answer
    ensures { result ≡ hit_or_miss answer }
{
    match answer {
        Answer::Refused(_) => Answer::Miss,
        other => other,
    }
}
