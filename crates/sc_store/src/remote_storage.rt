ghost use Rattle.std.specs.Prelude.{◌≡◌, ℕ, true, false, is_some, Some, Ok, IfOk, OnErr, OnOk};
ghost use Rattle.sc_store_disk.specs.Marks.{Sets, no_marks};
ghost use Rattle.sc_entry.specs.Entries.{objects};
ghost use Rattle.sc_entry.specs.Keys.{IsStoreKey, is_store_key as is_key, normalize_key as key_path};
ghost use Rattle.sc_model.specs.Plan.{reads_only};
ghost use Rattle.sc_model.specs.Script.{is_single as single};
ghost use Rattle.sc_model.specs.Asking.{Asks};
ghost use Rattle.sc_model.specs.Levels.{KeepsMarks, Later};
ghost use Rattle.sc_model.specs.WriteCauses.{early_cause as early};
ghost use Rattle.sc_model.specs.declared.level.Cause.{Cause};
ghost use Rattle.sc_model.specs.declared.level.LevelKind.TheVariants.{Remote as IsRemote};
ghost use Rattle.sc_store.specs.Asking as asking;
ghost use Rattle.sc_store.specs.Checking as checking;
ghost use Rattle.sc_store.specs.Held.{as_configured, held_remote, remote_facts, remote_given, remote_level};
ghost use Rattle.sc_store.specs.Telling.{kind_max};

use crate::checked::Checked;
use crate::remote::{Remote, RemoteRead, RemoteWrite};
use crate::vouch::Vouch;
use sc_disk::{FileKey, is_store_key, normalize_key};
use sc_entry::{ByteText, CacheMode, Items, NoMemory, Text};
use sc_model::{Answer, Cause, LevelKind, Mode, Policy, RemoteFault, Store, Written};
use sc_store_disk::{Marks, mode_answer};
use std::alloc::Global;
use std::marker::{Model, PhantomData};

/// A store over a remote. Contracts see what does not change of it, and what it holds where the remote tells that.
#[derive(Drop)]
pub struct RemoteStorage<R: Remote, V: Vouch> {
    remote: R,
    basedirs: Items<ByteText>,
    configured: CacheMode,
    mode: CacheMode,
    skip_cache_check: bool,
    marks: Marks,
    of: PhantomData<V>,
}

impl<R: Remote, V: Vouch> Model for RemoteStorage<R, V> {
    ghost use Rattle.sc_store.specs.Held.{HeldLevel, held_level_code, held_remote, modes_of, remote_given};

    ghost Value = { HeldLevel };

    ghost coded = { held_level_code };

    ghost view = { λ s. held_remote (R.names s.remote) (remote_given s.basedirs s.skip_cache_check) (modes_of s.configured s.mode) (R.held s.remote) (R.fault_count s.remote) (R.loss_count s.remote) (R.calls s.remote) (R.reached s.remote) s.marks };
}

/// What a read's answer tells of a key that has this mark.
fn raw_answer(found: RemoteRead, mark: bool) -> Answer
    ensures { result ≡ asking.raw_answer found mark }
{
    match found {
        RemoteRead::Found(bytes) => Answer::Hit(bytes, mark),
        RemoteRead::NotFound => Answer::Miss,
        RemoteRead::Refused(fault) => Answer::Refused(Cause::RemoteFault(fault)),
    }
}

/// Whether a lookup reads what stands under a key.
fn reads_key(mode: Mode) -> bool
    ensures { result ≡ asking.reads_key mode }
{
    match mode {
        Mode::Whole | Mode::Raw => true,
        _ => false,
    }
}

fn written_of(answer: RemoteWrite) -> Written
    ensures { result ≡ asking.written_of answer }
{
    match answer {
        RemoteWrite::Done => Written::Done,
        RemoteWrite::Refused(fault) => Written::Refused(Cause::RemoteFault(fault)),
    }
}

/// Takes the mark of a path where a lookup found nothing.
fn forget_lost(marks: &mut Marks, path: &FileKey, raw: &Answer)
    ensures { asking.ForgetsLost raw.now path.now marks.old marks.new }
{
    match raw {
        Answer::Miss => marks.clear(path),
        Answer::Hit(_, _) => {}
        Answer::Refused(_) => {}
        Answer::Found(_) => {}
        Answer::Size(_, _) => {}
    }
}

/// Gives a path the mark that its write is to leave: memory may be wanting for that, and is not after the write.
fn begin(marks: &mut Marks, path: &FileKey, from_run: bool) -> Result<(), NoMemory>
    ensures begun { OnOk result (Sets path.now from_run marks.old marks.new) }
    ensures err { OnErr result (marks.new ≡ marks.old) }
{
    if from_run {
        marks.mark(path)?;
    } else {
        marks.clear(path);
    }
    Ok(())
}

/// Takes the mark of a path whose write was refused.
fn unless_done(marks: &mut Marks, path: &FileKey, answer: RemoteWrite)
    ensures { asking.EndsWrite answer path.now marks.old marks.new }
{
    if let RemoteWrite::Refused(_) = answer {
        marks.clear(path);
    }
}

/// Why the read of a check ends it: one that came too often doesn't.
fn refusal_of(read: &RemoteRead) -> Option<RemoteFault>
    ensures { result ≡ checking.refusal_of read.now }
{
    match read {
        RemoteRead::Refused(RemoteFault::RateLimited) => None,
        RemoteRead::Refused(RemoteFault::AlreadyExists) => Some(RemoteFault::AlreadyExists),
        RemoteRead::Refused(RemoteFault::Other) => Some(RemoteFault::Other),
        RemoteRead::Found(_) => None,
        RemoteRead::NotFound => None,
    }
}

/// Whether a store can be written, by the write of its check.
fn written_mode(how: RemoteWrite) -> CacheMode
    ensures { result ≡ checking.written_mode how }
{
    match how {
        RemoteWrite::Done => CacheMode::ReadWrite,
        RemoteWrite::Refused(RemoteFault::AlreadyExists) => CacheMode::ReadWrite,
        RemoteWrite::Refused(_) => CacheMode::ReadOnly,
    }
}

fn is_single(policy: &Policy) -> bool
    ensures { result ≡ single policy.now }
{
    match policy {
        Policy::Single => true,
        Policy::Levels(_) => false,
    }
}

/// Whether a store of this mode refuses each put.
pub(crate) fn is_read_only(mode: CacheMode) -> bool
    ensures { result ≡ reads_only mode }
{
    match mode {
        CacheMode::ReadOnly => true,
        CacheMode::ReadWrite => false,
    }
}

/// Why a write is refused before the device is called: the mode of a single store, then the key.
fn early_cause(policy: &Policy, configured: CacheMode, key: &Text) -> Option<Cause>
    ensures { result ≡ early policy.now (remote_facts (as_configured configured)) key.now }
{
    if is_single(policy) && is_read_only(configured) {
        return Some(Cause::ReadOnly(Store::Remote));
    }
    if is_store_key(key) {
        None
    } else {
        Some(Cause::BadKey)
    }
}

/// What a remote store answers without a read: it keeps no preprocessor entries, and has neither paths nor a size.
fn fixed_answer(mode: Mode) -> Answer
    ensures { result ≡ asking.fixed_answer mode }
{
    match mode {
        Mode::Size => Answer::Size(None, None),
        _ => Answer::Miss,
    }
}

impl<R: Remote, V: Vouch> RemoteStorage<R, V> {
    /// A store over a remote, with these base directories, and its configured mode.
    pub fn new(
        alloc: Global,
        remote: R,
        basedirs: Items<ByteText>,
        mode: CacheMode,
    ) -> RemoteStorage<R, V>
        ensures { result ≡ held_remote (R.names remote) (remote_given basedirs false) (as_configured mode) (R.held remote) (R.fault_count remote) (R.loss_count remote) (R.calls remote) (R.reached remote) no_marks }
    {
        RemoteStorage {
            remote,
            basedirs,
            configured: mode,
            mode,
            skip_cache_check: false,
            marks: Marks::new(alloc),
            of: PhantomData,
        }
    }

    /// The same store; a check of it makes no call where this says so.
    pub fn with_skip_cache_check(self, skip_cache_check: bool) -> RemoteStorage<R, V>
        ensures { result ≡ record self { title = record self.title { given = record self.title.given { unchecked = skip_cache_check } } } }
    {
        RemoteStorage {
            remote: self.remote,
            basedirs: self.basedirs,
            configured: self.configured,
            mode: self.mode,
            skip_cache_check,
            marks: self.marks,
            of: PhantomData,
        }
    }

    /// The base directories that it was given, in order.
    pub fn basedirs(&self) -> &[ByteText]
        ensures { result.now ≡ self.now.title.given.basedirs }
    {
        self.basedirs.as_slice()
    }

    pub fn remote(&self) -> &R
        ensures told { self.now.told ≡ is_some (R.held result.now) }
        ensures level { self.now.level ≡ remote_level (R.held result.now) (R.fault_count result.now) (R.loss_count result.now) (R.calls result.now) (R.reached result.now) self.now.marks }
    {
        &self.remote
    }

    /// Whether it is to keep entries of the preprocessor: a remote store never is.
    pub fn use_preprocessor_cache_mode(&self) -> bool
        ensures { result ≡ self.now.title.given.flag }
    {
        let _title = &self.configured;
        false
    }

    /// What type of store it is, in a word.
    pub fn cache_type_name(&self) -> &str
        ensures { result.now ≡ self.now.title.type_name }
    {
        let _title = &self.configured;
        self.remote.scheme()
    }

    /// Where the store is, in words.
    pub fn location(&self, alloc: Global) -> Result<Text, NoMemory>
        ensures { IfOk result (λ text. text ≡ self.now.title.location) }
    {
        let _title = &self.configured;
        let mut text = String::from_str(alloc, self.remote.scheme())?;
        text.push_str(", name: ")?;
        text.push_str(self.remote.name())?;
        text.push_str(", prefix: ")?;
        text.push_str(self.remote.root())?;
        Ok(Text::from_string(text))
    }

    /// The most bytes that it may take: that isn't known of a remote.
    pub fn max_size(&self) -> Option<u64>
        ensures { result ≡ kind_max self.now.facts.kind self.now.facts.capacity }
    {
        let _facts = &self.configured;
        None
    }

    /// What kind of store it is.
    pub fn kind(&self) -> LevelKind
        ensures kind { result ≡ self.now.facts.kind }
        ensures remote { self.now.facts.kind ≡ IsRemote }
        ensures bare { self.now.facts.wrapped ≡ false }
        ensures marks { KeepsMarks self.now.level self.now.level }
    {
        let _facts = &self.configured;
        LevelKind::Remote
    }

    /// The bytes that open entries have declared: a remote store has none.
    pub fn reserved(&self) -> u64
        ensures { result ≡ self.now.room.reserved }
    {
        let _facts = &self.configured;
        0
    }

    /// The mode that the store was made with.
    pub fn configured(&self) -> CacheMode
        ensures { result ≡ self.now.facts.configured }
    {
        self.configured
    }

    /// The mode that holds: what the last check found, or the configured one.
    pub fn mode(&self) -> CacheMode
        ensures { result ≡ self.now.facts.mode }
    {
        self.mode
    }

    /// What stands under a store key, as it is, by the key's path. A hit tells the mark of its key, and a miss takes it: what stood
    /// there is lost.
    #[tactic(auto, using(crate::proofs::Devices::later_same))]
    fn find(&mut self, alloc: Global, key: &Text, path: &FileKey) -> Result<Answer, NoMemory>
        requires key { IsStoreKey key.now }
        requires path { path.now ≡ key_path key.now }
        ensures marks { IfOk result (λ answer. asking.ForgetsLost answer path.now self.old.marks self.new.marks) }
        ensures fewer { asking.Fewer self.old.marks self.new.marks }
        ensures mark { IfOk result (λ answer. asking.TellsMark IsRemote self.old.marks key.now answer) }
        ensures title { self.new.title ≡ self.old.title }
        ensures facts { self.new.facts ≡ self.old.facts }
        ensures told { self.new.told ≡ self.old.told }
        ensures room { self.new.room ≡ self.old.room }
        ensures later { Later self.old.level self.new.level }
        ensures asked { IfOk result (λ answer. self.old.told ≡ true → (r : ℕ) → Asks objects self.old.facts r key.now Mode.Raw answer self.old.level self.new.level) }
        ensures cause { IfOk result (λ answer. asking.AskCause Mode.Raw answer key.now self.old.level self.new.level) }
    {
        let mark = self.marks.is_marked(path);
        let found = self.remote.read(alloc, path.as_text())?;
        let raw = raw_answer(found, mark);
        forget_lost(&mut self.marks, path, &raw);
        Ok(raw)
    }

    /// Looks a key up. A bad key is found before the remote is called. A hit tells the mark of its key, and a miss takes it.
    #[tactic(auto, using(crate::proofs::Devices::later_same))]
    pub fn ask(&mut self, alloc: Global, key: &Text, mode: Mode) -> Result<Answer, NoMemory>
        ensures title { self.new.title ≡ self.old.title }
        ensures facts { self.new.facts ≡ self.old.facts }
        ensures told { self.new.told ≡ self.old.told }
        ensures room { self.new.room ≡ self.old.room }
        ensures later { Later self.old.level self.new.level }
        ensures asked { IfOk result (λ answer. asking.AsksLevel key.now mode answer self.old self.new) }
        ensures cause { IfOk result (λ answer. asking.AskCause mode answer key.now self.old.level self.new.level) }
        ensures bad_key { asking.reads_key mode ≡ true → is_key key.now ≡ false → (result ≡ Ok (Answer.Refused Cause.BadKey)) × (self.new ≡ self.old) }
        ensures no_read { asking.reads_key mode ≡ false → (result ≡ Ok (asking.fixed_answer mode)) × (self.new ≡ self.old) }
        ensures mark { asking.reads_key mode ≡ true → IfOk result (λ answer. asking.TellsMark IsRemote self.old.marks key.now answer) }
        ensures marks { IfOk result (λ answer. asking.MarksAsked IsRemote mode key.now answer self.old.marks self.new.marks) }
        ensures fewer { asking.Fewer self.old.marks self.new.marks }
    {
        let _facts = &self.configured;
        if !reads_key(mode) {
            return Ok(fixed_answer(mode));
        }
        if !is_store_key(key) {
            return Ok(Answer::Refused(Cause::BadKey));
        }
        let path = FileKey::new(normalize_key(alloc, key)?);
        let raw = self.find(alloc, key, &path)?;
        let answer = mode_answer(alloc, mode, raw)?;
        Ok(answer)
    }

    /// Puts an entry under a key. The mode of a single store and then the key are looked at before the remote is called. The
    /// flag says whether a local run made the bytes: a write that is done gives its key that mark, one that the remote refused
    /// takes it.
    #[tactic(auto, using(crate::proofs::Devices::later_same))]
    pub fn put_step(
        &mut self,
        alloc: Global,
        policy: &Policy,
        key: &Text,
        bytes: &ByteText,
        from_run: bool,
    ) -> Result<Written, NoMemory>
        ensures marks { IfOk result (λ how. asking.MarksWrote key.now from_run how self.old.marks self.new.marks) }
        ensures fewer { OnErr result (asking.Fewer self.old.marks self.new.marks) }
        ensures title { self.new.title ≡ self.old.title }
        ensures facts { self.new.facts ≡ self.old.facts }
        ensures told { self.new.told ≡ self.old.told }
        ensures room { self.new.room ≡ self.old.room }
        ensures later { Later self.old.level self.new.level }
        ensures wrote { IfOk result (λ how. asking.PutsLevel policy.now key.now bytes.now from_run how self.old self.new) }
        ensures cause { IfOk result (λ how. asking.PutCause (early policy.now self.old.facts key.now) how self.old.level self.new.level) }
        ensures early { (c : Cause) → early policy.now self.old.facts key.now ≡ Some c → (result ≡ Ok (Written.Refused c)) × (self.new ≡ self.old) }
    {
        if let Some(cause) = early_cause(policy, self.configured, key) {
            return Ok(Written::Refused(cause));
        }
        let path = FileKey::new(normalize_key(alloc, key)?);
        begin(&mut self.marks, &path, from_run)?;
        let Ok(answer) = self.remote.write(alloc, path.as_text(), bytes) else {
            self.marks.clear(&path);
            return Err(NoMemory);
        };
        unless_done(&mut self.marks, &path, answer);
        Ok(written_of(answer))
    }

    /// Reads the file that a check reads.
    #[tactic(auto, using(crate::proofs::Devices::later_same))]
    fn read_check(&mut self, alloc: Global) -> Result<RemoteRead, NoMemory>
        ensures title { self.new.title ≡ self.old.title }
        ensures marks { self.new.marks ≡ self.old.marks }
        ensures facts { self.new.facts ≡ self.old.facts }
        ensures told { self.new.told ≡ self.old.told }
        ensures room { self.new.room ≡ self.old.room }
        ensures later { Later self.old.level self.new.level }
        ensures read { IfOk result (λ read. checking.ReadsCheck read self.old.told self.old.level self.new.level) }
    {
        let path = Text::from_str(alloc, ".sccache_check")?;
        let read = self.remote.read(alloc, &path)?;
        Ok(read)
    }

    /// Writes it.
    #[tactic(auto, using(crate::proofs::Devices::later_same))]
    fn write_check(&mut self, alloc: Global) -> Result<RemoteWrite, NoMemory>
        ensures title { self.new.title ≡ self.old.title }
        ensures marks { self.new.marks ≡ self.old.marks }
        ensures facts { self.new.facts ≡ self.old.facts }
        ensures told { self.new.told ≡ self.old.told }
        ensures room { self.new.room ≡ self.old.room }
        ensures later { Later self.old.level self.new.level }
        ensures wrote { IfOk result (λ how. checking.WritesCheck how self.old.told self.old.level self.new.level) }
    {
        let path = Text::from_str(alloc, ".sccache_check")?;
        let greeting = ByteText::from_slice(alloc, b"Hello, World!")?;
        let how = self.remote.write(alloc, &path, &greeting)?;
        Ok(how)
    }

    /// What a check finds where its read passed.
    #[tactic(auto, using(crate::proofs::Devices::later_same))]
    fn greet(&mut self, alloc: Global) -> Result<Checked, NoMemory>
        ensures title { self.new.title ≡ self.old.title }
        ensures marks { self.new.marks ≡ self.old.marks }
        ensures facts { self.new.facts ≡ self.old.facts }
        ensures told { self.new.told ≡ self.old.told }
        ensures room { self.new.room ≡ self.old.room }
        ensures later { Later self.old.level self.new.level }
        ensures found { IfOk result (λ answer. checking.Greets self.old.facts.configured answer self.old.told self.old.level self.new.level) }
    {
        if is_read_only(self.configured) {
            return Ok(Checked::Mode(CacheMode::ReadOnly));
        }
        let how = self.write_check(alloc)?;
        Ok(Checked::Mode(written_mode(how)))
    }

    /// What a check finds, by why its read ends it.
    #[tactic(auto, using(crate::proofs::Devices::later_same))]
    fn conclude(&mut self, alloc: Global, refusal: Option<RemoteFault>) -> Result<Checked, NoMemory>
        ensures title { self.new.title ≡ self.old.title }
        ensures marks { self.new.marks ≡ self.old.marks }
        ensures facts { self.new.facts ≡ self.old.facts }
        ensures told { self.new.told ≡ self.old.told }
        ensures room { self.new.room ≡ self.old.room }
        ensures later { Later self.old.level self.new.level }
        ensures found { IfOk result (λ answer. checking.Finds refusal self.old.facts.configured answer self.old.told self.old.level self.new.level) }
    {
        match refusal {
            Some(fault) => Ok(Checked::Refused(Cause::RemoteFault(fault))),
            None => self.greet(alloc),
        }
    }

    /// What a check finds that isn't left out.
    #[tactic(auto, using(crate::proofs::Devices::later_then))]
    fn probe(&mut self, alloc: Global) -> Result<Checked, NoMemory>
        ensures title { self.new.title ≡ self.old.title }
        ensures marks { self.new.marks ≡ self.old.marks }
        ensures facts { self.new.facts ≡ self.old.facts }
        ensures told { self.new.told ≡ self.old.told }
        ensures room { self.new.room ≡ self.old.room }
        ensures later { Later self.old.level self.new.level }
        ensures found { IfOk result (λ answer. checking.Probes self.old.facts.configured answer self.old.told self.old.level self.new.level) }
    {
        let read = self.read_check(alloc)?;
        let refusal = refusal_of(&read);
        self.conclude(alloc, refusal)
    }

    /// Finds out whether the store can be read, and whether it can be written. The mode that was found holds from then on.
    #[tactic(auto, using(crate::proofs::Devices::later_same))]
    pub fn check(&mut self, alloc: Global) -> Result<Checked, NoMemory>
        ensures title { self.new.title ≡ self.old.title }
        ensures marks { self.new.marks ≡ self.old.marks }
        ensures facts { IfOk result (λ answer. self.new.facts ≡ checking.facts_after self.old.facts answer) }
        ensures facts_stay { OnErr result (self.new.facts ≡ self.old.facts) }
        ensures told { self.new.told ≡ self.old.told }
        ensures room { self.new.room ≡ self.old.room }
        ensures later { Later self.old.level self.new.level }
        ensures checked { IfOk result (λ answer. checking.ChecksLevel answer self.old self.new) }
    {
        if self.skip_cache_check {
            self.mode = self.configured;
            return Ok(Checked::Mode(self.configured));
        }
        let found = self.probe(alloc)?;
        if let Checked::Mode(mode) = found {
            self.mode = mode;
        }
        Ok(found)
    }
}
