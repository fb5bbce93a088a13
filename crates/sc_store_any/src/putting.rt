//! Puts over levels.
ghost use Rattle.std.specs.Prelude.{◌≡◌, ◌<◌, false, IfOk, OnErr, length};
ghost use Rattle.sc_store_disk.specs.Entries.{ClosesEntry, CommitCause, CommitsEntry, FillsBy, IsOpenAt};
ghost use Rattle.sc_store_disk.specs.Marked.{MarksCommitted, MarksFilled};
ghost use Rattle.sc_store_disk.specs.Marks.{filled_by};
ghost use Rattle.sc_model.specs.Plan as plans;
ghost use Rattle.sc_model.specs.Plan.{level_facts};
ghost use Rattle.sc_model.specs.Script.{is_single};
ghost use Rattle.sc_model.specs.There.{AreHanded, AreLevels};
ghost use Rattle.sc_model.specs.Levels.{Later};
ghost use Rattle.sc_model.specs.declared.level.LevelKind.TheVariants.{Disk as IsDisk, Remote as IsRemote};
ghost use Rattle.sc_model.specs.declared.phase.Refusal.TheVariants.{NoneYet};
ghost use Rattle.sc_store_alone.specs.Moving.{Keeps, counted};
ghost use Rattle.sc_store_alone.specs.Puts as puts;
ghost use Rattle.sc_store.specs.Asking.{AloneAt};
ghost use Rattle.sc_store.specs.Held.{disk_in, level_in, marks_in};

use crate::counting::count_written;
use sc_disk::{Disk, LruDiskCacheAddEntry};
use sc_entry::{ByteText, Items, NoMemory, Queue, Text};
use sc_model::{Bytes, Handed, LevelKind, Put, Refusal, Written};
use sc_stats::LevelStats;
use sc_store::{EntryError, Filling, Layered, Remote, Reservation, Vouch};
use std::alloc::Global;

/// Puts an entry at a remote level, and at no other.
fn put_remote<R: Remote, D: Disk + Drop, V: Vouch>(
    alloc: Global,
    levels: &mut Layered<R, D, V>,
    level: usize,
    key: &Text,
    bytes: &ByteText,
    mark: bool,
) -> Result<Written, NoMemory>
    requires level { level < length levels.old.levels }
    requires remote { (level_facts levels.old.facts level).kind ≡ IsRemote }
    ensures keeps { Keeps levels.old levels.new }
    ensures wrote { IfOk result (λ how. puts.RemotePutAt level key.now bytes.now mark how levels.old levels.new) }
{
    levels.put_step(alloc, level, key, bytes, mark)
}

/// Fills an entry that is open.
fn fill<R: Remote, D: Disk + Drop, V: Vouch>(
    levels: &mut Layered<R, D, V>,
    level: usize,
    entry: LruDiskCacheAddEntry,
    bytes: &ByteText,
    mark: bool,
) -> Result<Filling, NoMemory>
    requires level { level < length levels.old.levels }
    requires disk { (level_facts levels.old.facts level).kind ≡ IsDisk }
    requires open { IsOpenAt entry (disk_in levels.old level) }
    ensures alone { AloneAt level levels.old levels.new }
    ensures later { Later (level_in levels.old.levels level) (level_in levels.new.levels level) }
    ensures filled { IfOk result (λ how. FillsBy entry bytes.now (filled_by mark) how (disk_in levels.old level) (disk_in levels.new level)) }
    ensures marks { IfOk result (λ how. MarksFilled entry.number mark how (marks_in levels.old.marks level) (marks_in levels.new.marks level)) }
    ensures closed { OnErr result (ClosesEntry entry.number (disk_in levels.old level) (disk_in levels.new level)) }
{
    match levels.fill(level, entry, bytes.as_slice(), mark) {
        Ok(how) => Ok(how),
        Err(EntryError::NoMemory) => Err(NoMemory),
        Err(EntryError::NotOpen) => unreachable!(),
    }
}

/// Commits an entry that is open.
fn commit<R: Remote, D: Disk + Drop, V: Vouch>(
    levels: &mut Layered<R, D, V>,
    level: usize,
    entry: LruDiskCacheAddEntry,
    now: u64,
) -> Result<Written, NoMemory>
    requires level { level < length levels.old.levels }
    requires disk { (level_facts levels.old.facts level).kind ≡ IsDisk }
    requires open { IsOpenAt entry (disk_in levels.old level) }
    ensures alone { AloneAt level levels.old levels.new }
    ensures later { Later (level_in levels.old.levels level) (level_in levels.new.levels level) }
    ensures closed { ClosesEntry entry.number (disk_in levels.old level) (disk_in levels.new level) }
    ensures committed { IfOk result (λ how. CommitsEntry entry.number how (disk_in levels.old level) (disk_in levels.new level)) }
    ensures cause { IfOk result (λ how. CommitCause entry.number how (disk_in levels.old level) (disk_in levels.new level)) }
    ensures marks { IfOk result (λ how. MarksCommitted entry.number entry.key how (marks_in levels.old.marks level) (marks_in levels.new.marks level) (disk_in levels.new level)) }
{
    match levels.commit(level, entry, now) {
        Ok(how) => Ok(how),
        Err(EntryError::NoMemory) => Err(NoMemory),
        Err(EntryError::NotOpen) => unreachable!(),
    }
}

/// Puts an entry at a disk level, and at no other. What it opens it closes, whatever it comes to. The key gets this mark.
fn put_disk<R: Remote, D: Disk + Drop, V: Vouch>(
    levels: &mut Layered<R, D, V>,
    level: usize,
    key: &Text,
    bytes: &ByteText,
    mark: bool,
    now: u64,
) -> Result<Written, NoMemory>
    requires level { level < length levels.old.levels }
    requires disk { (level_facts levels.old.facts level).kind ≡ IsDisk }
    ensures keeps { Keeps levels.old levels.new }
    ensures wrote { IfOk result (λ how. puts.DiskPutAt level key.now bytes.now mark how levels.old levels.new) }
{
    let entry = match levels.reserve(level, key, bytes.len() as u64, now)? {
        Reservation::Open(entry) => entry,
        Reservation::Refused(cause) => return Ok(Written::Refused(cause)),
    };
    let filled = match fill(levels, level, entry, bytes, mark)? {
        Filling::Filled(entry) => entry,
        Filling::Refused(cause) => return Ok(Written::Refused(cause)),
    };
    commit(levels, level, filled, now)
}

/// Puts an entry at one level, and at no other, and counts there what it came to.
pub(crate) fn write_level<R: Remote, D: Disk + Drop, V: Vouch>(
    alloc: Global,
    levels: &mut Layered<R, D, V>,
    counters: &mut [LevelStats],
    backfill: bool,
    level: u64,
    key: &Text,
    bytes: &ByteText,
    mark: bool,
    now: u64,
) -> Result<Written, NoMemory>
    requires { level < length levels.old.levels }
    ensures keeps { Keeps levels.old levels.new }
    ensures wrote { IfOk result (λ how. puts.WritesAt backfill level key.now bytes.now mark how (counted levels.old counters.old) (counted levels.new counters.new)) }
{
    let how = match levels.kind(level as usize) {
        LevelKind::Remote => put_remote(alloc, levels, level as usize, key, bytes, mark)?,
        LevelKind::Disk => put_disk(levels, level as usize, key, bytes, mark, now)?,
    };
    count_written(alloc, counters, level, backfill, how);
    Ok(how)
}

/// The first refusal, after a put at one more level.
fn refusal_after(how: Written, level: u64, refusal: Refusal) -> Refusal
    ensures { result ≡ puts.refusal_after how level refusal }
{
    match (how, refusal) {
        (Written::Refused(cause), Refusal::NoneYet) => Refusal::At(level, cause),
        (Written::Refused(_), Refusal::At(first, cause)) => Refusal::At(first, cause),
        (Written::Done, refusal) => refusal,
    }
}

/// Whether a refusal ends the puts: that of level 0 does.
fn ends(refusal: Refusal) -> bool
    ensures { result ≡ puts.ends refusal }
{
    match refusal {
        Refusal::NoneYet => false,
        Refusal::At(level, _) => level == 0,
    }
}

/// Puts an entry at each of these levels in order. The first refusal is the answer; that of level 0 ends the puts.
fn write_each<R: Remote, D: Disk + Drop, V: Vouch>(
    alloc: Global,
    levels: &mut Layered<R, D, V>,
    counters: &mut [LevelStats],
    plan: Queue<u64>,
    put: &Bytes,
    now: u64,
) -> Result<Refusal, NoMemory>
    requires { AreLevels (length levels.old.levels) plan }
    ensures keeps { Keeps levels.old levels.new }
    ensures wrote { IfOk result (λ refusal. puts.WritesEach plan put.now.key put.now.bytes put.now.run NoneYet refusal (counted levels.old counters.old) (counted levels.new counters.new)) }
{
    let mut refusal = Refusal::NoneYet;
    let mut left = plan;
    while let Some(level) = left.pop_front() {
        let how = write_level(
            alloc, levels, counters, false, level, &put.key, &put.bytes, put.run, now,
        )?;
        refusal = refusal_after(how, level, refusal);
        if ends(refusal) {
            return Ok(refusal);
        }
    }
    Ok(refusal)
}

/// Makes writes that were handed on, in order.
pub(crate) fn write_handed<R: Remote, D: Disk + Drop, V: Vouch>(
    alloc: Global,
    levels: &mut Layered<R, D, V>,
    counters: &mut [LevelStats],
    backfill: bool,
    handed: &[Handed],
    now: u64,
) -> Result<(), NoMemory>
    requires { AreHanded (length levels.old.levels) handed.now }
    ensures keeps { Keeps levels.old levels.new }
    ensures wrote { IfOk result (λ _. puts.WritesHanded backfill handed.now (counted levels.old counters.old) (counted levels.new counters.new)) }
{
    let mut left = handed;
    while let [write, rest @ ..] = left {
        write_level(
            alloc,
            levels,
            counters,
            backfill,
            write.level,
            &write.key,
            &write.bytes,
            write.marked,
            now,
        )?;
        left = rest;
    }
    Ok(())
}

/// The levels that are written before the answer.
fn plan_of<R: Remote, D: Disk, V: Vouch>(
    alloc: Global,
    levels: &Layered<R, D, V>,
) -> Result<Queue<u64>, NoMemory>
    requires { is_single levels.now.policy ≡ false }
    ensures plan { IfOk result (λ levels_of. levels_of ≡ plans.plan levels.now.policy levels.now.facts) }
    ensures there { IfOk result (λ levels_of. AreLevels (length levels.now.levels) levels_of) }
{
    let _count = levels.len();
    levels.plan(alloc)
}

/// The writes that a put hands on.
fn handed_by<R: Remote, D: Disk, V: Vouch>(
    alloc: Global,
    levels: &Layered<R, D, V>,
    put: &Bytes,
    refusal: Refusal,
) -> Result<Items<Handed>, NoMemory>
    ensures handed { IfOk result (λ handed. handed ≡ plans.handed_by levels.now.policy levels.now.facts put.now refusal) }
    ensures there { IfOk result (λ handed. AreHanded (length levels.now.levels) handed) }
{
    let _count = levels.len();
    levels.handed(alloc, put, refusal)
}

/// Puts an entry under a key: at the levels that have to be written, which make the answer, then at those whose writes are
/// handed on.
pub(crate) fn put<R: Remote, D: Disk + Drop, V: Vouch>(
    alloc: Global,
    levels: &mut Layered<R, D, V>,
    counters: &mut [LevelStats],
    key: &Text,
    bytes: ByteText,
    now: u64,
) -> Result<Put, NoMemory>
    requires { is_single levels.old.policy ≡ false }
    ensures keeps { Keeps levels.old levels.new }
    ensures wrote { IfOk result (λ answer. puts.Puts key.now bytes answer (counted levels.old counters.old) (counted levels.new counters.new)) }
{
    let put = Bytes {
        key: key.try_clone()?,
        bytes,
        run: false,
    };
    let plan = plan_of(alloc, levels)?;
    let refusal = write_each(alloc, levels, counters, plan, &put, now)?;
    let answer = levels.put_answer(refusal);
    let handed = handed_by(alloc, levels, &put, refusal)?;
    write_handed(alloc, levels, counters, false, handed.as_slice(), now)?;
    Ok(answer)
}
