//! The three actions of a write at a disk level: an entry is opened, filled and committed.
ghost use Rattle.std.specs.Prelude.{◌≡◌, ◌<◌, [], length, None, Some, IfOk};
ghost use Rattle.sc_daemon_hold.specs.Holding.{HandsIn, HeldBy, Holds, KeepsIn, hand_at};
ghost use Rattle.sc_daemon_job.specs.Askers.{asker};
ghost use Rattle.sc_model.specs.Dues.{kind_at};
ghost use Rattle.sc_model.specs.World.{Need};
ghost use Rattle.sc_model.specs.declared.level.LevelKind.TheVariants.{Disk};
ghost use Rattle.sc_model.specs.declared.message.Request.{Request as Asks};

use sc_daemon_hold::Hold;
use sc_daemon_job::Since;
use sc_disk::LruDiskCacheAddEntry;
use sc_entry::NoMemory;
use sc_model::{Bytes, What, Written};
use sc_store_disk::{Filling, Reservation};
use std::alloc::Global;

/// What comes of an action at an entry of a disk level: its event, how it ended, and the entry, where it is open then.
#[derive(Drop)]
pub struct EntryAction {
    pub what: What,
    pub written: Written,
    pub entry: Option<LruDiskCacheAddEntry>,
}

/// Opens an entry for these bytes under their key.
pub fn open_entry<H: Hold>(
    alloc: Global,
    hold: &mut H,
    level: u64,
    bytes: &Bytes,
    since: Since,
) -> Result<EntryAction, NoMemory>
    requires level { level < length (H.config hold.old).levels }
    requires disk { kind_at (H.config hold.old).levels level ≡ Disk }
    ensures what { IfOk result (λ a. a.what ≡ What.Reserved level bytes.now.key (length bytes.now.bytes) a.written) }
    ensures held { IfOk result (λ a. HeldBy a.written (H.rooms hold.new) level a.entry bytes.now [] None) }
    ensures hands { IfOk result (λ a. HandsIn (H.rooms hold.old) a.what None (hand_at a.entry level (length bytes.now.bytes))) }
    ensures others { IfOk result (λ a. KeepsIn None (H.rooms hold.old) (H.rooms hold.new)) }
    ensures moves { IfOk result (λ a. (n : Need) (r : Asks) → H.moves hold.old (asker since n r) a.what hold.new) }
    ensures same { IfOk result (λ a. H.config hold.new ≡ H.config hold.old) }
{
    let key = bytes.key.try_clone()?;
    let size = bytes.bytes.len() as u64;
    let how = hold.reserve(alloc, level, bytes, since)?;
    match how {
        Reservation::Open(entry) => Ok(EntryAction {
            what: What::Reserved(level, key, size, Written::Done),
            written: Written::Done,
            entry: Some(entry),
        }),
        Reservation::Refused(cause) => Ok(EntryAction {
            what: What::Reserved(level, key, size, Written::Refused(cause)),
            written: Written::Refused(cause),
            entry: None,
        }),
    }
}

/// Fills an entry with the bytes that it was opened for.
pub fn fill_entry<H: Hold>(
    alloc: Global,
    hold: &mut H,
    level: u64,
    entry: LruDiskCacheAddEntry,
    bytes: &Bytes,
    since: Since,
) -> Result<EntryAction, NoMemory>
    requires level { level < length (H.config hold.old).levels }
    requires disk { kind_at (H.config hold.old).levels level ≡ Disk }
    requires holds { Holds (H.rooms hold.old) level entry bytes.now [] None }
    ensures what { IfOk result (λ a. a.what ≡ What.Filled level bytes.now.key bytes.now.bytes bytes.now.run a.written) }
    ensures held { IfOk result (λ a. HeldBy a.written (H.rooms hold.new) level a.entry bytes.now bytes.now.bytes (Some bytes.now.run)) }
    ensures hands { IfOk result (λ a. HandsIn (H.rooms hold.old) a.what (hand_at (Some entry) level (length bytes.now.bytes)) (hand_at a.entry level (length bytes.now.bytes))) }
    ensures others { IfOk result (λ a. KeepsIn (hand_at (Some entry) level (length bytes.now.bytes)) (H.rooms hold.old) (H.rooms hold.new)) }
    ensures moves { IfOk result (λ a. (n : Need) (r : Asks) → H.moves hold.old (asker since n r) a.what hold.new) }
    ensures same { IfOk result (λ a. H.config hold.new ≡ H.config hold.old) }
{
    let how = hold.fill(alloc, level, entry, bytes, since)?;
    let key = bytes.key.try_clone()?;
    let copy = bytes.bytes.try_clone()?;
    let run = bytes.run;
    match how {
        Filling::Filled(entry) => Ok(EntryAction {
            what: What::Filled(level, key, copy, run, Written::Done),
            written: Written::Done,
            entry: Some(entry),
        }),
        Filling::Refused(cause) => Ok(EntryAction {
            what: What::Filled(level, key, copy, run, Written::Refused(cause)),
            written: Written::Refused(cause),
            entry: None,
        }),
    }
}

/// Commits an entry that was filled.
pub fn commit_entry<H: Hold>(
    alloc: Global,
    hold: &mut H,
    level: u64,
    entry: LruDiskCacheAddEntry,
    bytes: &Bytes,
    since: Since,
) -> Result<EntryAction, NoMemory>
    requires level { level < length (H.config hold.old).levels }
    requires disk { kind_at (H.config hold.old).levels level ≡ Disk }
    requires holds { Holds (H.rooms hold.old) level entry bytes.now bytes.now.bytes (Some bytes.now.run) }
    ensures what { IfOk result (λ a. a.what ≡ What.Committed level bytes.now.key bytes.now.bytes a.written) }
    ensures entry { IfOk result (λ a. a.entry ≡ None) }
    ensures hands { IfOk result (λ a. HandsIn (H.rooms hold.old) a.what (hand_at (Some entry) level (length bytes.now.bytes)) None) }
    ensures others { IfOk result (λ a. KeepsIn (hand_at (Some entry) level (length bytes.now.bytes)) (H.rooms hold.old) (H.rooms hold.new)) }
    ensures moves { IfOk result (λ a. (n : Need) (r : Asks) → n.mark ≡ bytes.now.run → H.moves hold.old (asker since n r) a.what hold.new) }
    ensures same { IfOk result (λ a. H.config hold.new ≡ H.config hold.old) }
{
    let written = hold.commit(alloc, level, entry, bytes, since)?;
    let key = bytes.key.try_clone()?;
    let copy = bytes.bytes.try_clone()?;
    Ok(EntryAction {
        what: What::Committed(level, key, copy, written),
        written,
        entry: None,
    })
}
