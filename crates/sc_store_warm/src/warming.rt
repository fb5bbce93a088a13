//! Copies entries from one store into another.
ghost use Rattle.std.specs.Prelude.{◌≡◌, ◌≢◌, IfOk, OnErr};
ghost use Rattle.sc_store_alone.specs.declared.storage_error.StorageError.TheVariants.{NoMemory as MemoryIsOut};
ghost use Rattle.sc_store_warm.specs.Causes.{AbsentWhere, CopiedWhere, FromRefusedWhere, ToRefusedWhere, TornWhere};
ghost use Rattle.sc_store_alone.specs.Storages.{KeepsStore};
ghost use Rattle.sc_store_warm.specs.Warming.{Each, PutsAs, SpelledAs, Stops, StopsKey, WarmsKey, WarmsWith};

use crate::warmed::Warmed;
use sc_entry::{ByteText, CacheRead, NoMemory, ReadEntryError, Text};
use sc_store_alone::{Storage, StorageError};
use std::alloc::Global;

/// A store's refusal, unless the store wanted memory.
fn refusal_of(error: StorageError) -> Result<StorageError, NoMemory>
    ensures { IfOk result (λ refusal. (refusal ≡ error) × (refusal ≢ MemoryIsOut)) }
{
    match error {
        StorageError::NoMemory => Err(NoMemory),
        refusal => Ok(refusal),
    }
}

/// The same bytes, where they spell an entry.
fn spelled(alloc: Global, bytes: ByteText) -> Result<Option<ByteText>, NoMemory>
    ensures { IfOk result (λ found. SpelledAs bytes found) }
{
    match CacheRead::from(alloc, bytes) {
        Ok(entry) => Ok(Some(entry.into_bytes())),
        Err(ReadEntryError::BadEntry) => Ok(None),
        Err(ReadEntryError::NoMemory) => Err(NoMemory),
    }
}

/// Puts an entry's bytes at the target, which is told that no local run made them.
fn put<B: Storage>(
    alloc: Global,
    to: &mut B,
    key: &Text,
    bytes: ByteText,
    now: u64,
) -> Result<Warmed, NoMemory>
    ensures keeps { KeepsStore (B.state to.old) (B.state to.new) }
    ensures put { IfOk result (λ warmed. PutsAs key.now bytes warmed (B.state to.old) (B.state to.new)) }
{
    let size = bytes.len() as u64;
    match to.put_raw(alloc, key, bytes, now) {
        Ok(()) => Ok(Warmed::Copied(size)),
        Err(error) => Ok(Warmed::ToRefused(refusal_of(error)?)),
    }
}

/// Copies the entry of one key.
fn warm_key<A: Storage, B: Storage>(
    alloc: Global,
    from: &mut A,
    to: &mut B,
    key: &Text,
    now: u64,
) -> Result<Warmed, NoMemory>
    ensures warmed { IfOk result (λ warmed. WarmsKey key.now warmed (A.state from.old) (A.state from.new) (B.state to.old) (B.state to.new)) }
    ensures stopped { OnErr result (StopsKey key.now (A.state from.old) (A.state from.new) (B.state to.old) (B.state to.new)) }
{
    let found = match from.get_raw(alloc, key, now) {
        Ok(found) => found,
        Err(error) => return Ok(Warmed::FromRefused(refusal_of(error)?)),
    };
    let Some(bytes) = found else {
        return Ok(Warmed::Absent);
    };
    let Some(bytes) = spelled(alloc, bytes)? else {
        return Ok(Warmed::Torn);
    };
    put(alloc, to, key, bytes, now)
}

/// Copies the entries of these keys, in order, from one store into another, and tells what became of each; a key that is
/// listed twice is copied twice. Each entry is tested before it is put, and its bytes are moved, not copied. A refusal ends its
/// own key alone. Where memory runs out the call ends, and what was copied by then stays. The moment is that of each read and
/// put, in nanoseconds.
pub fn warm<A: Storage, B: Storage>(
    alloc: Global,
    from: &mut A,
    to: &mut B,
    keys: &[Text],
    now: u64,
) -> Result<Vec<Warmed>, NoMemory>
    // Each key was read once, and then put at most once, as any store does that.
    ensures each { IfOk result (λ told. Each WarmsKey keys.now told.items (A.state from.old) (A.state from.new) (B.state to.old) (B.state to.new)) }

    // What became of a key, by what the stores hold.
    ensures absent { IfOk result (λ told. Each (WarmsWith AbsentWhere) keys.now told.items (A.state from.old) (A.state from.new) (B.state to.old) (B.state to.new)) }
    ensures torn { IfOk result (λ told. Each (WarmsWith TornWhere) keys.now told.items (A.state from.old) (A.state from.new) (B.state to.old) (B.state to.new)) }
    ensures copied { IfOk result (λ told. Each (WarmsWith CopiedWhere) keys.now told.items (A.state from.old) (A.state from.new) (B.state to.old) (B.state to.new)) }

    // Why a store refused.
    ensures from_refused { IfOk result (λ told. Each (WarmsWith FromRefusedWhere) keys.now told.items (A.state from.old) (A.state from.new) (B.state to.old) (B.state to.new)) }
    ensures to_refused { IfOk result (λ told. Each (WarmsWith ToRefusedWhere) keys.now told.items (A.state from.old) (A.state from.new) (B.state to.old) (B.state to.new)) }

    // Where memory ran out, some first keys were done.
    ensures stopped { OnErr result (Stops keys.now (A.state from.old) (A.state from.new) (B.state to.old) (B.state to.new)) }
{
    let mut told = Vec::with_capacity(alloc, keys.len())?;
    for key in keys {
        let warmed = warm_key(alloc, from, to, key, now)?;
        told.push(warmed)?;
    }
    Ok(told)
}
