//! The entry that a run's output is stored as.
ghost use Rattle.std.specs.Prelude.{◌≡◌, ◌++◌, codes, IfOk, IsOk, OnOk, None};
ghost use Rattle.sc_entry.specs.Entries.{entry};
ghost use Rattle.sc_entry.specs.EntryAnswers.{PutAnswer, stream_object};
ghost use Rattle.sc_model.specs.Collected.{AreCollected};

use sc_entry::{ByteText, CacheWrite, NoMemory, Object, PutError};
use std::alloc::Global;

/// The entry of some objects and both streams, these left out where they are empty.
pub fn entry_of(
    alloc: Global,
    objects: &[Object],
    stdout: &[u8],
    stderr: &[u8],
) -> Result<ByteText, NoMemory>
    requires { AreCollected objects.now }
    ensures { IfOk result (λ bytes. bytes ≡ entry (objects.now ++ stream_object (codes "stdout") stdout.now ++ stream_object (codes "stderr") stderr.now)) }
{
    let mut write = CacheWrite::new(alloc)?;
    for object in objects {
        refused(write.put_object(object.name.as_str(), object.bytes.as_slice(), object.mode))?;
    }
    refused(write.put_stdout(stdout))?;
    refused(write.put_stderr(stderr))?;
    Ok(ByteText::from_vec(write.finish()))
}

/// A put that can't be refused but for want of memory.
fn refused(put: Result<(), PutError>) -> Result<(), NoMemory>
    requires { PutAnswer None put }
    ensures { OnOk result (IsOk put) }
{
    match put {
        Ok(()) => Ok(()),
        Err(PutError::NoMemory) => Err(NoMemory),
        Err(_) => unreachable!(),
    }
}
