//! Bytes that are appended.

ghost use Rattle.std.specs.Prelude.{◌≡◌, ◌++◌, OnOk};

use sc_entry::NoMemory;

/// Appends bytes as they are.
///
/// # Errors
///
/// `NoMemory` where there is no memory for them.
pub fn put(out: &mut Vec<u8>, bytes: &[u8]) -> Result<(), NoMemory>
    ensures { OnOk result (out.new.items ≡ out.old.items ++ bytes.now) }
{
    out.extend_from_slice(bytes)?;
    Ok(())
}
