//! The outside of this process.
use sc_entry::{ByteText, NoMemory};
use sc_host_outside::HostOutside;
use sc_main_outside::{MakeError, Outside};
use std::alloc::Global;
use std::fs;
use std::test::Fail;

/// Why a store has no disks; nothing where it has them.
fn refusal<X: Outside>(
    alloc: Global,
    outside: &mut X,
    folder: &[u8],
) -> Result<Option<MakeError>, NoMemory> {
    let folder = ByteText::from_slice(alloc, folder)?;
    match outside.disks(&folder) {
        Ok(_) => Ok(None),
        Err(error) => Ok(Some(error)),
    }
}

/// Folders are made, or refused and counted.
#[test]
fn stores(rt: HostRuntime) -> Result<(), Fail> {
    let mut outside = HostOutside::new(rt, false, false);
    assert!(rt; refusal(rt.alloc(), &mut outside, b"store")?.is_none());
    assert!(rt; outside.faults() == 0);
    fs::write(&rt, "plain", b"")?;
    let refused = refusal(rt.alloc(), &mut outside, b"plain/store")?;
    assert!(rt; refused == Some(MakeError::MakeFault) && outside.faults() == 1);
    Ok(())
}

/// Whether the working folder is an absolute path, and only the first stream is a terminal.
fn tells_process<X: Outside>(outside: &mut X) -> Result<bool, MakeError> {
    let found = outside.surroundings()?;
    let (out, err) = (found.outlets.out, found.outlets.err);
    Ok(found.cwd.as_slice().starts_with(b"/") && out.is_terminal && !err.is_terminal)
}

/// The working folder is an absolute path, and the flags are those that were given.
#[test]
fn process(rt: HostRuntime) -> Result<(), Fail> {
    let mut outside = HostOutside::new(rt, true, false);
    assert!(rt; tells_process(&mut outside)?);
    Ok(())
}
