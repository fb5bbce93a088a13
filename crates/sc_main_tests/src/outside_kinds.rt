//! Each kind of part, of an outside in memory and of this process.
use sc_clock::MemClock;
use sc_command::{Client, CommandCreator};
use sc_command_mock::MockCommandCreator;
use sc_compile::ToolTable;
use sc_disk::Disk;
use sc_entry::{ByteText, Calls, Items, MemFiles, NoMemory, Queue};
use sc_host_outside::HostOutside;
use sc_link::{MemAcceptorMaker, MemConnector};
use sc_main_outside::{MakeError, MemOutside, Outside};
use std::alloc::Global;
use std::test::Fail;

/// An outside that has no part.
fn without_parts(alloc: Global) -> Result<MemOutside, NoMemory> {
    let cwd = ByteText::from_slice(alloc, b"/w")?;
    Ok(MemOutside::new(alloc, cwd, Items::new(alloc), Calls::new(alloc)))
}

fn add_links(alloc: Global, outside: &mut MemOutside) -> Result<(), NoMemory> {
    let connector = MemConnector::new(alloc, Queue::new(alloc), Calls::new(alloc));
    outside.connectors.push_back(connector)?;
    let maker = MemAcceptorMaker::new(alloc, Queue::new(alloc), Calls::new(alloc));
    outside.acceptor_makers.push_back(maker)
}

fn add_compiling(alloc: Global, outside: &mut MemOutside) -> Result<(), NoMemory> {
    let probe = ToolTable::new(alloc, Vec::new(alloc), Vec::new(alloc))?;
    outside.probes.push_back(probe)?;
    let creator = MockCommandCreator::new((), alloc, &Client::new(alloc, 1)?)?;
    outside.creators.push_back(creator)
}

/// Adds one part of each kind.
fn add_each(alloc: Global, outside: &mut MemOutside) -> Result<(), NoMemory> {
    add_links(alloc, outside)?;
    add_compiling(alloc, outside)?;
    outside
        .files
        .push_back(MemFiles::new(alloc, Calls::new(alloc)))?;
    outside
        .clocks
        .push_back(MemClock::new(alloc, Items::new(alloc)))
}

/// Which kinds are given, in the order of the trait.
fn given<X: Outside>(outside: &mut X, client: &Client) -> [bool; 6] {
    [
        outside.connector().is_ok(),
        outside.acceptor_maker().is_ok(),
        outside.files().is_ok(),
        outside.probe().is_ok(),
        outside.creator(client).is_ok(),
        outside.clock().is_ok(),
    ]
}

/// Whether each kind is given once, and refused and counted then.
fn gives_each_once<X: Outside>(outside: &mut X, client: &Client) -> bool {
    let first = given(outside, client) == [true; 6] && outside.faults() == 0;
    first && given(outside, client) == [false; 6] && outside.faults() == 6
}

fn gives_each_again<X: Outside>(outside: &mut X, client: &Client) -> bool {
    let first = given(outside, client) == [true; 6];
    first && given(outside, client) == [true; 6] && outside.faults() == 0
}

/// Each part that it has is given once.
#[test]
fn each_of_memory(rt: HostRuntime) -> Result<(), Fail> {
    let client = Client::new(rt.alloc(), 1)?;
    let mut outside = without_parts(rt.alloc())?;
    add_each(rt.alloc(), &mut outside)?;
    assert!(rt; gives_each_once(&mut outside, &client));
    Ok(())
}

/// A process is given each part as often as it asks.
#[test]
fn each_of_host(rt: HostRuntime) -> Result<(), Fail> {
    let client = Client::new(rt.alloc(), 1)?;
    let mut outside = HostOutside::new(rt, false, false);
    assert!(rt; gives_each_again(&mut outside, &client));
    Ok(())
}

/// Whether these are the roots of a store's two disks.
fn has_roots<X: Outside>(
    outside: &mut X,
    folder: &ByteText,
    main: &[u8],
    pre: &[u8],
) -> Result<bool, MakeError> {
    let disks = outside.disks(folder)?;
    Ok(disks.0.root().as_slice() == main && disks.1.root().as_slice() == pre)
}

/// Both outsides make the disks of a store in the same folders.
#[test]
fn roots(rt: HostRuntime) -> Result<(), Fail> {
    let folder = ByteText::from_slice(rt.alloc(), b"roots")?;
    let mut memory = without_parts(rt.alloc())?;
    assert!(rt; has_roots(&mut memory, &folder, b"roots", b"roots/preprocessor")?);
    let mut host = HostOutside::new(rt, false, false);
    assert!(rt; has_roots(&mut host, &folder, b"roots", b"roots/preprocessor")?);
    Ok(())
}
