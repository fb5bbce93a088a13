use sc_compile::{ScriptWorkshop, ToolTable};
use sc_compile_dist::MemMaker;
use sc_daemon_owned::Parts;
use sc_disk::MemDisk;
use sc_store::{MemRemote, Unvouched};

/// Parts that hold all in memory, and tell it.
pub struct Memory;

impl Parts for Memory {
    type Shop = ScriptWorkshop;

    type Store = MemRemote;

    type Disk = MemDisk;

    type Vouch = Unvouched;

    type Finder = ToolTable;

    type Maker = MemMaker;
}
