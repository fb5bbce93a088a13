use crate::no_dist::NoDistMaker;
use crate::no_remote::NoRemote;
use sc_command::CommandCreator;
use sc_command_workshop::CommandWorkshop;
use sc_compile::Probe;
use sc_daemon_owned::Parts;
use sc_disk::Disk;
use sc_entry::Files;
use sc_store::Unvouched;
use std::marker::PhantomData;

/// The parts of a daemon that compiles by the commands of a creator, reads and places outputs by files, keeps its entries on
/// disks, and finds compilers by a probe. It has no store behind a network and no distributed client, and nothing is known of
/// what its runs give.
pub struct CommandParts<K, F, D, P> {
    of: PhantomData<(K, F, D, P)>,
}

impl<K, F, D, P> Parts for CommandParts<K, F, D, P>
where
    K: CommandCreator + Drop,
    K::Cmd: Drop,
    F: Files + Drop,
    D: Disk + Drop,
    P: Probe + Drop,
{
    type Shop = CommandWorkshop<K, F>;

    type Store = NoRemote;

    type Disk = D;

    type Vouch = Unvouched;

    type Finder = P;

    type Maker = NoDistMaker;
}
