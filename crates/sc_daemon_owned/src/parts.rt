use sc_compile::{Probe, Workshop};
use sc_compile_dist::DistMaker;
use sc_disk::Disk;
use sc_store::{Remote, Vouch};

/// The types of what a daemon is made of.
pub trait Parts {
    type Shop: Workshop + Drop;

    type Store: Remote + Drop;

    type Disk: Disk + Drop;

    type Vouch: Vouch;

    type Finder: Probe + Drop;

    type Maker: DistMaker + Drop;
}
