ghost use Rattle.std.specs.Prelude.{◌≡◌, None};

use sc_disk::LruDiskCacheAddEntry;
use sc_model::{Phase, What};

/// What comes of an action: its event, and where the request then stands.
#[derive(Drop)]
pub struct Acted {
    pub what: What,
    pub phase: Phase,
}

/// What comes of an action: its event, where the request then stands, and the entry of a disk level that it holds then.
#[derive(Drop)]
pub struct Action {
    pub what: What,
    pub phase: Phase,
    pub entry: Option<LruDiskCacheAddEntry>,
}

/// An action that holds no entry afterwards.
pub fn holding_none(acted: Acted) -> Action
    ensures { result ≡ record { what = acted.what; phase = acted.phase; entry = None } }
{
    let Acted { what, phase } = acted;
    Action {
        what,
        phase,
        entry: None,
    }
}
