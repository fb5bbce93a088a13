ghost use Rattle.std.specs.Prelude.{◌≡◌, ◌≤◌, true, IfOk};
ghost use Rattle.sc_model.specs.Next.{at_moment};
ghost use Rattle.sc_daemon_owned.specs.State.{AreLevelsWithin, is_good, is_made, store_of, told_by, world_of};
ghost use Rattle.sc_stats.specs.Sums.{sat};
ghost use Rattle.sc_store.specs.Telling.{new_counters};

use crate::parts::Parts;
use sc_compile_dist::DistClientContainer;
use sc_entry::NoMemory;
use sc_stats::LevelStats;
use sc_store::Layered;
use std::alloc::Global;
use std::marker::Model;

/// A daemon of one's own. Contracts see what it is made of, whether its levels tell what they hold, what its parts hold
/// where they tell it, and what is open at its levels.
#[derive(Drop)]
pub struct Owned<P: Parts> {
    pub(crate) levels: Layered<P::Store, P::Disk, P::Vouch>,
    pub(crate) shop: P::Shop,
    pub(crate) finder: P::Finder,
    pub(crate) dist: DistClientContainer<P::Maker>,
    pub(crate) moment: u64,
    tokens: u64,
    pub(crate) limit: u32,
    ghost one: { is_made levels.policy levels.facts (new_counters 0 levels.titles) tokens limit ≡ true },
}

impl<P: Parts> Model for Owned<P> {
    ghost use Rattle.sc_daemon_owned.specs.Codes.{state_code};
    ghost use Rattle.sc_daemon_owned.specs.State.{State, facts_of, world_of};

    ghost Value = { State };

    ghost coded = { state_code };

    ghost view = { λ d. record {
      config = facts_of d.levels d.tokens d.limit (P.Finder.table d.finder) (P.Finder.keys d.finder) (P.Shop.lines d.shop) (P.Shop.refusals d.shop) d.dist;
      told = d.levels.told;
      world = world_of d.moment d.levels (P.Shop.runs d.shop) (P.Shop.placings d.shop) (P.Shop.fault_count d.shop) d.dist;
      rooms = d.levels.rooms;
      one = d.one;
    } };
}

impl<P: Parts> Owned<P> {
    /// A daemon over these levels, at moment 0, with so many tokens for runs (1 to 65,535); payloads have at most
    /// `limit` bytes (1 to 16,777,216).
    pub fn new(
        levels: Layered<P::Store, P::Disk, P::Vouch>,
        shop: P::Shop,
        finder: P::Finder,
        dist: DistClientContainer<P::Maker>,
        tokens: u64,
        limit: u32,
    ) -> Owned<P>
        requires levels { is_good levels.policy levels.facts ≡ true }
        requires tokens { (1 ≤ tokens) × (tokens ≤ 65535) }
        requires limit { (1 ≤ limit) × (limit ≤ 16777216) }
        ensures store { result.config.store ≡ store_of levels }
        ensures counters { result.config.counters ≡ new_counters 0 levels.titles }
        ensures levels { result.config.levels ≡ levels.facts }
        ensures policy { result.config.policy ≡ levels.policy }
        ensures tokens { result.config.tokens ≡ tokens }
        ensures limit { result.config.limit ≡ limit }
        ensures table { result.config.table ≡ P.Finder.table finder }
        ensures keys { result.config.keys ≡ P.Finder.keys finder }
        ensures lines { result.config.lines ≡ P.Shop.lines shop }
        ensures refusals { result.config.refusals ≡ P.Shop.refusals shop }
        ensures dist { result.config.dist ≡ told_by dist }
        ensures told { result.told ≡ levels.told }
        ensures rooms { result.rooms ≡ levels.rooms }
        ensures world { result.world ≡ world_of 0 levels (P.Shop.runs shop) (P.Shop.placings shop) (P.Shop.fault_count shop) dist }
    {
        let _count = levels.len();
        Owned {
            levels,
            shop,
            finder,
            dist,
            moment: 0,
            tokens,
            limit,
        }
    }

    /// Lets time pass. The clock stops at the end of `u64`.
    pub fn pass(&mut self, nanoseconds: u64)
        ensures { self.new ≡ record self.old { world = at_moment self.old.world (sat self.old.world.moment nanoseconds) } }
    {
        self.moment = self.moment.saturating_add(nanoseconds);
    }

    /// Its levels.
    pub fn levels(&self) -> &Layered<P::Store, P::Disk, P::Vouch>
        ensures facts { result.now.facts ≡ self.now.config.levels }
        ensures policy { result.now.policy ≡ self.now.config.policy }
        ensures told { result.now.told ≡ self.now.told }
        ensures levels { result.now.levels ≡ self.now.world.levels }
        ensures rooms { result.now.rooms ≡ self.now.rooms }
    {
        &self.levels
    }

    /// What its levels keep: each disk level's files and reservations take at most its capacity.
    pub fn keeps(&self)
        ensures { AreLevelsWithin self.now }
    {
        self.levels.keeps();
    }

    /// The counters of its levels as they begin: their names and places, and nothing counted.
    pub fn new_counters(&self, alloc: Global) -> Result<Vec<LevelStats>, NoMemory>
        ensures { IfOk result (λ counters. counters.items ≡ self.now.config.counters) }
    {
        let counters = self.levels.new_counters(alloc)?;
        Ok(counters)
    }

    /// Its workshop.
    pub fn shop(&self) -> &P::Shop
        ensures lines { P.Shop.lines result.now ≡ self.now.config.lines }
        ensures refusals { P.Shop.refusals result.now ≡ self.now.config.refusals }
        ensures runs { P.Shop.runs result.now ≡ self.now.world.runs }
        ensures placings { P.Shop.placings result.now ≡ self.now.world.placings }
        ensures faults { P.Shop.fault_count result.now ≡ self.now.world.shop_faults }
    {
        &self.shop
    }

    /// How many compilers may run at once.
    pub fn tokens(&self) -> u64
        ensures { result ≡ self.now.config.tokens }
    {
        self.tokens
    }
}
