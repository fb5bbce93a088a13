//! Two folders that are opened as one store when it is first needed.
ghost use Rattle.std.specs.Prelude.{◌≡◌, ℕ, Bool, true, false, ◌||◌, is_some, Option, Some, None, [], IfErr, IfSome, OnErr, OnOk};
ghost use Rattle.std.specs.Option.{option_copied, option_copied_mut};
ghost use Rattle.sc_entry.specs.Causes.{IfTold};
ghost use Rattle.sc_disk.specs.Disks.{files_now};
ghost use Rattle.sc_disk.specs.Opening.{IsReopened, RefusesOpening, Reopens};
ghost use Rattle.sc_disk.specs.Refusals.{DiskRefusal};
ghost use Rattle.sc_disk.specs.Sound.{IsSound};
ghost use Rattle.sc_disk.specs.Store.{IsTidy};
ghost use Rattle.sc_disk_pair.specs.Pairs.{root_of};
ghost use Rattle.sc_disk_pair.specs.Twos.{TwoState, disk_of, joined_state, joins};

use crate::pair_cache::PairCache;
use crate::part::Part;
use crate::two::Two;
use sc_disk::{Disk, Error};
use sc_entry::ByteText;
use std::alloc::Global;

/// A store of two folders that is opened when it is first needed.
///
/// A clause sees the store as `opened` once it is opened, and its two disks as `disks` until then.
#[derive(Drop)]
pub struct LazyPair<D: Disk> {
    alloc: Global,
    max_size: u64,
    disks: Option<Two<D>>,
    opened: Option<PairCache<D>>,
    ghost one: { (is_some disks || is_some opened) ≡ true },
}

impl<D: Disk> LazyPair<D> {
    /// A store of this capacity on two disks, which isn't opened yet.
    pub fn new(alloc: Global, main: D, pre: D, max_size: u64) -> LazyPair<D>
        ensures disks { result.disks ≡ Some (joins (D.state main) (D.state pre)) }
        ensures opened { result.opened ≡ None }
        ensures max_size { result.max_size ≡ max_size }
    {
        LazyPair {
            alloc,
            max_size,
            disks: Some(Two::new(alloc, main, pre)),
            opened: None,
        }
    }

    /// Whether the store is opened.
    pub fn is_opened(&self) -> bool
        ensures opened { result ≡ is_some self.now.opened }
        ensures disks { result ≡ false → is_some self.now.disks ≡ true }
    {
        self.opened.is_some()
    }
}

impl<D: Disk + Drop> LazyPair<D> {
    /// Opens the store, unless it is opened. A refusal leaves both disks.
    pub fn get_or_init(&mut self, now: u64) -> Result<(), Error>
        ensures opened { OnOk result (is_some self.new.opened ≡ true) }
        ensures same { is_some self.old.opened ≡ true → OnOk result (self.new.opened ≡ self.old.opened) }
        ensures ok { OnOk result ((was : TwoState) → self.old.opened ≡ None → self.old.disks ≡ Some was → IfSome self.new.opened (λ c. Reopens self.old.max_size c.store.index (joined_state was) c.store.disk × IfTold was.told (λ r. IsReopened self.old.max_size (files_now r) c.store.index) × (c.store.capacity ≡ self.old.max_size) × (c.store.pending.slots ≡ []) × IsTidy c.store × (c.pre_root ≡ was.pre.root) × IsSound c.store)) }
        ensures unopened { OnErr result ((self.old.opened ≡ None) × (self.new.opened ≡ None)) }
        ensures err { IfErr result (λ refused. (was : TwoState) × (left : TwoState) × (self.old.disks ≡ Some was) × (self.new.disks ≡ Some left) × RefusesOpening self.old.max_size (joined_state was) (joined_state left) × DiskRefusal (joined_state was).faults (joined_state left).faults refused) }
        ensures max_size { self.new.max_size ≡ self.old.max_size }
    {
        if self.opened.is_some() {
            return Ok(());
        }
        let Some(disks) = self.disks.take() else {
            unreachable!()
        };
        match PairCache::open(self.alloc, disks, self.max_size, now) {
            Ok(cache) => {
                cache.keeps();
                self.opened = Some(cache);
                Ok(())
            }
            Err(refused) => {
                self.disks = Some(refused.disk);
                Err(refused.error)
            }
        }
    }
}

impl<D: Disk> LazyPair<D> {
    ghost use Rattle.std.specs.Borrow.{sem};
    ghost use Rattle.sc_disk_pair.specs.LazyLends.{lends_opened};

    /// The store, once it is opened.
    pub fn get(&mut self) -> Option<&mut PairCache<D>>
        ensures* writes_back { sem 𝓛 (lends_opened D.row D.Disk self.entry result) }
        ensures value { option_copied_mut result ≡ self.old.opened }
    {
        self.opened.as_mut()
    }

    /// The store, once it is opened, to be read.
    pub fn peek(&self) -> Option<&PairCache<D>>
        ensures { option_copied result ≡ self.now.opened }
    {
        self.opened.as_ref()
    }

    /// Both disks, until the store is opened.
    pub fn disks(&self) -> Option<&Two<D>>
        ensures disks { option_copied result ≡ self.now.disks }
        ensures unopened { self.now.opened ≡ None → is_some result ≡ true }
    {
        self.disks.as_ref()
    }

    /// The most bytes that the files of both parts may take together.
    pub fn capacity(&self) -> u64
        ensures { result ≡ self.now.max_size }
    {
        self.max_size
    }

    /// The path that a part's files stand under.
    pub fn path(&self, part: Part) -> &ByteText
        ensures opened { IfSome self.now.opened (λ c. result.now ≡ root_of part c.store.disk.root c.pre_root) }
        ensures disks { self.now.opened ≡ None → IfSome self.now.disks (λ d. result.now ≡ (disk_of part d).root) }
    {
        match &self.opened {
            Some(cache) => cache.path(part),
            None => self.unopened(part),
        }
    }

    // The path of a part, while the store isn't opened.
    fn unopened(&self, part: Part) -> &ByteText
        requires { self.now.opened ≡ None }
        ensures { IfSome self.now.disks (λ d. result.now ≡ (disk_of part d).root) }
    {
        match &self.disks {
            Some(disks) => disks.disk(part).root(),
            None => unreachable!(),
        }
    }
}
