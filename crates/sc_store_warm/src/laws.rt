//! What warming leaves in both stores, as laws over the relation of `warm`'s clause `each`. The target stands alone.
ghost use Rattle.std.specs.Prelude.{◌≡◌, ◌+◌, ◌≤◌, ℕ, true, false, List, Some};
ghost use Rattle.sc_disk_pair.specs.declared.part.Part.{Part};
ghost use Rattle.sc_model.specs.Evicting.{part_size};
ghost use Rattle.sc_model.specs.declared.level.LevelKind.TheVariants.{Disk as IsDisk};
ghost use Rattle.sc_store.specs.Asking.{mark_path};
ghost use Rattle.sc_store.specs.Held.{HeldLevel};
ghost use Rattle.sc_store_alone.specs.Storages.{Alone, State};
ghost use Rattle.sc_store_disk.specs.Marks.{is_marked};
ghost use Rattle.sc_store_warm.specs.Causes.{IfTells, held_under};
ghost use Rattle.sc_store_warm.specs.Outcomes.{FitEach, IsCopied, IsOther, SourceStays, StaysOrGone, copied_bytes};
ghost use Rattle.sc_store_warm.specs.Warming.{Each, WarmsKey};
ghost use Rattle.sc_store_warm.specs.declared.warmed.Warmed.{Warmed};

/// A key that was copied, and that the target still holds at the end, has the bytes under it that the source had at the call.
pub fn copied_stays()
    ensures { (keys : List (List ℕ)) (warmed : List Warmed) (from from2 : State) (to to2 : HeldLevel) → Each WarmsKey keys warmed from from2 (Alone to) (Alone to2) → to.told ≡ true
        → (key bytes : List ℕ) → IsCopied key keys warmed → held_under to2 key ≡ Some bytes → IfTells from (λ source. held_under source key ≡ Some bytes) }
{}

/// Whatever else the target held is as it was, or it is gone: a file because an eviction took it for the entry of a listed key,
/// and only where the files that stood at first, the entries that were copied before that key, what is reserved and that entry
/// took more than the capacity; an entry of a remote store because the store found it lost. No preprocessor entry is put or replaced.
pub fn others_stay()
    ensures { (keys : List (List ℕ)) (warmed : List Warmed) (from from2 : State) (to to2 : HeldLevel) → Each WarmsKey keys warmed from from2 (Alone to) (Alone to2) → to.told ≡ true
        → (part : Part) (path : List ℕ) → IsOther part to.facts.kind path keys warmed → StaysOrGone keys warmed from part path to to2 }
{}

/// The source holds what it held, but for what a remote store lost.
pub fn source_stays()
    ensures { (keys : List (List ℕ)) (warmed : List Warmed) (from from2 to to2 : State) → Each WarmsKey keys warmed from from2 to to2 → SourceStays from from2 }
{}

/// A disk store that is within its capacity, as each store is (`DiskCache::keeps`), stays so, after each key, since this holds of
/// each front of the keys. Each entry that was copied fits in the capacity beside what is reserved, neither of which changes, and
/// the files take no more bytes than before and those that were copied.
pub fn within()
    ensures within { (keys : List (List ℕ)) (warmed : List Warmed) (from from2 : State) (to to2 : HeldLevel) → Each WarmsKey keys warmed from from2 (Alone to) (Alone to2)
        → to.facts.kind ≡ IsDisk → part_size to.level + to.room.reserved ≤ to.facts.capacity → part_size to2.level + to2.room.reserved ≤ to2.facts.capacity }
    ensures same { (keys : List (List ℕ)) (warmed : List Warmed) (from from2 : State) (to to2 : HeldLevel) → Each WarmsKey keys warmed from from2 (Alone to) (Alone to2)
        → (to2.facts ≡ to.facts) × (to2.room.reserved ≡ to.room.reserved) }
    ensures fits { (keys : List (List ℕ)) (warmed : List Warmed) (from from2 : State) (to to2 : HeldLevel) → Each WarmsKey keys warmed from from2 (Alone to) (Alone to2)
        → to.facts.kind ≡ IsDisk → FitEach to.facts.capacity to.room.reserved warmed }
    ensures grows { (keys : List (List ℕ)) (warmed : List Warmed) (from from2 : State) (to to2 : HeldLevel) → Each WarmsKey keys warmed from from2 (Alone to) (Alone to2)
        → to.told ≡ true → to.facts.kind ≡ IsDisk → part_size to2.level ≤ part_size to.level + copied_bytes warmed }
{}

/// No key that was copied bears a mark in the target at the end, and no path got one.
pub fn nothing_marked()
    ensures copied { (keys : List (List ℕ)) (warmed : List Warmed) (from from2 : State) (to to2 : HeldLevel) → Each WarmsKey keys warmed from from2 (Alone to) (Alone to2)
        → (key : List ℕ) → IsCopied key keys warmed → is_marked to2.marks (mark_path to.facts.kind key) ≡ false }
    ensures fewer { (keys : List (List ℕ)) (warmed : List Warmed) (from from2 : State) (to to2 : HeldLevel) → Each WarmsKey keys warmed from from2 (Alone to) (Alone to2)
        → (path : List ℕ) → is_marked to.marks path ≡ false → is_marked to2.marks path ≡ false }
{}
