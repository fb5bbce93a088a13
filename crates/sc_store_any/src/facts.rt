//! What any store tells to statistics.
ghost use Rattle.std.specs.Prelude.{◌≡◌, true};
ghost use Rattle.sc_store_alone.specs.Storages as storages;
ghost use Rattle.sc_store_any.specs.Telling.{told_facts};

use sc_entry::{ByteText, Items, NoMemory, Text};
use sc_stats::{LevelStats, StoreFacts};
use sc_store_alone::Storage;
use std::alloc::Global;
use std::marker::Model;

/// A store of any kind as statistics are told of it, with its size as it told it at one moment. Contracts see the store's state
/// and that size.
#[derive(Drop)]
pub struct StorageFacts<'a, S: Storage> {
    store: &'a S,
    /// The bytes that it takes, where they are known.
    current_size: Option<u64>,
}

impl<'a, S: Storage> Model for StorageFacts<'a, S> {
    ghost use Rattle.sc_store_any.specs.Telling.{IsTold, Told, told_code};

    ghost Value = { Told };

    ghost coded = { told_code };

    ghost view = { λ f. record { store = S.state f.store.now; current_size = f.current_size } };

    /// The size is the one that the store tells.
    ghost invariant = { λ f. IsTold f.current_size (S.state f.store.now) };
}

impl<'a, S: Storage> StorageFacts<'a, S> {
    /// What the store tells, with its size as it is now.
    pub fn new(store: &'a S) -> StorageFacts<'a, S>
        ensures store { result.store ≡ S.state store.now }
        ensures size { storages.tells (S.state store.now) ≡ true → result.current_size ≡ storages.size_of (S.state store.now) }
    {
        let current_size = store.current_size();
        StorageFacts {
            store,
            current_size,
        }
    }
}

impl<'a, S: Storage> StoreFacts for StorageFacts<'a, S> {
    ghost facts = { λ f. told_facts f };

    fn location(&self, alloc: Global) -> Result<Text, NoMemory> {
        self.store.location(alloc)
    }

    fn current_size(&self) -> Option<u64> {
        self.current_size
    }

    fn max_size(&self) -> Option<u64> {
        self.store.max_size()
    }

    fn multilevel_stats(&self, alloc: Global) -> Result<Option<Items<LevelStats>>, NoMemory> {
        self.store.multilevel_stats(alloc)
    }

    fn use_preprocessor_cache_mode(&self) -> bool {
        self.store.preprocessor_cache_mode_config()
    }

    fn basedirs(&self) -> &[ByteText] {
        self.store.basedirs()
    }
}
