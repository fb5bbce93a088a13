//! A store of one level, and what a daemon tells of it.
ghost use Rattle.std.specs.Prelude.{◌≡◌, [], ◌∷◌, codes, None, Some, true};

use sc_entry::{ByteText, Items, NoMemory, Text};
use sc_stats::{LevelStats, ServerInfo, ServerStats, StoreFacts};
use std::alloc::Global;
use std::test::Fail;

/// A store over levels.
#[derive(Drop)]
pub(crate) struct Levels {
    pub levels: Items<LevelStats>,
    pub basedirs: Items<ByteText>,
}

impl StoreFacts for Levels {
    ghost facts = { λ s. record { location = codes "Local disk: \"/x\""; current_size = Some 1536; max_size = Some 2560; levels = Some s.levels; use_preprocessor_cache_mode = true; basedirs = s.basedirs } };

    fn location(&self, alloc: Global) -> Result<Text, NoMemory> {
        Text::from_str(alloc, "Local disk: \"/x\"")
    }

    fn current_size(&self) -> Option<u64> {
        Some(1536)
    }

    fn max_size(&self) -> Option<u64> {
        Some(2560)
    }

    fn multilevel_stats(&self, _alloc: Global) -> Result<Option<Items<LevelStats>>, NoMemory> {
        Ok(Some(self.levels.clone()?))
    }

    fn use_preprocessor_cache_mode(&self) -> bool {
        true
    }

    fn basedirs(&self) -> &[ByteText] {
        self.basedirs.as_slice()
    }
}

fn level_named(alloc: Global, name: &str) -> Result<LevelStats, Fail> {
    let name = Text::from_str(alloc, name)?;
    Ok(LevelStats::named(name, Text::new(alloc)))
}

/// Levels of these names that counted nothing.
pub(crate) fn levels_named(alloc: Global, names: &[&str]) -> Result<Items<LevelStats>, Fail> {
    let mut levels = Items::new(alloc);
    for name in names {
        levels.push(level_named(alloc, name)?)?;
    }
    Ok(levels)
}

/// A store of one level.
fn store(alloc: Global) -> Result<Levels, Fail> {
    let levels = levels_named(alloc, &["disk"])?;
    let basedirs = Items::new(alloc);
    Ok(Levels { levels, basedirs })
}

fn info_of(alloc: Global, store: &Levels) -> Result<ServerInfo, Fail> {
    Ok(ServerInfo::new(alloc, ServerStats::new(alloc), Some(store))?)
}

/// What a daemon over such a store tells that counted nothing.
pub(crate) fn info(alloc: Global) -> Result<ServerInfo, Fail> {
    let store = store(alloc)?;
    info_of(alloc, &store)
}
