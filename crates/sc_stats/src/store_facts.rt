ghost use Rattle.std.specs.Prelude.{◌≡◌, codes, map, IfOk};
ghost use Rattle.std.specs.Str.Lossy.{utf8_lossy};
ghost use Rattle.std.specs.Option.{option_map};
ghost use Rattle.sc_stats.specs.Store.{Facts, info_of};

use crate::counters::{LevelStats, ServerInfo, ServerStats};
use sc_entry::{ByteText, Items, NoMemory, Text};
use std::alloc::Global;

/// The version that is told of every daemon.
const VERSION: &str = "0.19.0";

/// What a store tells of itself.
pub trait StoreFacts {
    ghost facts: { Self → Facts };

    /// Where the store is, in words.
    fn location(&self, alloc: Global) -> Result<Text, NoMemory>
        ensures { IfOk result (λ text. text ≡ (facts self.now).location) };

    /// The bytes that it holds, where they are known.
    fn current_size(&self) -> Option<u64>
        ensures { result ≡ (facts self.now).current_size };

    /// The bytes that it may hold, where they are limited.
    fn max_size(&self) -> Option<u64>
        ensures { result ≡ (facts self.now).max_size };

    /// What its levels count, where it has levels.
    fn multilevel_stats(&self, alloc: Global) -> Result<Option<Items<LevelStats>>, NoMemory>
        ensures { IfOk result (λ levels. levels ≡ (facts self.now).levels) };

    /// Whether entries of the preprocessor are used.
    fn use_preprocessor_cache_mode(&self) -> bool
        ensures { result ≡ (facts self.now).use_preprocessor_cache_mode };

    /// The folders that paths are taken relative to.
    fn basedirs(&self) -> &[ByteText]
        ensures { result.now ≡ (facts self.now).basedirs };
}

impl ServerInfo {
    /// Statistics with the store's levels in place of their own, and what the store tells of itself. Base
    /// directories that are no UTF-8 are read with replacement characters.
    pub fn new<S: StoreFacts>(
        alloc: Global,
        stats: ServerStats,
        storage: Option<&S>,
    ) -> Result<ServerInfo, NoMemory>
        ensures { IfOk result (λ info. info ≡ info_of stats (option_map (λ s. S.facts s.now) storage.entry)) }
    {
        match storage {
            Some(storage) => ServerInfo::of_store(alloc, stats, storage),
            None => ServerInfo::of_no_store(alloc, stats),
        }
    }

    fn of_store<S: StoreFacts>(
        alloc: Global,
        stats: ServerStats,
        store: &S,
    ) -> Result<ServerInfo, NoMemory>
        ensures { IfOk result (λ info. info ≡ info_of stats (Some (S.facts store.now))) }
    {
        let (multi_level, cache_location, version, basedirs) = told_by(alloc, store)?;
        let mut stats = stats;
        stats.multi_level = multi_level;
        Ok(ServerInfo {
            stats,
            cache_location,
            cache_size: store.current_size(),
            max_cache_size: store.max_size(),
            use_preprocessor_cache_mode: store.use_preprocessor_cache_mode(),
            version,
            basedirs,
        })
    }

    fn of_no_store(alloc: Global, stats: ServerStats) -> Result<ServerInfo, NoMemory>
        ensures { IfOk result (λ info. info ≡ info_of stats None) }
    {
        let version = Text::from_str(alloc, VERSION)?;
        let mut stats = stats;
        stats.multi_level = None;
        Ok(ServerInfo {
            stats,
            cache_location: Text::new(alloc),
            cache_size: None,
            max_cache_size: None,
            use_preprocessor_cache_mode: false,
            version,
            basedirs: Items::new(alloc),
        })
    }
}

/// What takes memory: the store's levels, its location, the version, and the base directories.
fn told_by<S: StoreFacts>(
    alloc: Global,
    store: &S,
) -> Result<(Option<Items<LevelStats>>, Text, Text, Items<Text>), NoMemory>
    ensures levels { IfOk result (λ told. told.0 ≡ (S.facts store.now).levels) }
    ensures location { IfOk result (λ told. told.1 ≡ (S.facts store.now).location) }
    ensures version { IfOk result (λ told. told.2 ≡ codes "0.19.0") }
    ensures basedirs { IfOk result (λ told. told.3 ≡ map utf8_lossy (S.facts store.now).basedirs) }
{
    let levels = store.multilevel_stats(alloc)?;
    let location = store.location(alloc)?;
    let version = Text::from_str(alloc, VERSION)?;
    let basedirs = read_lossy(alloc, store.basedirs())?;
    Ok((levels, location, version, basedirs))
}

/// Paths as texts, with replacement characters for what is no UTF-8.
fn read_lossy(alloc: Global, paths: &[ByteText]) -> Result<Items<Text>, NoMemory>
    ensures { IfOk result (λ texts. texts ≡ map utf8_lossy paths.now) }
{
    let mut texts = Vec::new(alloc);
    for path in paths {
        let text = String::from_utf8_lossy(alloc, path.as_slice())?;
        texts.push(Text::from_string(text))?;
    }
    Ok(Items::from_vec(texts))
}
