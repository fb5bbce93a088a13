ghost use Rattle.std.specs.Prelude.{◌≡◌, IfOk};

use crate::span::Span;
use sc_entry::{Counts, Items, Text};
use std::alloc::AllocError;

/// Counts by a language's kind, and by language and compiler.
#[derive(Drop)]
pub struct PerLanguageCount {
    pub counts: Counts,
    pub adv_counts: Counts,
}

/// What one level of a store counts.
#[derive(Drop)]
pub struct LevelStats {
    pub name: Text,
    pub location: Text,
    pub hits: u64,
    pub misses: u64,
    pub writes: u64,
    pub write_failures: u64,
    /// Levels that were handed a hit of this one.
    pub backfills_from: u64,
    /// Hits of later levels that were written here.
    pub backfills_to: u64,
    pub hit_duration: Span,
    pub write_duration: Span,
}

/// What the daemon counts.
#[derive(Drop)]
pub struct ServerStats {
    pub compile_requests: u64,
    pub requests_unsupported_compiler: u64,
    pub requests_not_compile: u64,
    pub requests_not_cacheable: u64,
    pub requests_executed: u64,
    pub cache_errors: PerLanguageCount,
    pub cache_hits: PerLanguageCount,
    pub cache_misses: PerLanguageCount,
    pub cache_timeouts: u64,
    pub cache_read_errors: u64,
    pub non_cacheable_compilations: u64,
    pub forced_recaches: u64,
    pub cache_write_errors: u64,
    pub cache_writes: u64,
    pub cache_write_duration: Span,
    pub cache_read_hit_duration: Span,
    pub compilations: u64,
    pub compiler_write_duration: Span,
    pub compile_fails: u64,
    /// Requests that could not be cached, by their reason.
    pub not_cached: Counts,
    /// Compilations that were done elsewhere, by server.
    pub dist_compiles: Counts,
    pub dist_errors: u64,
    pub multi_level: Option<Items<LevelStats>>,
}

/// The statistics of a daemon, and what its store tells of itself.
#[derive(Drop)]
pub struct ServerInfo {
    pub stats: ServerStats,
    pub cache_location: Text,
    pub cache_size: Option<u64>,
    pub max_cache_size: Option<u64>,
    pub use_preprocessor_cache_mode: bool,
    pub version: Text,
    pub basedirs: Items<Text>,
}

/// How distributed compilation stands.
#[derive(Drop)]
pub enum DistInfo {
    Disabled(Text),
    NotConnected(Option<Text>, Text),
    SchedulerStatus {
        url: Option<Text>,
        num_servers: u64,
        num_cpus: u64,
        in_progress: u64,
    },
}

impl Clone for PerLanguageCount {
    ghost is_clone = { λ original copy. copy ≡ original };

    fn clone(&self) -> Result<PerLanguageCount, AllocError> {
        Ok(PerLanguageCount {
            counts: self.counts.clone()?,
            adv_counts: self.adv_counts.clone()?,
        })
    }
}

impl Clone for LevelStats {
    ghost is_clone = { λ original copy. copy ≡ original };

    fn clone(&self) -> Result<LevelStats, AllocError> {
        let name = self.name.clone()?;
        let location = self.location.clone()?;
        Ok(LevelStats {
            name,
            location,
            hits: self.hits,
            misses: self.misses,
            writes: self.writes,
            write_failures: self.write_failures,
            backfills_from: self.backfills_from,
            backfills_to: self.backfills_to,
            hit_duration: self.hit_duration.copy(),
            write_duration: self.write_duration.copy(),
        })
    }
}

fn copy_of_levels(
    levels: &Option<Items<LevelStats>>,
) -> Result<Option<Items<LevelStats>>, AllocError>
    ensures { IfOk result (λ copy. copy ≡ levels.now) }
{
    match levels {
        Some(levels) => Ok(Some(levels.clone()?)),
        None => Ok(None),
    }
}

/// Copies of the errors, the hits and the misses of the cache.
fn copies_by_language(
    stats: &ServerStats,
) -> Result<(PerLanguageCount, PerLanguageCount, PerLanguageCount), AllocError>
    ensures errors { IfOk result (λ copies. copies.0 ≡ stats.now.cache_errors) }
    ensures hits { IfOk result (λ copies. copies.1 ≡ stats.now.cache_hits) }
    ensures misses { IfOk result (λ copies. copies.2 ≡ stats.now.cache_misses) }
{
    let errors = stats.cache_errors.clone()?;
    let hits = stats.cache_hits.clone()?;
    let misses = stats.cache_misses.clone()?;
    Ok((errors, hits, misses))
}

/// Copies of the reasons of what was not cached, of the servers, and of the levels.
fn copies_by_name(
    stats: &ServerStats,
) -> Result<(Counts, Counts, Option<Items<LevelStats>>), AllocError>
    ensures not_cached { IfOk result (λ copies. copies.0 ≡ stats.now.not_cached) }
    ensures dist_compiles { IfOk result (λ copies. copies.1 ≡ stats.now.dist_compiles) }
    ensures multi_level { IfOk result (λ copies. copies.2 ≡ stats.now.multi_level) }
{
    let not_cached = stats.not_cached.clone()?;
    let dist_compiles = stats.dist_compiles.clone()?;
    let multi_level = copy_of_levels(&stats.multi_level)?;
    Ok((not_cached, dist_compiles, multi_level))
}

impl Clone for ServerStats {
    ghost is_clone = { λ original copy. copy ≡ original };

    fn clone(&self) -> Result<ServerStats, AllocError> {
        let (cache_errors, cache_hits, cache_misses) = copies_by_language(self)?;
        let (not_cached, dist_compiles, multi_level) = copies_by_name(self)?;
        Ok(ServerStats {
            compile_requests: self.compile_requests,
            requests_unsupported_compiler: self.requests_unsupported_compiler,
            requests_not_compile: self.requests_not_compile,
            requests_not_cacheable: self.requests_not_cacheable,
            requests_executed: self.requests_executed,
            cache_errors,
            cache_hits,
            cache_misses,
            cache_timeouts: self.cache_timeouts,
            cache_read_errors: self.cache_read_errors,
            non_cacheable_compilations: self.non_cacheable_compilations,
            forced_recaches: self.forced_recaches,
            cache_write_errors: self.cache_write_errors,
            cache_writes: self.cache_writes,
            cache_write_duration: self.cache_write_duration.copy(),
            cache_read_hit_duration: self.cache_read_hit_duration.copy(),
            compilations: self.compilations,
            compiler_write_duration: self.compiler_write_duration.copy(),
            compile_fails: self.compile_fails,
            not_cached,
            dist_compiles,
            dist_errors: self.dist_errors,
            multi_level,
        })
    }
}

impl Clone for ServerInfo {
    ghost is_clone = { λ original copy. copy ≡ original };

    fn clone(&self) -> Result<ServerInfo, AllocError> {
        let cache_location = self.cache_location.clone()?;
        let version = self.version.clone()?;
        let basedirs = self.basedirs.clone()?;
        let stats = self.stats.clone()?;
        Ok(ServerInfo {
            stats,
            cache_location,
            cache_size: self.cache_size,
            max_cache_size: self.max_cache_size,
            use_preprocessor_cache_mode: self.use_preprocessor_cache_mode,
            version,
            basedirs,
        })
    }
}

fn copy_of_text(text: &Option<Text>) -> Result<Option<Text>, AllocError>
    ensures { IfOk result (λ copy. copy ≡ text.now) }
{
    match text {
        Some(text) => Ok(Some(text.clone()?)),
        None => Ok(None),
    }
}

impl Clone for DistInfo {
    ghost is_clone = { λ original copy. copy ≡ original };

    fn clone(&self) -> Result<DistInfo, AllocError> {
        match self {
            DistInfo::Disabled(text) => Ok(DistInfo::Disabled(text.clone()?)),
            DistInfo::NotConnected(url, text) => {
                Ok(DistInfo::NotConnected(copy_of_text(url)?, text.clone()?))
            }
            DistInfo::SchedulerStatus {
                url,
                num_servers,
                num_cpus,
                in_progress,
            } => Ok(DistInfo::SchedulerStatus {
                url: copy_of_text(url)?,
                num_servers: *num_servers,
                num_cpus: *num_cpus,
                in_progress: *in_progress,
            }),
        }
    }
}
