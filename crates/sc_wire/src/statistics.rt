//! Statistics, as they travel.
ghost use Rattle.std.specs.Prelude.{◌≡◌};
ghost use Rattle.sc_wire.specs.Spans.{span};
ghost use Rattle.sc_wire.specs.Stats.{language_counts, level_stats, server_stats, server_info, dist_info};

use crate::error::DecodeError;
use crate::reader::Reader;
use crate::several::{put2, put3, put4, put5};
use crate::wire::Wire;
use sc_entry::{Counts, Items, NoMemory, Text};
use sc_stats::{DistInfo, LevelStats, PerLanguageCount, ServerInfo, ServerStats, Span};
use std::alloc::Global;

const SECOND: u32 = 1_000_000_000;

impl Wire for Span {
    ghost codec = { span };

    fn take(alloc: Global, reader: &mut Reader) -> Result<Span, DecodeError> {
        let seconds = u64::take(alloc, reader)?;
        let nanoseconds = u32::take(alloc, reader)?;
        if nanoseconds >= SECOND {
            return Err(DecodeError::BadFrame);
        }
        Ok(Span::new(seconds, nanoseconds))
    }

    fn put(&self, out: &mut Vec<u8>) -> Result<(), NoMemory> {
        put2(&self.as_secs(), &self.subsec_nanos(), out)
    }
}

impl Wire for PerLanguageCount {
    ghost codec = { language_counts };

    fn take(alloc: Global, reader: &mut Reader) -> Result<PerLanguageCount, DecodeError> {
        let (counts, adv_counts): (Counts, Counts) = Wire::take(alloc, reader)?;
        Ok(PerLanguageCount { counts, adv_counts })
    }

    fn put(&self, out: &mut Vec<u8>) -> Result<(), NoMemory> {
        put2(&self.counts, &self.adv_counts, out)
    }
}

impl Wire for LevelStats {
    ghost codec = { level_stats };

    fn take(alloc: Global, reader: &mut Reader) -> Result<LevelStats, DecodeError> {
        let (name, location): (Text, Text) = Wire::take(alloc, reader)?;
        let (hits, (misses, writes)): (u64, (u64, u64)) = Wire::take(alloc, reader)?;
        let (write_failures, (backfills_from, backfills_to)): (u64, (u64, u64)) = Wire::take(
            alloc, reader,
        )?;
        let (hit_duration, write_duration): (Span, Span) = Wire::take(alloc, reader)?;
        Ok(LevelStats {
            name,
            location,
            hits,
            misses,
            writes,
            write_failures,
            backfills_from,
            backfills_to,
            hit_duration,
            write_duration,
        })
    }

    fn put(&self, out: &mut Vec<u8>) -> Result<(), NoMemory> {
        put2(&self.name, &self.location, out)?;
        put3(&self.hits, &self.misses, &self.writes, out)?;
        put3(
            &self.write_failures,
            &self.backfills_from,
            &self.backfills_to,
            out,
        )?;
        put2(&self.hit_duration, &self.write_duration, out)
    }
}

impl Wire for ServerStats {
    ghost codec = { server_stats };

    fn take(alloc: Global, reader: &mut Reader) -> Result<ServerStats, DecodeError> {
        let (
            compile_requests,
            (
                requests_unsupported_compiler,
                (requests_not_compile, (requests_not_cacheable, requests_executed)),
            ),
        ): (u64, (u64, (u64, (u64, u64)))) = Wire::take(alloc, reader)?;
        let (cache_errors, (cache_hits, cache_misses)): (
            PerLanguageCount,
            (PerLanguageCount, PerLanguageCount),
        ) = Wire::take(alloc, reader)?;
        let (cache_timeouts, (cache_read_errors, non_cacheable_compilations)): (u64, (u64, u64)) =
            Wire::take(alloc, reader)?;
        let (forced_recaches, (cache_write_errors, cache_writes)): (u64, (u64, u64)) = Wire::take(
            alloc, reader,
        )?;
        let (
            cache_write_duration,
            (cache_read_hit_duration, (compilations, (compiler_write_duration, compile_fails))),
        ): (Span, (Span, (u64, (Span, u64)))) = Wire::take(alloc, reader)?;
        let (not_cached, (dist_compiles, (dist_errors, multi_level))): (
            Counts,
            (Counts, (u64, Option<Items<LevelStats>>)),
        ) = Wire::take(alloc, reader)?;
        Ok(ServerStats {
            compile_requests,
            requests_unsupported_compiler,
            requests_not_compile,
            requests_not_cacheable,
            requests_executed,
            cache_errors,
            cache_hits,
            cache_misses,
            cache_timeouts,
            cache_read_errors,
            non_cacheable_compilations,
            forced_recaches,
            cache_write_errors,
            cache_writes,
            cache_write_duration,
            cache_read_hit_duration,
            compilations,
            compiler_write_duration,
            compile_fails,
            not_cached,
            dist_compiles,
            dist_errors,
            multi_level,
        })
    }

    fn put(&self, out: &mut Vec<u8>) -> Result<(), NoMemory> {
        put5(
            &self.compile_requests,
            &self.requests_unsupported_compiler,
            &self.requests_not_compile,
            &self.requests_not_cacheable,
            &self.requests_executed,
            out,
        )?;
        put3(
            &self.cache_errors,
            &self.cache_hits,
            &self.cache_misses,
            out,
        )?;
        put3(
            &self.cache_timeouts,
            &self.cache_read_errors,
            &self.non_cacheable_compilations,
            out,
        )?;
        put3(
            &self.forced_recaches,
            &self.cache_write_errors,
            &self.cache_writes,
            out,
        )?;
        put5(
            &self.cache_write_duration,
            &self.cache_read_hit_duration,
            &self.compilations,
            &self.compiler_write_duration,
            &self.compile_fails,
            out,
        )?;
        put4(
            &self.not_cached,
            &self.dist_compiles,
            &self.dist_errors,
            &self.multi_level,
            out,
        )
    }
}

impl Wire for ServerInfo {
    ghost codec = { server_info };

    fn take(alloc: Global, reader: &mut Reader) -> Result<ServerInfo, DecodeError> {
        let (stats, (cache_location, cache_size)): (ServerStats, (Text, Option<u64>)) = Wire::take(
            alloc, reader,
        )?;
        let (max_cache_size, (use_preprocessor_cache_mode, (version, basedirs))): (
            Option<u64>,
            (bool, (Text, Items<Text>)),
        ) = Wire::take(alloc, reader)?;
        Ok(ServerInfo {
            stats,
            cache_location,
            cache_size,
            max_cache_size,
            use_preprocessor_cache_mode,
            version,
            basedirs,
        })
    }

    fn put(&self, out: &mut Vec<u8>) -> Result<(), NoMemory> {
        put3(&self.stats, &self.cache_location, &self.cache_size, out)?;
        put4(
            &self.max_cache_size,
            &self.use_preprocessor_cache_mode,
            &self.version,
            &self.basedirs,
            out,
        )
    }
}

impl Wire for DistInfo {
    ghost codec = { dist_info };

    fn take(alloc: Global, reader: &mut Reader) -> Result<DistInfo, DecodeError> {
        match u32::take(alloc, reader)? {
            0 => Ok(DistInfo::Disabled(Wire::take(alloc, reader)?)),
            1 => Ok(DistInfo::NotConnected(Wire::take(alloc, reader)?, Wire::take(alloc, reader)?)),
            2 => Ok(DistInfo::SchedulerStatus {
                url: Wire::take(alloc, reader)?,
                num_servers: Wire::take(alloc, reader)?,
                num_cpus: Wire::take(alloc, reader)?,
                in_progress: Wire::take(alloc, reader)?,
            }),
            _ => Err(DecodeError::BadFrame),
        }
    }

    fn put(&self, out: &mut Vec<u8>) -> Result<(), NoMemory> {
        match self {
            DistInfo::Disabled(why) => put2(&0u32, why, out),
            DistInfo::NotConnected(url, why) => put3(&1u32, url, why, out),
            DistInfo::SchedulerStatus {
                url,
                num_servers,
                num_cpus,
                in_progress,
            } => put5(&2u32, url, num_servers, num_cpus, in_progress, out),
        }
    }
}
