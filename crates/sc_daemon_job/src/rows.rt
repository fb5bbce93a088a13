//! What an event of a request counts.
ghost use Rattle.std.specs.Prelude.{◌≡◌, ◌&&◌, ◌++◌, not, codes, bytes_eq, IfOk};
ghost use Rattle.sc_model.specs.Rows.{began_row, missed_row, parsed_row, reason, verdict_row, with_dist, written_row};
ghost use Rattle.sc_model.specs.declared.message.Compile.{Compile as CompileRequest};
ghost use Rattle.sc_model.specs.declared.message.Request.{Request as Asks};
ghost use Rattle.sc_model.specs.declared.message.Request.TheVariants.{Compile as OfCompile};
ghost use Rattle.sc_stats.specs.Sums.{no_stats, one_of};
ghost use Rattle.sc_daemon_job.specs.Languages.{counted_once as counted_task};
ghost use Rattle.sc_daemon_job.specs.Askers.{is_compile};
ghost use Rattle.sc_daemon_job.specs.Setups.{Config, setup};

use sc_entry::{Counts, NoMemory, Text};
use sc_model::{DistType, MissType, Parsed, Put, Request, Task, Told, Verdict};
use sc_stats::{PerLanguageCount, ServerStats, Span};
use std::alloc::Global;

/// One text, counted once.
fn counted_once(alloc: Global, text: &Text) -> Result<Counts, NoMemory>
    ensures { IfOk result (λ c. c ≡ one_of text.now) }
{
    let mut counts = Counts::new(alloc);
    counts.add(text, 1)?;
    Ok(counts)
}

/// One compile, counted by its language and its compiler.
fn one_compile(alloc: Global, task: Task) -> Result<PerLanguageCount, NoMemory>
    ensures { IfOk result (λ l. l ≡ counted_task task) }
{
    let kind = Text::from_str(alloc, task.kind.lang_kind(&task.language))?;
    let full = task.kind.lang_comp_kind(alloc, &task.language)?;
    Ok(PerLanguageCount {
        counts: counted_once(alloc, &kind)?,
        adv_counts: counted_once(alloc, &full)?,
    })
}

/// Whether the reason is a crate type, and which one is told beside it.
fn names_crate_type(why: &Text, extra: &Text) -> bool
    ensures { result ≡ (bytes_eq why.now (codes "crate-type") && not (bytes_eq extra.now (codes "no crate-type passed"))) }
{
    why.as_bytes() == b"crate-type".as_slice()
        && extra.as_bytes() != b"no crate-type passed".as_slice()
}

fn crate_type_reason(alloc: Global, extra: &Text) -> Result<Text, NoMemory>
    ensures { IfOk result (λ t. t ≡ codes "crate-type (" ++ extra.now ++ codes ")") }
{
    let mut text = String::from_str(alloc, "crate-type (")?;
    text.push_str(extra.as_str())?;
    text.push_str(")")?;
    Ok(Text::from_string(text))
}

/// The reason that is counted for a compile that can't be cached.
fn counted_reason(alloc: Global, why: &Text, extra: &Option<Text>) -> Result<Text, NoMemory>
    ensures { IfOk result (λ t. t ≡ reason why.now extra.now) }
{
    let Some(extra) = extra else {
        return why.try_clone();
    };
    if names_crate_type(why, extra) {
        crate_type_reason(alloc, extra)
    } else {
        why.try_clone()
    }
}

fn requested(alloc: Global) -> ServerStats
    ensures { result ≡ record no_stats { compile_requests = 1 } }
{
    let mut row = ServerStats::new(alloc);
    row.compile_requests = 1;
    row
}

fn row_of_not_cacheable(
    alloc: Global,
    why: &Text,
    extra: &Option<Text>,
) -> Result<ServerStats, NoMemory>
    ensures { IfOk result (λ r. r ≡ record no_stats { compile_requests = 1; requests_not_cacheable = 1; not_cached = one_of (reason why.now extra.now) }) }
{
    let mut row = requested(alloc);
    row.requests_not_cacheable = 1;
    row.not_cached = counted_once(alloc, &counted_reason(alloc, why, extra)?)?;
    Ok(row)
}

/// What the reading of a compile's words counts.
pub fn row_of_parsed(alloc: Global, parsed: &Parsed) -> Result<ServerStats, NoMemory>
    ensures { IfOk result (λ r. r ≡ parsed_row parsed.now) }
{
    match parsed {
        Parsed::Started(_) => Ok(requested(alloc)),
        Parsed::NotCompile => {
            let mut row = requested(alloc);
            row.requests_not_compile = 1;
            Ok(row)
        }
        Parsed::CannotCache(why, extra) => row_of_not_cacheable(alloc, why, extra),
        Parsed::Unsupported(_) => {
            let mut row = requested(alloc);
            row.requests_unsupported_compiler = 1;
            Ok(row)
        }
    }
}

/// What the beginning of a compile counts.
fn row_of_compile(alloc: Global, told: &Told) -> Result<ServerStats, NoMemory>
    ensures { IfOk result (λ r. (c : CompileRequest) → r ≡ began_row (OfCompile c) told.now) }
{
    match told {
        Told::Compile(parsed) => row_of_parsed(alloc, parsed),
        Told::Stats(_) => Ok(ServerStats::new(alloc)),
        Told::Dist(_) => Ok(ServerStats::new(alloc)),
        Told::Handshake(_) => Ok(ServerStats::new(alloc)),
        Told::Valid(_) => Ok(ServerStats::new(alloc)),
        Told::Nothing => Ok(ServerStats::new(alloc)),
    }
}

/// What the beginning of a request counts.
pub fn row_of_began(alloc: Global, request: &Request, told: &Told) -> Result<ServerStats, NoMemory>
    ensures { IfOk result (λ r. r ≡ began_row request.now told.now) }
{
    match request {
        Request::Compile(_) => {
            let row = row_of_compile(alloc, told)?;
            Ok(row)
        }
        Request::RecordStats(stats) => {
            let row = stats.clone()?;
            Ok(row)
        }
        Request::ZeroStats => Ok(ServerStats::new(alloc)),
        Request::GetStats => Ok(ServerStats::new(alloc)),
        Request::DistStatus => Ok(ServerStats::new(alloc)),
        Request::Shutdown => Ok(ServerStats::new(alloc)),
        Request::StorageHandshake => Ok(ServerStats::new(alloc)),
        Request::StorageGetPath(_) => Ok(ServerStats::new(alloc)),
        Request::StorageGetRaw(_) => Ok(ServerStats::new(alloc)),
        Request::StoragePutRaw(_, _) => Ok(ServerStats::new(alloc)),
        Request::StorageGetPreprocessorEntry(_) => Ok(ServerStats::new(alloc)),
        Request::StoragePutPreprocessorEntry(_, _) => Ok(ServerStats::new(alloc)),
    }
}

/// What the first key step of a compile counts.
pub fn row_of_keyed(alloc: Global) -> ServerStats
    ensures { result ≡ record no_stats { requests_executed = 1 } }
{
    let mut row = ServerStats::new(alloc);
    row.requests_executed = 1;
    row
}

/// A distributed compilation, by its server, or one that could not be.
fn with_distribution(
    alloc: Global,
    dist: &DistType,
    mut row: ServerStats,
) -> Result<ServerStats, NoMemory>
    ensures { IfOk result (λ r. r ≡ with_dist dist.now row) }
{
    match dist {
        DistType::NoDist => Ok(row),
        DistType::Ok(server) => {
            row.dist_compiles = counted_once(alloc, server)?;
            Ok(row)
        }
        DistType::Error => {
            row.dist_errors = 1;
            Ok(row)
        }
    }
}

fn row_of_compilation(alloc: Global, duration: u64) -> ServerStats
    ensures { result ≡ record no_stats { compilations = 1; compiler_write_duration = duration } }
{
    let mut row = ServerStats::new(alloc);
    row.compilations = 1;
    row.compiler_write_duration = Span::from_nanoseconds(duration);
    row
}

/// A compilation whose output can be stored, by what kind of miss it was run for.
fn row_of_miss(
    alloc: Global,
    task: Task,
    miss: MissType,
    duration: u64,
) -> Result<ServerStats, NoMemory>
    ensures { IfOk result (λ r. r ≡ missed_row miss (counted_task task) (record no_stats { compilations = 1; cache_misses = counted_task task; compiler_write_duration = duration })) }
{
    let mut row = row_of_compilation(alloc, duration);
    row.cache_misses = one_compile(alloc, task)?;
    match miss {
        MissType::Normal => Ok(row),
        MissType::ForcedNoCache => Ok(row),
        MissType::ForcedRecache => {
            row.forced_recaches = 1;
            Ok(row)
        }
        MissType::TimedOut => {
            row.cache_timeouts = 1;
            Ok(row)
        }
        MissType::CacheReadError => {
            row.cache_errors = one_compile(alloc, task)?;
            Ok(row)
        }
    }
}

fn row_of_hit(alloc: Global, task: Task, duration: u64) -> Result<ServerStats, NoMemory>
    ensures { IfOk result (λ r. r ≡ record no_stats { cache_hits = counted_task task; cache_read_hit_duration = duration }) }
{
    let mut row = ServerStats::new(alloc);
    row.cache_hits = one_compile(alloc, task)?;
    row.cache_read_hit_duration = Span::from_nanoseconds(duration);
    Ok(row)
}

fn row_of_error(alloc: Global, task: Task) -> Result<ServerStats, NoMemory>
    ensures { IfOk result (λ r. r ≡ record no_stats { cache_errors = counted_task task }) }
{
    let mut row = ServerStats::new(alloc);
    row.cache_errors = one_compile(alloc, task)?;
    Ok(row)
}

fn row_of_not_stored(alloc: Global, duration: u64) -> ServerStats
    ensures { result ≡ record no_stats { compilations = 1; compiler_write_duration = duration; non_cacheable_compilations = 1 } }
{
    let mut row = row_of_compilation(alloc, duration);
    row.non_cacheable_compilations = 1;
    row
}

fn row_of_failed(alloc: Global, duration: u64) -> ServerStats
    ensures { result ≡ record no_stats { compilations = 1; compiler_write_duration = duration; compile_fails = 1 } }
{
    let mut row = row_of_compilation(alloc, duration);
    row.compile_fails = 1;
    row
}

fn row_of_process_error(alloc: Global) -> ServerStats
    ensures { result ≡ record no_stats { compile_fails = 1 } }
{
    let mut row = ServerStats::new(alloc);
    row.compile_fails = 1;
    row
}

/// What the outcome of a compile counts.
pub fn row_of_verdict(alloc: Global, task: Task, verdict: &Verdict) -> Result<ServerStats, NoMemory>
    ensures { IfOk result (λ r. (k : Config) → r ≡ verdict_row (setup k) task verdict.now) }
{
    match verdict {
        Verdict::Error => row_of_error(alloc, task),
        Verdict::CacheHit(duration) => row_of_hit(alloc, task, *duration),
        Verdict::CacheMiss(miss, dist, duration) => {
            let row = row_of_miss(alloc, task, *miss, *duration)?;
            with_distribution(alloc, dist, row)
        }
        Verdict::NotCached(dist, duration) => {
            let row = row_of_compilation(alloc, *duration);
            with_distribution(alloc, dist, row)
        }
        Verdict::NotCacheable(dist, duration) => {
            let row = row_of_not_stored(alloc, *duration);
            with_distribution(alloc, dist, row)
        }
        Verdict::CompileFailed(dist, duration) => {
            let row = row_of_failed(alloc, *duration);
            with_distribution(alloc, dist, row)
        }
        Verdict::ProcessError => Ok(row_of_process_error(alloc)),
        Verdict::Http => Ok(ServerStats::new(alloc)),
        Verdict::Fault => row_of_error(alloc, task),
    }
}

fn row_of_written(alloc: Global, duration: u64) -> ServerStats
    ensures { result ≡ record no_stats { cache_writes = 1; cache_write_duration = duration } }
{
    let mut row = ServerStats::new(alloc);
    row.cache_writes = 1;
    row.cache_write_duration = Span::from_nanoseconds(duration);
    row
}

fn row_of_write_error(alloc: Global) -> ServerStats
    ensures { result ≡ record no_stats { cache_write_errors = 1 } }
{
    let mut row = ServerStats::new(alloc);
    row.cache_write_errors = 1;
    row
}

/// What the end of a compile's write counts.
fn row_of_compile_write(alloc: Global, duration: u64, put: &Put) -> ServerStats
    ensures { (c : CompileRequest) → result ≡ written_row (OfCompile c) duration put.now }
{
    match put {
        Put::Done => row_of_written(alloc, duration),
        Put::Refused(_) => row_of_write_error(alloc),
        Put::Level(_, _) => row_of_write_error(alloc),
        Put::NoLevels => row_of_write_error(alloc),
    }
}

/// What the end of a write counts that took so long: one that no compile made counts nothing.
#[tactic(auto, using(crate::proofs::Counting::no_compile_writes))]
pub fn row_of_write(alloc: Global, compiles: bool, duration: u64, put: &Put) -> ServerStats
    ensures { (request : Asks) → is_compile request ≡ compiles → result ≡ written_row request duration put.now }
{
    if compiles {
        row_of_compile_write(alloc, duration, put)
    } else {
        ServerStats::new(alloc)
    }
}
