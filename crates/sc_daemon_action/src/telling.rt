//! The actions of requests for what a daemon has counted, and for what its store and its distributed client tell of themselves.
ghost use Rattle.std.specs.Prelude.{◌≡◌, ◌+◌, ◌<◌, ◌++◌, [], length, map, IfOk, OnOk};
ghost use Rattle.std.specs.Str.Lossy.{utf8_lossy};
ghost use Rattle.sc_daemon_action.specs.Serves.{Stands};
ghost use Rattle.sc_daemon_action.specs.Sizes.{counters_of, with_size};
ghost use Rattle.sc_daemon_action.specs.Acts.{Acts};
ghost use Rattle.sc_daemon_hold.specs.Beginning.{TellsStatistics};
ghost use Rattle.sc_daemon_job.specs.Askers.{Asker, asker};
ghost use Rattle.sc_daemon_job.specs.Setups.{setup};
ghost use Rattle.sc_daemon_job.specs.declared.since.Since.{Since as Moments};
ghost use Rattle.sc_model.specs.Describing as follows;
ghost use Rattle.sc_model.specs.Conns.{need_at};
ghost use Rattle.sc_model.specs.Phases.{phase_next};
ghost use Rattle.sc_model.specs.Script.{is_single};
ghost use Rattle.sc_model.specs.Trace.{sent_by};
ghost use Rattle.sc_model.specs.declared.level.Policy.{Policy as PolicyType};
ghost use Rattle.sc_model.specs.declared.event.Told.TheVariants.{Nothing as NothingTold};
ghost use Rattle.sc_model.specs.declared.event.What.TheVariants.{Began as BeganEvent};
ghost use Rattle.sc_model.specs.declared.message.Request.TheVariants as requests;

use crate::acted::Acted;
use sc_daemon_hold::{Hold, LevelSize};
use sc_entry::{ByteText, Items, NoMemory, Text};
use sc_model::{Answer, Mode, Phase, Request, Response, Sized, StorageHandshakeInfo, Told, What};
use sc_stats::{LevelStats, ServerInfo, ServerStats};
use std::alloc::Global;

/// The version that is told of every daemon.
const VERSION: &str = "0.19.0";

/// Begins a request of which nothing is told.
pub(crate) fn begin_untold<H: Hold>(
    alloc: Global,
    hold: &mut H,
    request: &Request,
) -> Result<(), NoMemory>
    ensures moves { OnOk result ((n : Asker) → n.request ≡ request.now → H.moves hold.old n (BeganEvent request.now NothingTold) hold.new) }
    ensures same { OnOk result (H.config hold.new ≡ H.config hold.old) }
{
    hold.begin_plain(alloc, request, &Told::Nothing)
}

/// Begins a request that all counters start anew.
pub fn act_zero<H: Hold>(alloc: Global, hold: &mut H) -> Result<Acted, NoMemory>
    ensures acts { IfOk result (λ a. Acts (H.config hold.old) requests.ZeroStats Phase.AtBegin (H.moment hold.new) a) }
    ensures moves { IfOk result (λ a. (since : Moments) → H.moves hold.old (asker since (need_at (setup (H.config hold.old)) requests.ZeroStats Phase.AtBegin) requests.ZeroStats) a.what hold.new) }
    ensures same { IfOk result (λ a. H.config hold.new ≡ H.config hold.old) }
    ensures unsent { IfOk result (λ a. sent_by a.what ≡ []) }
{
    begin_untold(alloc, hold, &Request::ZeroStats)?;
    Ok(Acted {
        what: What::Began(Request::ZeroStats, Told::Nothing),
        phase: Phase::AtSend(Response::ZeroStats),
    })
}

/// Begins a request that counters are added.
pub fn act_record<H: Hold>(
    alloc: Global,
    hold: &mut H,
    delta: &ServerStats,
) -> Result<Acted, NoMemory>
    ensures acts { IfOk result (λ a. Acts (H.config hold.old) (requests.RecordStats delta.now) Phase.AtBegin (H.moment hold.new) a) }
    ensures moves { IfOk result (λ a. (since : Moments) → H.moves hold.old (asker since (need_at (setup (H.config hold.old)) (requests.RecordStats delta.now) Phase.AtBegin) (requests.RecordStats delta.now)) a.what hold.new) }
    ensures same { IfOk result (λ a. H.config hold.new ≡ H.config hold.old) }
    ensures unsent { IfOk result (λ a. sent_by a.what ≡ []) }
{
    let request = Request::RecordStats(delta.clone()?);
    begin_untold(alloc, hold, &request)?;
    Ok(Acted {
        what: What::Began(request, Told::Nothing),
        phase: Phase::AtSend(Response::RecordStats),
    })
}

/// What a store tells of itself in a handshake.
fn handshake<H: Hold>(alloc: Global, hold: &H) -> Result<StorageHandshakeInfo, NoMemory>
    ensures { IfOk result (λ info. info ≡ follows.handshake (setup (H.config hold.now))) }
{
    Ok(StorageHandshakeInfo {
        location: hold.location(alloc)?,
        cache_type_name: Text::from_str(alloc, hold.cache_type_name())?,
        basedirs: hold.basedirs(alloc)?,
        use_preprocessor_cache_mode: hold.use_preprocessor_cache_mode(),
        cache_mode: hold.cache_mode(),
        max_size: hold.max_size(),
    })
}

/// Begins a handshake with the store.
pub fn act_handshake<H: Hold>(alloc: Global, hold: &mut H) -> Result<Acted, NoMemory>
    ensures acts { IfOk result (λ a. Acts (H.config hold.old) requests.StorageHandshake Phase.AtBegin (H.moment hold.new) a) }
    ensures moves { IfOk result (λ a. (since : Moments) → H.moves hold.old (asker since (need_at (setup (H.config hold.old)) requests.StorageHandshake Phase.AtBegin) requests.StorageHandshake) a.what hold.new) }
    ensures same { IfOk result (λ a. H.config hold.new ≡ H.config hold.old) }
    ensures unsent { IfOk result (λ a. sent_by a.what ≡ []) }
{
    let told = Told::Handshake(handshake(alloc, hold)?);
    let info = handshake(alloc, hold)?;
    hold.begin_plain(alloc, &Request::StorageHandshake, &told)?;
    Ok(Acted {
        what: What::Began(Request::StorageHandshake, told),
        phase: Phase::AtSend(Response::StorageHandshake(info)),
    })
}

/// Begins a request for where the distributed client stands.
pub fn act_dist_status<H: Hold>(alloc: Global, hold: &mut H) -> Result<Acted, NoMemory>
    ensures acts { IfOk result (λ a. Acts (H.config hold.old) requests.DistStatus Phase.AtBegin (H.moment hold.new) a) }
    ensures moves { IfOk result (λ a. (since : Moments) → H.moves hold.old (asker since (need_at (setup (H.config hold.old)) requests.DistStatus Phase.AtBegin) requests.DistStatus) a.what hold.new) }
    ensures same { IfOk result (λ a. H.config hold.new ≡ H.config hold.old) }
    ensures unsent { IfOk result (λ a. sent_by a.what ≡ []) }
{
    let info = hold.dist_status(alloc)?;
    let told = info.clone()?;
    Ok(Acted {
        what: What::Began(Request::DistStatus, Told::Dist(info)),
        phase: Phase::AtSend(Response::DistStatus(told)),
    })
}

/// A level's size, where it is known, and those behind it. The sum stops at the end of `u64`.
fn with_size(sized: &Sized, sum: u64) -> u64
    ensures { result ≡ with_size sized.now sum }
{
    match sized.size {
        Some(size) => size.saturating_add(sum),
        None => sum,
    }
}

/// The sizes that are known, added. The sum stops at the end of `u64`.
fn size_sum(sizes: &[Sized]) -> u64
    ensures { result ≡ follows.size_sum sizes.now }
{
    match sizes {
        [first, rest @ ..] => with_size(first, size_sum(rest)),
        [] => 0,
    }
}

/// The first level's size.
fn first_size(sizes: &[Sized]) -> Option<u64>
    ensures { result ≡ follows.first_size sizes.now }
{
    match sizes {
        [first, ..] => first.size,
        [] => None,
    }
}

/// None where nothing is known.
fn some_size(size: u64) -> Option<u64>
    ensures { result ≡ follows.some_size size }
{
    if size == 0 { None } else { Some(size) }
}

/// What the store holds by its levels' sizes, where that is known.
fn cache_size(single: bool, sizes: &[Sized]) -> Option<u64>
    ensures { (p : PolicyType) → is_single p ≡ single → result ≡ follows.cache_size p sizes.now }
{
    if single {
        first_size(sizes)
    } else {
        some_size(size_sum(sizes))
    }
}

/// Adds the counters that a level told, if it told any.
fn push_counters(counters: &mut Items<LevelStats>, sized: Sized) -> Result<(), NoMemory>
    ensures { IfOk result (λ _. counters.new ≡ counters.old ++ counters_of sized) }
{
    match sized.counters {
        Some(level) => counters.push(level),
        None => Ok(()),
    }
}

/// The counters that levels told.
#[tactic(auto, using(crate::proofs::Sizes::counters_more))]
fn counters_told(alloc: Global, sizes: Items<Sized>) -> Result<Items<LevelStats>, NoMemory>
    ensures { IfOk result (λ counters. counters ≡ follows.counters_in sizes) }
{
    let mut counters = Items::new(alloc);
    for sized in sizes.into_vec() {
        push_counters(&mut counters, sized)?;
    }
    Ok(counters)
}

/// The counters of levels: a store that stands alone has none.
fn multi_level(
    alloc: Global,
    single: bool,
    sizes: Items<Sized>,
) -> Result<Option<Items<LevelStats>>, NoMemory>
    ensures { IfOk result (λ counters. (p : PolicyType) → is_single p ≡ single → counters ≡ follows.multi_level p sizes) }
{
    if single {
        return Ok(None);
    }
    let counters = counters_told(alloc, sizes)?;
    Ok(Some(counters))
}

/// Paths as texts, with replacement characters for what is no UTF-8.
fn texts(alloc: Global, paths: &[ByteText]) -> Result<Items<Text>, NoMemory>
    ensures { IfOk result (λ texts. texts ≡ map utf8_lossy paths.now) }
{
    let mut texts = Vec::new(alloc);
    for path in paths {
        let text = String::from_utf8_lossy(alloc, path.as_slice())?;
        texts.push(Text::from_string(text))?;
    }
    Ok(Items::from_vec(texts))
}

/// Statistics with what the store tells of itself, and the sizes and counters that its levels told.
fn server_info<H: Hold>(
    alloc: Global,
    hold: &H,
    stats: ServerStats,
    sizes: Items<Sized>,
) -> Result<ServerInfo, NoMemory>
    ensures { IfOk result (λ info. info ≡ follows.server_info (setup (H.config hold.now)) stats sizes) }
{
    let single = hold.is_single();
    let cache_size = cache_size(single, sizes.as_slice());
    let mut stats = stats;
    stats.multi_level = multi_level(alloc, single, sizes)?;
    Ok(ServerInfo {
        stats,
        cache_location: hold.location(alloc)?,
        cache_size,
        max_cache_size: hold.max_size(),
        use_preprocessor_cache_mode: hold.use_preprocessor_cache_mode(),
        version: Text::from_str(alloc, VERSION)?,
        basedirs: texts(alloc, hold.basedirs(alloc)?.as_slice())?,
    })
}

/// The same request, which tells statistics and so has no fields.
fn same_request(request: &Request) -> Request
    requires { TellsStatistics request.now }
    ensures { result ≡ request.now }
{
    match request {
        Request::GetStats => Request::GetStats,
        Request::Shutdown => Request::Shutdown,
        _ => unreachable!(),
    }
}

/// The last reply of a request for statistics.
fn stats_reply(request: &Request, info: ServerInfo) -> Response
    ensures { result ≡ follows.stats_reply request.now info }
{
    match request {
        Request::GetStats => Response::Stats(info),
        _ => Response::ShuttingDown(info),
    }
}

/// Where a request for statistics goes on: to its next level's size, or to its reply after the last.
fn next_size<H: Hold>(
    alloc: Global,
    hold: &H,
    request: &Request,
    level: u64,
    stats: ServerStats,
    sizes: Items<Sized>,
) -> Result<Phase, NoMemory>
    requires { TellsStatistics request.now }
    ensures phase { IfOk result (λ p. p ≡ phase_next (setup (H.config hold.now)) level (Phase.SizeAsk level stats sizes) (Phase.AtSend (follows.stats_reply request.now (follows.server_info (setup (H.config hold.now)) stats sizes)))) }
    ensures stands { IfOk result (λ p. Stands (H.config hold.now) p request.now) }
{
    if level < hold.level_count() {
        return Ok(Phase::SizeAsk(level, stats, sizes));
    }
    let info = server_info(alloc, hold, stats, sizes)?;
    Ok(Phase::AtSend(stats_reply(request, info)))
}

/// Begins a request for statistics: they are told as they are now.
#[tactic(auto, using(crate::proofs::Statistics::tells_begins, crate::proofs::Statistics::tells_phase))]
pub fn act_begin_stats<H: Hold>(
    alloc: Global,
    hold: &mut H,
    request: &Request,
) -> Result<Acted, NoMemory>
    requires { TellsStatistics request.now }
    ensures acts { IfOk result (λ a. Acts (H.config hold.old) request.now Phase.AtBegin (H.moment hold.new) a) }
    ensures moves { IfOk result (λ a. (since : Moments) → H.moves hold.old (asker since (need_at (setup (H.config hold.old)) request.now Phase.AtBegin) request.now) a.what hold.new) }
    ensures same { IfOk result (λ a. H.config hold.new ≡ H.config hold.old) }
    ensures unsent { IfOk result (λ a. sent_by a.what ≡ []) }
{
    let told = hold.begin_stats(alloc, request)?;
    let phase = next_size(alloc, hold, request, 0, told.clone()?, Items::new(alloc))?;
    Ok(Acted {
        what: What::Began(same_request(request), Told::Stats(told)),
        phase,
    })
}

/// The same counters of a level, where they are told.
fn same_counters(counters: &Option<LevelStats>) -> Result<Option<LevelStats>, NoMemory>
    ensures { IfOk result (λ copy. copy ≡ counters.now) }
{
    match counters {
        Some(level) => Ok(Some(level.clone()?)),
        None => Ok(None),
    }
}

/// Asks a level for its size, and tells what was counted there.
pub fn act_size_ask<H: Hold>(
    alloc: Global,
    hold: &mut H,
    request: &Request,
    level: u64,
    stats: ServerStats,
    sizes: Items<Sized>,
) -> Result<Acted, NoMemory>
    requires tells { TellsStatistics request.now }
    requires level { level < length (H.config hold.old).levels }
    ensures acts { IfOk result (λ a. Acts (H.config hold.old) request.now (Phase.SizeAsk level stats sizes) (H.moment hold.new) a) }
    ensures moves { IfOk result (λ a. (since : Moments) → H.moves hold.old (asker since (need_at (setup (H.config hold.old)) request.now (Phase.SizeAsk level stats sizes)) request.now) a.what hold.new) }
    ensures same { IfOk result (λ a. H.config hold.new ≡ H.config hold.old) }
    ensures unsent { IfOk result (λ a. sent_by a.what ≡ []) }
{
    let _count = hold.level_count();
    let LevelSize { size, counters } = hold.size(alloc, level)?;
    let told = same_counters(&counters)?;
    let mut sizes = sizes;
    sizes.push(Sized { size, counters })?;
    let phase = next_size(alloc, hold, request, level + 1, stats, sizes)?;
    let answer = Answer::Size(size, told);
    Ok(Acted {
        what: What::Asked(
            level,
            Text::new(alloc),
            Mode::Size,
            answer,
            Items::new(alloc),
        ),
        phase,
    })
}
