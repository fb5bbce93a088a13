//! The counters that a request records, word by word.
ghost use Rattle.std.specs.Prelude.{◌≡◌};
ghost use Rattle.sc_words.specs.Words.{Leaves, Reads};
ghost use Rattle.sc_main_script_words.specs.Records.{with_counter, with_pair, pairs_onto, record_request};

use crate::fields::number;
use sc_model::Request;
use sc_stats::ServerStats;
use sc_words::{LineWords, WordsError};
use std::alloc::Global;

#[tactic(auto, unfolding(crate::specs::Records::with_counter))]
fn set_counter(stats: &mut ServerStats, name: &[u8], number: u64) -> Result<(), WordsError>
    ensures { Leaves (with_counter name.now number stats.old) result stats.new }
{
    if name == b"compile_requests".as_slice() {
        stats.compile_requests = number;
    } else if name == b"requests_unsupported_compiler".as_slice() {
        stats.requests_unsupported_compiler = number;
    } else if name == b"requests_not_compile".as_slice() {
        stats.requests_not_compile = number;
    } else if name == b"requests_not_cacheable".as_slice() {
        stats.requests_not_cacheable = number;
    } else if name == b"requests_executed".as_slice() {
        stats.requests_executed = number;
    } else if name == b"cache_timeouts".as_slice() {
        stats.cache_timeouts = number;
    } else if name == b"cache_read_errors".as_slice() {
        stats.cache_read_errors = number;
    } else if name == b"non_cacheable_compilations".as_slice() {
        stats.non_cacheable_compilations = number;
    } else if name == b"forced_recaches".as_slice() {
        stats.forced_recaches = number;
    } else if name == b"cache_write_errors".as_slice() {
        stats.cache_write_errors = number;
    } else if name == b"cache_writes".as_slice() {
        stats.cache_writes = number;
    } else if name == b"compilations".as_slice() {
        stats.compilations = number;
    } else if name == b"compile_fails".as_slice() {
        stats.compile_fails = number;
    } else if name == b"dist_errors".as_slice() {
        stats.dist_errors = number;
    } else {
        return Err(WordsError::Malformed);
    }
    Ok(())
}

#[tactic(auto, unfolding(crate::specs::Records::with_pair))]
fn set_pair(stats: &mut ServerStats, name: &[u8], word: &[u8]) -> Result<(), WordsError>
    ensures { Leaves (with_pair stats.old name.now word.now) result stats.new }
{
    let number = number(word)?;
    set_counter(stats, name, number)
}

fn set_pairs(stats: &mut ServerStats, words: &mut LineWords<'_>) -> Result<(), WordsError>
    ensures { Leaves (pairs_onto stats.old words.old) result (stats.new, words.new) }
{
    while let Some(name) = words.next() {
        set_pair(stats, name, words.word()?)?;
    }
    Ok(())
}

/// The request to add the counters that the words left of a line name, each at its last number.
#[tactic(auto, unfolding(crate::specs::Records::record_request))]
pub fn record_request(alloc: Global, words: &mut LineWords<'_>) -> Result<Request, WordsError>
    ensures { Reads (record_request words.old) result words.new }
{
    let name = words.word()?;
    let word = words.word()?;
    let mut stats = ServerStats::new(alloc);
    set_pair(&mut stats, name, word)?;
    set_pairs(&mut stats, words)?;
    Ok(Request::RecordStats(stats))
}
