//! Lines, kind by kind.
ghost use Rattle.std.specs.Prelude.{◌≡◌};
ghost use Rattle.sc_words.specs.Words.{Means, Reads};
ghost use Rattle.sc_main_script.specs.Lines.{version_line, connections_line, tokens_line, limit_line, policy_line, capacity_words, own_policy, level_line, hold_line, fail_line, tool_line, run_line, run_error_line, run_fault_line, key_error_line, key_fault_line, place_fault_line, done_words, job_words, dist_line, bytes_line, ask_line, read_line, times_of, serve_line, back_line, pass_line, step_keyword, answer_keyword, keyword_of, body, line_of_words};

use crate::choices::{kind, level_kind, level_policy, mode, outcome, policy_name};
use crate::job_rule::{JobOutcome, JobRule};
use crate::line::{HoldLine, LevelLine, Line};
use crate::place_rule::PlaceRule;
use crate::run_rule::RunRule;
use sc_compile::{KeyLine, KeyRefusal, Tool};
use sc_main_script_words::{
    chain_words, hex_bytes, number, number_within, objects, output_words, request_words, store_key,
    text_token, token,
};
use sc_model::{DistAnswer, LevelKind, LevelPolicy, Objects, RunAnswer, RunOutput};
use sc_words::{LineWords, WordsError};
use std::alloc::Global;

/// The kinds of lines.
#[derive(Clone, Copy)]
pub enum Keyword {
    Version,
    Connections,
    Tokens,
    Limit,
    Policy,
    Level,
    Hold,
    Fail,
    Tool,
    Run,
    RunError,
    RunFault,
    KeyError,
    KeyFault,
    PlaceFault,
    Dist,
    Bytes,
    Ask,
    Read,
    Serve,
    Back,
    Pass,
}

#[tactic(auto, unfolding(crate::specs::Lines::version_line))]
fn version_line(words: &mut LineWords<'_>) -> Result<Line, WordsError>
    ensures { Reads (version_line words.old) result words.new }
{
    number_within(1, 1, words.word()?)?;
    Ok(Line::Version)
}

#[tactic(auto, unfolding(crate::specs::Lines::connections_line))]
fn connections_line(words: &mut LineWords<'_>) -> Result<Line, WordsError>
    ensures { Reads (connections_line words.old) result words.new }
{
    let connections = number_within(0, 1024, words.word()?)?;
    Ok(Line::Connections(connections))
}

#[tactic(auto, unfolding(crate::specs::Lines::tokens_line))]
fn tokens_line(words: &mut LineWords<'_>) -> Result<Line, WordsError>
    ensures { Reads (tokens_line words.old) result words.new }
{
    let tokens = number_within(1, 65535, words.word()?)?;
    Ok(Line::Tokens(tokens))
}

#[tactic(auto, unfolding(crate::specs::Lines::limit_line))]
fn limit_line(words: &mut LineWords<'_>) -> Result<Line, WordsError>
    ensures { Reads (limit_line words.old) result words.new }
{
    let limit = number_within(1, 16_777_216, words.word()?)?;
    Ok(Line::Limit(limit))
}

#[tactic(auto, unfolding(crate::specs::Lines::policy_line))]
fn policy_line(words: &mut LineWords<'_>) -> Result<Line, WordsError>
    ensures { Reads (policy_line words.old) result words.new }
{
    let name = policy_name(words.word()?)?;
    Ok(Line::Policy(name))
}

#[tactic(auto, unfolding(crate::specs::Lines::capacity_words))]
fn capacity_words(kind: LevelKind, words: &mut LineWords<'_>) -> Result<u64, WordsError>
    ensures { Reads (capacity_words kind words.old) result words.new }
{
    match kind {
        LevelKind::Disk => number(words.word()?),
        LevelKind::Remote => Ok(0),
    }
}

#[tactic(auto, unfolding(crate::specs::Lines::own_policy))]
fn own_policy(words: &mut LineWords<'_>) -> Result<Option<LevelPolicy>, WordsError>
    ensures { Reads (own_policy words.old) result words.new }
{
    match words.next() {
        None => Ok(None),
        Some(word) => {
            let policy = level_policy(word)?;
            Ok(Some(policy))
        }
    }
}

#[tactic(auto, unfolding(crate::specs::Lines::level_line))]
fn level_line(words: &mut LineWords<'_>) -> Result<Line, WordsError>
    ensures { Reads (level_line words.old) result words.new }
{
    let kind = level_kind(words.word()?)?;
    let capacity = capacity_words(kind, words)?;
    let mode = mode(words.word()?)?;
    let policy = own_policy(words)?;
    Ok(Line::Level(LevelLine {
        kind,
        capacity,
        mode,
        policy,
    }))
}

#[tactic(auto, unfolding(crate::specs::Lines::hold_line))]
fn hold_line(alloc: Global, words: &mut LineWords<'_>) -> Result<Line, WordsError>
    ensures { Reads (hold_line words.old) result words.new }
{
    let level = number(words.word()?)?;
    let key = store_key(alloc, words.word()?)?;
    let bytes = token(alloc, words.word()?)?;
    Ok(Line::Hold(HoldLine { level, key, bytes }))
}

#[tactic(auto, unfolding(crate::specs::Lines::fail_line))]
fn fail_line(words: &mut LineWords<'_>) -> Result<Line, WordsError>
    ensures { Reads (fail_line words.old) result words.new }
{
    let level = number(words.word()?)?;
    let call = number(words.word()?)?;
    Ok(Line::Fail { level, call })
}

#[tactic(auto, unfolding(crate::specs::Lines::tool_line))]
fn tool_line(alloc: Global, words: &mut LineWords<'_>) -> Result<Line, WordsError>
    ensures { Reads (tool_line words.old) result words.new }
{
    let path = token(alloc, words.word()?)?;
    let moment = number(words.word()?)?;
    let kind = kind(words.word()?)?;
    Ok(Line::Tool(Tool { path, moment, kind }))
}

#[tactic(auto, unfolding(crate::specs::Lines::run_line))]
fn run_line(alloc: Global, words: &mut LineWords<'_>) -> Result<Line, WordsError>
    ensures { Reads (run_line words.old) result words.new }
{
    let key = text_token(alloc, words.word()?)?;
    let output = output_words(alloc, words)?;
    let objects = Objects::Collected(objects(alloc, words)?);
    let answer = RunAnswer::Output(RunOutput { output, objects });
    Ok(Line::Run(RunRule { key, answer }))
}

#[tactic(auto, unfolding(crate::specs::Lines::run_error_line))]
fn run_error_line(alloc: Global, words: &mut LineWords<'_>) -> Result<Line, WordsError>
    ensures { Reads (run_error_line words.old) result words.new }
{
    let key = text_token(alloc, words.word()?)?;
    let answer = RunAnswer::ProcessError(output_words(alloc, words)?);
    Ok(Line::Run(RunRule { key, answer }))
}

#[tactic(auto, unfolding(crate::specs::Lines::run_fault_line))]
fn run_fault_line(alloc: Global, words: &mut LineWords<'_>) -> Result<Line, WordsError>
    ensures { Reads (run_fault_line words.old) result words.new }
{
    let key = text_token(alloc, words.word()?)?;
    let answer = RunAnswer::Fault(chain_words(alloc, words)?);
    Ok(Line::Run(RunRule { key, answer }))
}

#[tactic(auto, unfolding(crate::specs::Lines::key_error_line))]
fn key_error_line(alloc: Global, words: &mut LineWords<'_>) -> Result<Line, WordsError>
    ensures { Reads (key_error_line words.old) result words.new }
{
    let key = text_token(alloc, words.word()?)?.into_byte_text();
    let refusal = KeyRefusal::ProcessError(output_words(alloc, words)?);
    Ok(Line::KeyStep(KeyLine { key, refusal }))
}

#[tactic(auto, unfolding(crate::specs::Lines::key_fault_line))]
fn key_fault_line(alloc: Global, words: &mut LineWords<'_>) -> Result<Line, WordsError>
    ensures { Reads (key_fault_line words.old) result words.new }
{
    let key = text_token(alloc, words.word()?)?.into_byte_text();
    let refusal = KeyRefusal::Fault(chain_words(alloc, words)?);
    Ok(Line::KeyStep(KeyLine { key, refusal }))
}

#[tactic(auto, unfolding(crate::specs::Lines::place_fault_line))]
fn place_fault_line(alloc: Global, words: &mut LineWords<'_>) -> Result<Line, WordsError>
    ensures { Reads (place_fault_line words.old) result words.new }
{
    let key = text_token(alloc, words.word()?)?;
    let chain = chain_words(alloc, words)?;
    Ok(Line::Place(PlaceRule { key, chain }))
}

/// What a server made of a job.
#[tactic(auto, unfolding(crate::specs::Lines::done_words))]
fn done_words(alloc: Global, words: &mut LineWords<'_>) -> Result<DistAnswer, WordsError>
    ensures { Reads (done_words words.old) result words.new }
{
    let server = text_token(alloc, words.word()?)?;
    let output = output_words(alloc, words)?;
    let objects = Objects::Collected(objects(alloc, words)?);
    Ok(DistAnswer::Done(server, RunOutput { output, objects }))
}

#[tactic(auto, unfolding(crate::specs::Lines::job_words))]
fn job_words(
    alloc: Global,
    outcome: JobOutcome,
    words: &mut LineWords<'_>,
) -> Result<DistAnswer, WordsError>
    ensures { Reads (job_words outcome words.old) result words.new }
{
    match outcome {
        JobOutcome::Done => done_words(alloc, words),
        JobOutcome::Http => Ok(DistAnswer::Http(text_token(alloc, words.word()?)?)),
        JobOutcome::Large => Ok(DistAnswer::TooLarge(text_token(alloc, words.word()?)?)),
        JobOutcome::Other => Ok(DistAnswer::Other(text_token(alloc, words.word()?)?)),
    }
}

#[tactic(auto, unfolding(crate::specs::Lines::dist_line))]
fn dist_line(alloc: Global, words: &mut LineWords<'_>) -> Result<Line, WordsError>
    ensures { Reads (dist_line words.old) result words.new }
{
    let key = text_token(alloc, words.word()?)?;
    let outcome = outcome(words.word()?)?;
    let answer = job_words(alloc, outcome, words)?;
    Ok(Line::Job(JobRule { key, answer }))
}

#[tactic(auto, unfolding(crate::specs::Lines::bytes_line))]
fn bytes_line(alloc: Global, words: &mut LineWords<'_>) -> Result<Line, WordsError>
    ensures { Reads (bytes_line words.old) result words.new }
{
    let connection = number(words.word()?)?;
    let bytes = hex_bytes(alloc, words.word()?)?;
    Ok(Line::Bytes { connection, bytes })
}

#[tactic(auto, unfolding(crate::specs::Lines::ask_line))]
fn ask_line(alloc: Global, words: &mut LineWords<'_>) -> Result<Line, WordsError>
    ensures { Reads (ask_line words.old) result words.new }
{
    let connection = number(words.word()?)?;
    let request = request_words(alloc, words)?;
    Ok(Line::Ask {
        connection,
        request,
    })
}

#[tactic(auto, unfolding(crate::specs::Lines::read_line))]
fn read_line(words: &mut LineWords<'_>) -> Result<Line, WordsError>
    ensures { Reads (read_line words.old) result words.new }
{
    let connection = number(words.word()?)?;
    let most = number_within(1, u64::MAX, words.word()?)?;
    Ok(Line::Read { connection, most })
}

#[tactic(auto, unfolding(crate::specs::Lines::times_of))]
fn times_of(words: &mut LineWords<'_>) -> Result<u64, WordsError>
    ensures { Reads (times_of words.old) result words.new }
{
    match words.next() {
        None => Ok(1),
        Some(word) => number_within(1, u64::MAX, word),
    }
}

#[tactic(auto, unfolding(crate::specs::Lines::serve_line))]
fn serve_line(words: &mut LineWords<'_>) -> Result<Line, WordsError>
    ensures { Reads (serve_line words.old) result words.new }
{
    let connection = number(words.word()?)?;
    let times = times_of(words)?;
    Ok(Line::Serve { connection, times })
}

#[tactic(auto, unfolding(crate::specs::Lines::back_line))]
fn back_line(words: &mut LineWords<'_>) -> Result<Line, WordsError>
    ensures { Reads (back_line words.old) result words.new }
{
    let write = number(words.word()?)?;
    Ok(Line::Back(write))
}

#[tactic(auto, unfolding(crate::specs::Lines::pass_line))]
fn pass_line(words: &mut LineWords<'_>) -> Result<Line, WordsError>
    ensures { Reads (pass_line words.old) result words.new }
{
    let time = number(words.word()?)?;
    Ok(Line::Pass(time))
}

/// The word of a line on what is done, or on what comes.
#[tactic(auto, unfolding(crate::specs::Lines::step_keyword))]
fn step_word(word: &[u8]) -> Result<Keyword, WordsError>
    ensures { Means (step_keyword word.now) result }
{
    if word == b"bytes".as_slice() {
        return Ok(Keyword::Bytes);
    }
    if word == b"ask".as_slice() {
        return Ok(Keyword::Ask);
    }
    if word == b"read".as_slice() {
        return Ok(Keyword::Read);
    }
    if word == b"serve".as_slice() {
        return Ok(Keyword::Serve);
    }
    if word == b"back".as_slice() {
        return Ok(Keyword::Back);
    }
    if word == b"pass".as_slice() {
        return Ok(Keyword::Pass);
    }
    Err(WordsError::Malformed)
}

/// The word of a line on what a compile, a placing or a job comes to, or of a later kind.
#[tactic(auto, unfolding(crate::specs::Lines::answer_keyword))]
fn answer_word(word: &[u8]) -> Result<Keyword, WordsError>
    ensures { Means (answer_keyword word.now) result }
{
    if word == b"run".as_slice() {
        return Ok(Keyword::Run);
    }
    if word == b"run-error".as_slice() {
        return Ok(Keyword::RunError);
    }
    if word == b"run-fault".as_slice() {
        return Ok(Keyword::RunFault);
    }
    if word == b"key-error".as_slice() {
        return Ok(Keyword::KeyError);
    }
    if word == b"key-fault".as_slice() {
        return Ok(Keyword::KeyFault);
    }
    if word == b"place-fault".as_slice() {
        return Ok(Keyword::PlaceFault);
    }
    if word == b"dist".as_slice() {
        return Ok(Keyword::Dist);
    }
    step_word(word)
}

#[tactic(auto, unfolding(crate::specs::Lines::keyword_of))]
fn first_word(word: &[u8]) -> Result<Keyword, WordsError>
    ensures { Means (keyword_of word.now) result }
{
    if word == b"script".as_slice() {
        return Ok(Keyword::Version);
    }
    if word == b"conns".as_slice() {
        return Ok(Keyword::Connections);
    }
    if word == b"tokens".as_slice() {
        return Ok(Keyword::Tokens);
    }
    if word == b"limit".as_slice() {
        return Ok(Keyword::Limit);
    }
    if word == b"policy".as_slice() {
        return Ok(Keyword::Policy);
    }
    if word == b"level".as_slice() {
        return Ok(Keyword::Level);
    }
    if word == b"hold".as_slice() {
        return Ok(Keyword::Hold);
    }
    if word == b"fail".as_slice() {
        return Ok(Keyword::Fail);
    }
    if word == b"tool".as_slice() {
        return Ok(Keyword::Tool);
    }
    answer_word(word)
}

#[tactic(auto, unfolding(crate::specs::Lines::body))]
fn body(alloc: Global, keyword: Keyword, words: &mut LineWords<'_>) -> Result<Line, WordsError>
    ensures { Reads (body keyword words.old) result words.new }
{
    match keyword {
        Keyword::Version => version_line(words),
        Keyword::Connections => connections_line(words),
        Keyword::Tokens => tokens_line(words),
        Keyword::Limit => limit_line(words),
        Keyword::Policy => policy_line(words),
        Keyword::Level => level_line(words),
        Keyword::Hold => hold_line(alloc, words),
        Keyword::Fail => fail_line(words),
        Keyword::Tool => tool_line(alloc, words),
        Keyword::Run => run_line(alloc, words),
        Keyword::RunError => run_error_line(alloc, words),
        Keyword::RunFault => run_fault_line(alloc, words),
        Keyword::KeyError => key_error_line(alloc, words),
        Keyword::KeyFault => key_fault_line(alloc, words),
        Keyword::PlaceFault => place_fault_line(alloc, words),
        Keyword::Dist => dist_line(alloc, words),
        Keyword::Bytes => bytes_line(alloc, words),
        Keyword::Ask => ask_line(alloc, words),
        Keyword::Read => read_line(words),
        Keyword::Serve => serve_line(words),
        Keyword::Back => back_line(words),
        Keyword::Pass => pass_line(words),
    }
}

/// What a line says, by all its words.
///
/// # Errors
///
/// `Malformed` where they are no line of a script.
#[tactic(auto, unfolding(crate::specs::Lines::line_of_words))]
pub fn line_at(alloc: Global, words: &mut LineWords<'_>) -> Result<Line, WordsError>
    ensures { Means (line_of_words words.old) result }
{
    let keyword = first_word(words.word()?)?;
    let line = body(alloc, keyword, words)?;
    match words.next() {
        None => Ok(line),
        Some(_) => Err(WordsError::Malformed),
    }
}
