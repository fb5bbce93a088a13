//! What a compile answers, by its events.
ghost use Rattle.std.specs.Prelude.{◌≡◌, ◌∷◌, [], IfOk};
ghost use Rattle.std.specs.Option.{option_map};
ghost use Rattle.sc_compile_direct.specs.Answers.{answer_by, answer_in, broken_of, chain_in, chain_of_dist, chain_of_key, chain_of_place, chain_of_run, hit_output, newest, no_output, output_in, output_of_dist, output_of_key, output_of_run, text_in, text_of_dist};
ghost use Rattle.sc_model.specs.Job.{hit_of};
ghost use Rattle.sc_compile_direct.specs.Following.{newest_first};
ghost use Rattle.sc_compile_direct.specs.declared.answer.CompileAnswer.TheVariants.{Done};

use crate::job_event::JobEvent;
use sc_daemon_job::finish_hit;
use sc_entry::{ByteText, Items, NoMemory, Text};
use sc_model::{
    Answer, ColorMode, DistAnswer, DistType, KeyStep, MissType, Objects, Output, Placing,
    RunAnswer, Status, Verdict, What,
};
use std::alloc::Global;

/// What a compile came to that has an output. Durations are in nanoseconds.
#[derive(Drop)]
pub enum CompileResult {
    /// A process that the key step ran failed.
    Error,
    /// It was found, after so long a lookup.
    CacheHit(u64),
    /// It was run for so long, and what it left can be stored.
    CacheMiss(MissType, DistType, u64),
    /// It was run, and nothing was to be cached.
    NotCached(DistType, u64),
    /// It was run, and what it left can't be stored.
    NotCacheable(DistType, u64),
    /// It was run, and failed.
    CompileFailed(DistType, u64),
}

/// What a compile answers.
#[derive(Drop)]
pub enum CompileAnswer {
    Done(CompileResult, Output),
    /// A process that ran it failed.
    ProcessError(Output),
    /// A server refused its distributed job, and said this.
    HttpClientError(Text),
    /// A fault's chain of texts.
    Fault(Items<Text>),
}

/// The newest of some events.
fn newest(events: &[JobEvent]) -> Option<&What>
    ensures { option_map (λ what. what.now) result ≡ newest (newest_first events.now) }
{
    match events {
        [] => None,
        [.., event] => Some(&event.what),
    }
}

fn no_output(alloc: Global) -> Output
    ensures { result ≡ no_output }
{
    Output {
        status: Status::Code(0),
        stdout: ByteText::new(alloc),
        stderr: ByteText::new(alloc),
    }
}

fn output_of_run(alloc: Global, answer: &RunAnswer) -> Result<Output, NoMemory>
    ensures { IfOk result (λ out. out ≡ output_of_run answer.now) }
{
    match answer {
        RunAnswer::Output(out) => Ok(out.output.clone()?),
        RunAnswer::ProcessError(out) => Ok(out.clone()?),
        RunAnswer::Fault(_) => Ok(no_output(alloc)),
    }
}

fn output_of_dist(alloc: Global, answer: &DistAnswer) -> Result<Output, NoMemory>
    ensures { IfOk result (λ out. out ≡ output_of_dist answer.now) }
{
    match answer {
        DistAnswer::Done(_, out) => Ok(out.output.clone()?),
        DistAnswer::Http(_) => Ok(no_output(alloc)),
        DistAnswer::TooLarge(_) => Ok(no_output(alloc)),
        DistAnswer::Other(_) => Ok(no_output(alloc)),
    }
}

fn output_of_key(alloc: Global, step: &KeyStep) -> Result<Output, NoMemory>
    ensures { IfOk result (λ out. out ≡ output_of_key step.now) }
{
    match step {
        KeyStep::ProcessError(out) => Ok(out.clone()?),
        KeyStep::Key(_) => Ok(no_output(alloc)),
        KeyStep::Fault(_) => Ok(no_output(alloc)),
    }
}

/// How a process ended and what it printed, by the event that says so.
fn output_in(alloc: Global, what: Option<&What>) -> Result<Output, NoMemory>
    ensures { IfOk result (λ out. out ≡ output_in (option_map (λ what. what.now) what.entry)) }
{
    match what {
        Some(What::Ran(answer)) => output_of_run(alloc, answer),
        Some(What::Dist(answer)) => output_of_dist(alloc, answer),
        Some(What::Keyed(_, _, step)) => output_of_key(alloc, step),
        _ => Ok(no_output(alloc)),
    }
}

fn text_of_dist(alloc: Global, answer: &DistAnswer) -> Result<Text, NoMemory>
    ensures { IfOk result (λ text. text ≡ text_of_dist answer.now) }
{
    match answer {
        DistAnswer::Http(text) => text.try_clone(),
        DistAnswer::Done(_, _) => Ok(Text::new(alloc)),
        DistAnswer::TooLarge(_) => Ok(Text::new(alloc)),
        DistAnswer::Other(_) => Ok(Text::new(alloc)),
    }
}

/// What a server said that refused a job.
fn text_in(alloc: Global, what: Option<&What>) -> Result<Text, NoMemory>
    ensures { IfOk result (λ text. text ≡ text_in (option_map (λ what. what.now) what.entry)) }
{
    match what {
        Some(What::Dist(answer)) => text_of_dist(alloc, answer),
        _ => Ok(Text::new(alloc)),
    }
}

fn broken_of(alloc: Global, objects: &Objects) -> Result<Items<Text>, NoMemory>
    ensures { IfOk result (λ chain. chain ≡ broken_of objects.now) }
{
    match objects {
        Objects::Broken(chain) => Ok(chain.clone()?),
        Objects::Collected(_) => Ok(Items::new(alloc)),
    }
}

fn chain_of_run(alloc: Global, answer: &RunAnswer) -> Result<Items<Text>, NoMemory>
    ensures { IfOk result (λ chain. chain ≡ chain_of_run answer.now) }
{
    match answer {
        RunAnswer::Output(out) => broken_of(alloc, &out.objects),
        RunAnswer::Fault(chain) => Ok(chain.clone()?),
        RunAnswer::ProcessError(_) => Ok(Items::new(alloc)),
    }
}

fn one_text(alloc: Global, text: &Text) -> Result<Items<Text>, NoMemory>
    ensures { IfOk result (λ chain. chain ≡ text.now ∷ []) }
{
    let mut chain = Items::new(alloc);
    chain.push(text.try_clone()?)?;
    Ok(chain)
}

fn chain_of_dist(alloc: Global, answer: &DistAnswer) -> Result<Items<Text>, NoMemory>
    ensures { IfOk result (λ chain. chain ≡ chain_of_dist answer.now) }
{
    match answer {
        DistAnswer::Done(_, out) => broken_of(alloc, &out.objects),
        DistAnswer::TooLarge(text) => one_text(alloc, text),
        DistAnswer::Http(_) => Ok(Items::new(alloc)),
        DistAnswer::Other(_) => Ok(Items::new(alloc)),
    }
}

fn chain_of_key(alloc: Global, step: &KeyStep) -> Result<Items<Text>, NoMemory>
    ensures { IfOk result (λ chain. chain ≡ chain_of_key step.now) }
{
    match step {
        KeyStep::Fault(chain) => Ok(chain.clone()?),
        KeyStep::Key(_) => Ok(Items::new(alloc)),
        KeyStep::ProcessError(_) => Ok(Items::new(alloc)),
    }
}

fn chain_of_place(alloc: Global, placing: &Placing) -> Result<Items<Text>, NoMemory>
    ensures { IfOk result (λ chain. chain ≡ chain_of_place placing.now) }
{
    match placing {
        Placing::Fault(chain) => Ok(chain.clone()?),
        Placing::Done => Ok(Items::new(alloc)),
        Placing::Missing(_) => Ok(Items::new(alloc)),
    }
}

/// A fault's chain, by the event that says it.
fn chain_in(alloc: Global, what: Option<&What>) -> Result<Items<Text>, NoMemory>
    ensures { IfOk result (λ chain. chain ≡ chain_in (option_map (λ what. what.now) what.entry)) }
{
    match what {
        Some(What::Ran(answer)) => chain_of_run(alloc, answer),
        Some(What::Dist(answer)) => chain_of_dist(alloc, answer),
        Some(What::Keyed(_, _, step)) => chain_of_key(alloc, step),
        Some(What::Placed(placing)) => chain_of_place(alloc, placing),
        _ => Ok(Items::new(alloc)),
    }
}

/// The bytes of the last hit.
fn hit_in(alloc: Global, events: &[JobEvent]) -> Result<ByteText, NoMemory>
    ensures { IfOk result (λ bytes. bytes ≡ hit_of (newest_first events.now)) }
{
    let mut left = events;
    while let [rest @ .., event] = left {
        if let What::Asked(_, _, _, Answer::Hit(bytes, _), _) = &event.what {
            return bytes.try_clone();
        }
        left = rest;
    }
    Ok(ByteText::new(alloc))
}

fn hit_output(alloc: Global, entry: ByteText) -> Result<Output, NoMemory>
    ensures { IfOk result (λ out. out ≡ hit_output entry) }
{
    let finished = finish_hit(alloc, ColorMode::Auto, entry)?;
    Ok(Output {
        status: Status::Code(0),
        stdout: finished.stdout,
        stderr: finished.stderr,
    })
}

fn copied(dist: &DistType) -> Result<DistType, NoMemory>
    ensures { IfOk result (λ d. d ≡ dist.now) }
{
    match dist {
        DistType::NoDist => Ok(DistType::NoDist),
        DistType::Ok(server) => Ok(DistType::Ok(server.try_clone()?)),
        DistType::Error => Ok(DistType::Error),
    }
}

/// A result with what a process printed, by the event that says so.
fn done(
    alloc: Global,
    came_to: CompileResult,
    what: Option<&What>,
) -> Result<CompileAnswer, NoMemory>
    ensures { IfOk result (λ answer. answer ≡ Done came_to (output_in (option_map (λ what. what.now) what.entry))) }
{
    let output = output_in(alloc, what)?;
    Ok(CompileAnswer::Done(came_to, output))
}

/// What is answered by how the job ended and the events before.
fn answer_by(
    alloc: Global,
    verdict: &Verdict,
    events: &[JobEvent],
) -> Result<CompileAnswer, NoMemory>
    ensures { IfOk result (λ answer. answer ≡ answer_by verdict.now (newest_first events.now)) }
{
    let last = newest(events);
    match verdict {
        Verdict::Error => done(alloc, CompileResult::Error, last),
        Verdict::CacheHit(time) => {
            let output = hit_output(alloc, hit_in(alloc, events)?)?;
            Ok(CompileAnswer::Done(CompileResult::CacheHit(*time), output))
        }
        Verdict::CacheMiss(miss, dist, time) => {
            done(
                alloc,
                CompileResult::CacheMiss(*miss, copied(dist)?, *time),
                last,
            )
        }
        Verdict::NotCached(dist, time) => {
            done(alloc, CompileResult::NotCached(copied(dist)?, *time), last)
        }
        Verdict::NotCacheable(dist, time) => {
            done(
                alloc,
                CompileResult::NotCacheable(copied(dist)?, *time),
                last,
            )
        }
        Verdict::CompileFailed(dist, time) => {
            done(
                alloc,
                CompileResult::CompileFailed(copied(dist)?, *time),
                last,
            )
        }
        Verdict::ProcessError => Ok(CompileAnswer::ProcessError(output_in(alloc, last)?)),
        Verdict::Http => Ok(CompileAnswer::HttpClientError(text_in(alloc, last)?)),
        Verdict::Fault => Ok(CompileAnswer::Fault(chain_in(alloc, last)?)),
    }
}

/// What a compile answers, by its events, the first one first.
pub fn answer_in(alloc: Global, events: &[JobEvent]) -> Result<CompileAnswer, NoMemory>
    ensures { IfOk result (λ answer. answer ≡ answer_in (newest_first events.now)) }
{
    let mut left = events;
    while let [rest @ .., event] = left {
        if let What::Outcome(verdict, _) = &event.what {
            return answer_by(alloc, verdict, rest);
        }
        left = rest;
    }
    Ok(CompileAnswer::Fault(Items::new(alloc)))
}
