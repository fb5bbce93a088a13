//! The distributed client of a script.

ghost use Rattle.std.specs.Prelude.{◌≡◌, ◌≤◌, IfOk, OnOk, Some, None, true, length};
ghost use Rattle.sc_compile_dist.specs.Doing.{after_job, new_doing};
ghost use Rattle.sc_compile_dist.specs.GoodJobs.{is_good_dist};
ghost use Rattle.sc_compile_dist.specs.Jobs.{is_lost, no_answer, script_answer, with_outputs};
ghost use Rattle.sc_stats.specs.declared.counters.DistInfo.TheVariants.{SchedulerStatus as Told};

use crate::client::{DistClient, SchedulerStatus};
use crate::dist_line::DistLine;
use sc_compile_table::Book;
use sc_entry::{ByteText, FileObjectSource, NoMemory, Text};
use sc_model::{DistAnswer, Objects, RunOutput, SingleCompileCommand, output_with};
use std::alloc::Global;
use std::marker::Model;

/// A distributed client that answers by lines. The `i`th job under a key takes the key's `i`th line, and later ones take the
/// last; without a line it is lost. Its scheduler has no servers. Contracts see it as its lines, what it did, and how often it
/// failed.
#[derive(Drop)]
pub struct ScriptDist {
    alloc: Global,
    /// The lines on jobs, and the jobs that were done.
    jobs: Book<DistLine, DistAnswer>,
    faults: u64,
}

impl Model for ScriptDist {
    ghost use Rattle.sc_compile_dist.specs.Doing.{Doing};

    ghost Value = { Doing };

    ghost view = { λ d. record { lines = d.jobs.values; jobs = d.jobs.done; faults = d.faults } };
}

fn copied_output(out: &RunOutput) -> Result<RunOutput, NoMemory>
    ensures { IfOk result (λ o. o ≡ out.now) }
{
    Ok(out.clone()?)
}

/// A copy of an answer.
fn copied(answer: &DistAnswer) -> Result<DistAnswer, NoMemory>
    ensures { IfOk result (λ a. a ≡ answer.now) }
{
    match answer {
        DistAnswer::Done(server, out) => {
            let server = server.try_clone()?;
            Ok(DistAnswer::Done(server, copied_output(out)?))
        }
        DistAnswer::Http(text) => Ok(DistAnswer::Http(text.try_clone()?)),
        DistAnswer::TooLarge(text) => Ok(DistAnswer::TooLarge(text.try_clone()?)),
        DistAnswer::Other(text) => Ok(DistAnswer::Other(text.try_clone()?)),
    }
}

/// A copy of a line's answer, for a job from which these outputs are wanted.
fn with_outputs(
    alloc: Global,
    outputs: &[FileObjectSource],
    answer: &DistAnswer,
) -> Result<DistAnswer, NoMemory>
    requires { is_good_dist answer.now ≡ true }
    ensures value { IfOk result (λ a. a ≡ with_outputs outputs.now answer.now) }
    ensures good { IfOk result (λ a. is_good_dist a ≡ true) }
{
    match answer {
        DistAnswer::Done(server, out) => {
            let server = server.try_clone()?;
            Ok(DistAnswer::Done(server, output_with(alloc, outputs, out)?))
        }
        DistAnswer::Http(text) => Ok(DistAnswer::Http(text.try_clone()?)),
        DistAnswer::TooLarge(text) => Ok(DistAnswer::TooLarge(text.try_clone()?)),
        DistAnswer::Other(text) => Ok(DistAnswer::Other(text.try_clone()?)),
    }
}

/// The answer of a job under a key without a line.
fn no_answer(alloc: Global, key: &Text) -> Result<DistAnswer, NoMemory>
    ensures value { IfOk result (λ a. a ≡ no_answer key.now) }
    ensures good { IfOk result (λ a. is_good_dist a ≡ true) }
{
    let mut text = String::from_str(alloc, "no answer for ")?;
    text.push_str(key.as_str())?;
    Ok(DistAnswer::Other(Text::from_string(text)))
}

/// Whether no job gave an answer, or it is one without its objects.
fn is_lost(answer: &DistAnswer) -> bool
    ensures { result ≡ is_lost answer.now }
{
    match answer {
        DistAnswer::Done(_, out) => matches!(&out.objects, Objects::Broken(_)),
        DistAnswer::Http(_) => true,
        DistAnswer::TooLarge(_) => true,
        DistAnswer::Other(_) => true,
    }
}

impl ScriptDist {
    /// A client that did no job.
    pub fn new(alloc: Global, lines: Vec<DistLine>) -> Result<ScriptDist, NoMemory>
        ensures { IfOk result (λ d. d ≡ new_doing lines.items) }
    {
        let jobs = Book::new(alloc, lines)?;
        Ok(ScriptDist {
            alloc,
            jobs,
            faults: 0,
        })
    }

    /// How many jobs it did.
    pub fn job_count(&self) -> usize
        ensures { result ≡ length self.now.jobs }
    {
        self.jobs.done_count()
    }

    fn answer(
        &self,
        alloc: Global,
        key: &Text,
        outputs: &[FileObjectSource],
    ) -> Result<DistAnswer, NoMemory>
        ensures value { IfOk result (λ a. a ≡ script_answer self.now.lines key.now self.now.jobs outputs.now) }
        ensures good { IfOk result (λ a. is_good_dist a ≡ true) }
    {
        let bytes = ByteText::from_slice(alloc, key.as_bytes())?;
        match self.jobs.next(&bytes) {
            None => no_answer(alloc, key),
            Some(line) => with_outputs(alloc, outputs, &line.answer),
        }
    }

    fn keep(&mut self, key: &Text, answer: &DistAnswer) -> Result<(), NoMemory>
        ensures kept { OnOk result (self.new ≡ after_job self.old key.now answer.now) }
        ensures later { self.old.faults ≤ self.new.faults }
    {
        let key = ByteText::from_slice(self.alloc, key.as_bytes())?;
        self.jobs.keep(&key, copied(answer)?)?;
        if is_lost(answer) {
            self.faults = self.faults.saturating_add(1);
        }
        Ok(())
    }
}

impl DistClient for ScriptDist {
    ghost jobs = { λ d. Some d.jobs };

    ghost lines = { λ d. Some d.lines };

    ghost scheduler = { λ _. Some (Some (Told None 0 0 0)) };

    ghost fault_count = { λ d. d.faults };

    fn faults(&self) -> u64 {
        self.faults
    }

    fn run(
        &mut self,
        alloc: Global,
        key: &Text,
        _command: &SingleCompileCommand,
        outputs: &[FileObjectSource],
    ) -> Result<DistAnswer, NoMemory> {
        let answer = self.answer(alloc, key, outputs)?;
        self.keep(key, &answer)?;
        Ok(answer)
    }

    fn status(&mut self, _alloc: Global) -> Result<Option<SchedulerStatus>, NoMemory> {
        Ok(Some(SchedulerStatus {
            url: None,
            num_servers: 0,
            num_cpus: 0,
            in_progress: 0,
        }))
    }
}
