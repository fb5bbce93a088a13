//! What the code keeps of a request.
use crate::event::{DistType, KeyFound, MissType, Task, Verdict};
use crate::level::{Cause, Handed};
use crate::message::{CompileFinished, Response};
use sc_entry::{ByteText, Items, Queue, Text};
use sc_stats::ServerStats;

/// A job whose key was found.
#[derive(Drop)]
pub struct Job {
    pub task: Task,
    pub found: KeyFound,
    pub at: u64,
    pub client: bool,
    pub first: bool,
}

/// A job that is to be run.
#[derive(Drop)]
pub struct Work {
    pub job: Job,
    pub miss: MissType,
    pub dist: DistType,
    pub from: u64,
}

/// What is put, and whether a local run made it.
#[derive(Drop)]
pub struct Bytes {
    pub key: Text,
    pub bytes: ByteText,
    pub run: bool,
}

/// What is still to be sent.
#[derive(Drop)]
pub struct Ending {
    pub notes: Queue<ByteText>,
    pub last: CompileFinished,
}

/// The first refusal of a write part.
#[derive(Clone, Copy)]
pub enum Refusal {
    NoneYet,
    At(u64, Cause),
}

#[derive(Drop)]
pub enum Phase {
    AtBegin,
    AtSend(Response),
    AtStarted(Task),
    AtKey(Task, bool),
    AtAsk(Job, u64),
    AtPlace(Job, ByteText, u64),
    AtDist(Work),
    AtTake(Work),
    AtRun(Work),
    AtEnd(Verdict, Task, Ending),
    AtStore(Verdict, Task, Bytes, Ending),
    AtWrite(Bytes, Queue<u64>, Refusal, Option<Ending>),
    AtFill(Bytes, u64, Queue<u64>, Refusal, Option<Ending>),
    AtCommit(Bytes, u64, Queue<u64>, Refusal, Option<Ending>),
    AtFinish(Queue<ByteText>, CompileFinished),
    RawAsk(u64, Text),
    PathAsk(Text),
    PreAsk(u64, Text),
    PrePut(Bytes, Queue<u64>, Refusal),
    SizeAsk(u64, ServerStats, Items<Sized>),
    AtEnded(Items<Response>),
    AtOver,
}

/// What a level told of its size and counters.
#[derive(Drop)]
pub struct Sized {
    pub size: Option<u64>,
    pub counters: Option<sc_stats::LevelStats>,
}

/// A handed write that is not done.
#[derive(Drop)]
pub struct Pending {
    pub number: u64,
    pub handed: Handed,
    pub at: u64,
    pub backfill: bool,
    pub stage: Stage,
    pub since: u64,
}

#[derive(Clone, Copy)]
pub enum Stage {
    Fresh,
    Reserved,
    Filled,
}
