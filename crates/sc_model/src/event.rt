//! What happens.
ghost use Rattle.std.specs.Prelude.{◌≡◌};

use crate::level::{Cause, Handed, Put};
use crate::message::{Request, Response, StorageHandshakeInfo};
use sc_compile_language::{CompilerKind, Language};
use sc_entry::{ByteText, FileObjectSource, Items, Object, Text};
use sc_stats::{DistInfo, LevelStats, ServerStats};
use std::alloc::AllocError;

#[derive(Drop)]
pub enum Step {
    Read(u64, u64),
    Serve(u64),
    Back(u64),
    Pass(u64),
}

#[derive(Drop)]
pub enum Owner {
    Request(u64, u64),
    Write(u64),
    Nobody,
}

/// What is compiled, and by whom.
#[derive(Clone, Copy)]
pub struct Task {
    pub kind: CompilerKind,
    pub language: Language,
}

#[derive(Drop)]
pub enum Parsed {
    Started(Task),
    NotCompile,
    CannotCache(Text, Option<Text>),
    Unsupported(Text),
}

/// What a Began tells.
#[derive(Drop)]
pub enum Told {
    Compile(Parsed),
    Stats(ServerStats),
    Dist(DistInfo),
    Handshake(StorageHandshakeInfo),
    Valid(bool),
    Nothing,
}

#[derive(Drop)]
pub struct KeyFound {
    pub key: Text,
    pub outputs: Items<FileObjectSource>,
    pub locally_preprocessed: bool,
    pub cacheable: bool,
}

#[derive(Clone, Copy)]
pub enum Status {
    Code(u8),
    Signal(u8),
    Neither,
}

#[derive(Drop)]
pub struct Output {
    pub status: Status,
    pub stdout: ByteText,
    pub stderr: ByteText,
}

#[derive(Drop)]
pub enum KeyStep {
    Key(KeyFound),
    ProcessError(Output),
    Fault(Items<Text>),
}

#[derive(Clone, Copy)]
pub enum Mode {
    Whole,
    Raw,
    Path,
    Pre,
    Size,
}

#[derive(Drop)]
pub enum Answer {
    Hit(ByteText, bool),
    Miss,
    Refused(Cause),
    Found(ByteText),
    Size(Option<u64>, Option<LevelStats>),
}

#[derive(Drop)]
pub enum Placing {
    Done,
    Missing(Text),
    Fault(Items<Text>),
}

#[derive(Drop)]
pub enum Objects {
    Collected(Items<Object>),
    Broken(Items<Text>),
}

#[derive(Drop)]
pub struct RunOutput {
    pub output: Output,
    pub objects: Objects,
}

#[derive(Drop)]
pub enum RunAnswer {
    Output(RunOutput),
    ProcessError(Output),
    Fault(Items<Text>),
}

#[derive(Drop)]
pub enum DistAnswer {
    Done(Text, RunOutput),
    Http(Text),
    TooLarge(Text),
    Other(Text),
}

#[derive(Clone, Copy)]
pub enum MissType {
    Normal,
    ForcedNoCache,
    ForcedRecache,
    TimedOut,
    CacheReadError,
}

#[derive(Drop)]
pub enum DistType {
    NoDist,
    Ok(Text),
    Error,
}

/// How a job ended, before it was stored.
#[derive(Drop)]
pub enum Verdict {
    Error,
    CacheHit(u64),
    CacheMiss(MissType, DistType, u64),
    NotCached(DistType, u64),
    NotCacheable(DistType, u64),
    CompileFailed(DistType, u64),
    ProcessError,
    Http,
    Fault,
}

#[derive(Clone, Copy)]
pub enum Written {
    Done,
    Refused(Cause),
}

/// The eighteen kinds of event.
#[derive(Drop)]
pub enum What {
    Idle,
    Passed(u64),
    Taken(u64, ByteText),
    Closed(u64),
    Began(Request, Told),
    Keyed(bool, bool, KeyStep),
    Asked(u64, Text, Mode, Answer, Items<Handed>),
    Placed(Placing),
    TokenTaken,
    Ran(RunAnswer),
    Dist(DistAnswer),
    Outcome(Verdict, Task),
    Reserved(u64, Text, u64, Written),
    Filled(u64, Text, ByteText, bool, Written),
    Committed(u64, Text, ByteText, Written),
    Wrote(u64, Text, ByteText, Mode, bool, Written),
    WriteEnded(Put, Items<Handed>),
    Sent(Response),
    TooLong(u64),
}

#[derive(Drop)]
pub struct Event {
    pub moment: u64,
    pub owner: Owner,
    pub what: What,
}

impl Clone for KeyFound {
    ghost is_clone = { λ original copy. copy ≡ original };

    fn clone(&self) -> Result<KeyFound, AllocError> {
        Ok(KeyFound {
            key: self.key.clone()?,
            outputs: self.outputs.clone()?,
            locally_preprocessed: self.locally_preprocessed,
            cacheable: self.cacheable,
        })
    }
}

impl Clone for Output {
    ghost is_clone = { λ original copy. copy ≡ original };

    fn clone(&self) -> Result<Output, AllocError> {
        Ok(Output {
            status: self.status,
            stdout: self.stdout.clone()?,
            stderr: self.stderr.clone()?,
        })
    }
}

impl Clone for Objects {
    ghost is_clone = { λ original copy. copy ≡ original };

    fn clone(&self) -> Result<Objects, AllocError> {
        match self {
            Objects::Collected(inner) => Ok(Objects::Collected(inner.clone()?)),
            Objects::Broken(inner) => Ok(Objects::Broken(inner.clone()?)),
        }
    }
}

impl Clone for RunOutput {
    ghost is_clone = { λ original copy. copy ≡ original };

    fn clone(&self) -> Result<RunOutput, AllocError> {
        Ok(RunOutput {
            output: self.output.clone()?,
            objects: self.objects.clone()?,
        })
    }
}
