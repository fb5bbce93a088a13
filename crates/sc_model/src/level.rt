//! Stores, as the daemon's definitions see them.
ghost use Rattle.std.specs.Prelude.{◌≡◌};

use sc_entry::{ByteText, CacheMode, Items, Text};
use std::alloc::AllocError;

/// Why a store refuses.
#[derive(Clone, Copy)]
pub enum Cause {
    FileTooLarge,
    Io,
    Reserved,
    BadKey,
    BadEntry,
    ReadOnly(Store),
    RemoteFault(RemoteFault),
    /// No entry of this number is open for the key.
    NotOpen(u64),
}

#[derive(Clone, Copy)]
pub enum RemoteFault {
    AlreadyExists,
    RateLimited,
    Other,
}

/// Which text a read-only store has.
#[derive(Clone, Copy)]
pub enum Store {
    Disk,
    Remote,
    Wrapper,
}

/// A put's answer.
#[derive(Drop)]
pub enum Put {
    Done,
    Refused(Cause),
    Level(u64, Cause),
    NoLevels,
}

#[derive(Clone, Copy)]
pub enum LevelKind {
    Disk,
    Remote,
}

/// What does not change of a level.
#[derive(Drop)]
pub struct LevelFacts {
    pub kind: LevelKind,
    /// It stands in a `ReadOnlyStorage`.
    pub wrapped: bool,
    pub configured: CacheMode,
    pub mode: CacheMode,
    pub capacity: u64,
    pub root: Text,
}

#[derive(Clone, Copy)]
pub enum LevelPolicy {
    Required,
    Background,
    Off,
}

/// How the daemon writes: one store, or levels with a policy each.
#[derive(Drop)]
pub enum Policy {
    Single,
    Levels(Items<LevelPolicy>),
}

/// A write that is handed on.
#[derive(Drop)]
pub struct Handed {
    pub level: u64,
    pub key: Text,
    pub bytes: ByteText,
    pub marked: bool,
}

/// What comes of making a distributed client.
#[derive(Drop)]
pub enum Making {
    Made,
    /// The scheduler isn't reached.
    Unreachable,
    /// The client may not speak to the scheduler, which is told in this text.
    NoToken(Text),
}

/// Where a distributed client stands.
#[derive(Drop)]
pub enum DistClientState {
    Disabled,
    Made,
    FailWithMessage(Text),
    RetryCreateAt(u64),
}

impl Clone for Handed {
    ghost is_clone = { λ original copy. copy ≡ original };

    fn clone(&self) -> Result<Handed, AllocError> {
        Ok(Handed {
            level: self.level,
            key: self.key.clone()?,
            bytes: self.bytes.clone()?,
            marked: self.marked,
        })
    }
}

impl Clone for Making {
    ghost is_clone = { λ original copy. copy ≡ original };

    fn clone(&self) -> Result<Making, AllocError> {
        match self {
            Making::Made => Ok(Making::Made),
            Making::Unreachable => Ok(Making::Unreachable),
            Making::NoToken(text) => Ok(Making::NoToken(text.clone()?)),
        }
    }
}
