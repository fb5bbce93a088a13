//! What a key step answers.

use sc_entry::{Items, Text};
use sc_model::Output;

/// A key, and the compile that it names.
#[derive(Drop)]
pub struct HashResult<C> {
    pub key: Text,
    pub compilation: C,
    /// What may name the toolchain on another machine; empty where nothing does.
    pub weak_toolchain_key: Text,
}

/// What a key step answers.
#[derive(Drop)]
pub enum HashAnswer<C> {
    Found(HashResult<C>),
    /// A process that it ran ended so.
    ProcessError(Output),
    /// A fault's chain of texts.
    Fault(Items<Text>),
}
