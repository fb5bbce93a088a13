//! Compilers as traits: what reads a compile's words, what finds its key, and what tells the command that it runs; a compile's
//! begin and key step by compilers of any kind; and plain compilers, whose words name their key.
#![tactic(auto)]

mod arguments;
mod compilation;
mod compiler;
mod control;
mod hashed;
mod hasher;
mod laws;
mod plain_compilation;
mod plain_compiler;
mod plain_hasher;
mod proxy;
mod requests;
mod steps;
#[cfg(test)]
mod tests;
mod write_info;

pub use arguments::CompilerArguments;
pub use compilation::Compilation;
pub use compiler::Compiler;
pub use control::{CacheControl, Cacheable};
pub use hashed::{HashAnswer, HashResult};
pub use hasher::CompilerHasher;
pub use laws::plain_compilers_read_plainly;
pub use plain_compilation::PlainCompilation;
pub use plain_compiler::PlainCompiler;
pub use plain_hasher::PlainHasher;
pub use proxy::{CompilerProxy, Proxied};
pub use sc_model::{DistType, MissType, SingleCompileCommand};
pub use steps::{begin_by, key_step_by};
pub use write_info::CacheWriteInfo;
