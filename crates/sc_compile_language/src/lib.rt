//! What a source file is written in, which compiler takes it, and how both are called.
#![tactic(auto)]

mod compiler_kind;
mod language;

pub use compiler_kind::{CCompilerKind, CompilerKind};
pub use language::Language;

#[cfg(test)]
mod tests;
