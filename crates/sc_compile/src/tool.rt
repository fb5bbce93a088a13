//! The tools of a table.

use sc_compile_table::Keyed;
use sc_entry::{ByteText, Text};
use sc_model::CompilerKind;

/// What a tool is.
#[derive(Clone, Copy)]
pub enum ToolKind {
    Compiler(CompilerKind),
    NotACompiler,
}

/// A file that may be a compiler.
#[derive(Drop)]
pub struct Tool {
    pub path: ByteText,
    /// When it was changed.
    pub moment: u64,
    pub kind: ToolKind,
}

impl Keyed for Tool {
    ghost key = { λ t. t.path };

    fn key(&self) -> &ByteText {
        &self.path
    }
}

/// What a probe found at a path.
#[derive(Drop)]
pub enum Detected {
    Compiler(CompilerKind),
    /// No compiler, and why.
    Refused(Text),
}
