//! What the daemon compiles by: the compiler that a probe finds, the reading of a compile's words, and the workshop that
//! runs compilers and places what they left.
#![tactic(auto)]

mod answers;
mod arguments;
mod beginning;
mod first_word;
mod key_line;
mod keying;
mod map;
mod map_laws;
mod place_line;
mod placement;
mod plain;
mod plain_laws;
mod probe;
mod run_line;
mod script_workshop;
mod tool;
mod workshop;

pub use beginning::begin;
pub use key_line::{KeyLine, KeyRefusal};
pub use keying::key_step;
pub use map::{CompilerCacheEntry, CompilerMap};
pub use map_laws::kept_as_detected;
pub use place_line::PlaceLine;
pub use plain::PlainCompiler;
pub use plain_laws::plain_outputs_are_named;
pub use probe::{Probe, ToolTable};
pub use run_line::RunLine;
pub use sc_model::{SingleCompileCommand, output_with};
pub use script_workshop::ScriptWorkshop;
pub use tool::{Detected, Tool, ToolKind};
pub use workshop::Workshop;
