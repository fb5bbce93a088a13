ghost use Rattle.std.specs.Prelude.{◌≡◌, [], None, false};
ghost use Rattle.sc_command.specs.Settings.{fresh_setting};

use crate::variables::Variables;
use sc_entry::ByteText;
use std::alloc::Global;

/// What a stream of a child is connected to.
#[derive(Clone, Copy, Debug, Drop, PartialEq, Eq)]
pub enum StdioMode {
    /// The same stream of this process.
    Inherit,
    /// Nothing: reads give the end, and what is written is lost.
    Null,
    /// A pipe, whose other end is the child's to hand out.
    Piped,
}

/// What a command runs beside its arguments, and how.
#[derive(Drop)]
pub struct Setting {
    pub program: ByteText,
    /// What is set beside the environment of this process, or in its place where that is cleared.
    pub variables: Variables,
    /// Whether the child gets nothing of the environment of this process.
    pub clears: bool,
    /// Where the child runs. None: where this process does.
    pub folder: Option<ByteText>,
    pub stdin: StdioMode,
    pub stdout: StdioMode,
    pub stderr: StdioMode,
    /// Whether the child may use the tokens of this process.
    pub shares_jobserver: bool,
}

impl Setting {
    /// A program in this process's environment, folder and streams.
    pub fn new(alloc: Global, program: ByteText) -> Setting
        ensures { result ≡ fresh_setting program }
    {
        Setting {
            program,
            variables: Variables::new(alloc),
            clears: false,
            folder: None,
            stdin: StdioMode::Inherit,
            stdout: StdioMode::Inherit,
            stderr: StdioMode::Inherit,
            shares_jobserver: false,
        }
    }
}
