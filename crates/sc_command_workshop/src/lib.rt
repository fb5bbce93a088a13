//! The workshop that runs compilers: a compile's command, run by a creator of commands, and the files that it left.
#![tactic(auto)]

mod ccompile_command;
mod collecting;
mod command_workshop;
mod compile_command;
mod execute_error;
mod executing;
mod placing;
mod preparing;
mod running;
mod single;
mod statuses;
mod texts;

pub use ccompile_command::{CCompileCommand, CompileCommand};
pub use command_workshop::CommandWorkshop;
pub use compile_command::CompileCommandImpl;
pub use execute_error::ExecuteError;
pub use preparing::prepare;
