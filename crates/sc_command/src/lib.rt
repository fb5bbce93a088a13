//! Commands: tokens that bound how many children run at once, and traits over children, commands and their creators.
#![tactic(auto)]

mod client;
mod command_child;
mod creator;
mod fault;
mod output;
mod pool;
mod refusal;
mod run_command;
mod setting;
mod shared_creator;
mod statuses;
mod variables;
mod words;

pub use client::{Acquired, AcquiredOwned, Client};
pub use command_child::CommandChild;
pub use creator::{CommandCreator, CommandCreatorSync};
pub use fault::CommandFault;
pub use output::Output;
pub use pool::{Pool, Token};
pub use refusal::{CommandError, CommandRefusal, NewCommandError, SpawnError, WaitFault};
pub use run_command::RunCommand;
pub use setting::{Setting, StdioMode};
pub use shared_creator::SharedCreator;
pub use statuses::{ExitStatusValue, exit_status};
pub use variables::Variables;
pub use words::append_words;
