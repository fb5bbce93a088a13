//! The words of the program's command line: which command they are, and what the program prints of its commands.
#![tactic(auto)]

mod address;
mod command;
mod command_name;
mod printing;
mod reading;
mod refusal;

pub use command::Command;
pub use printing::{put_help, put_usage};
pub use reading::parse_words;
pub use refusal::WordsRefusal;
