//! Mocks of commands: children that give what they were made of, and a creator that hands them out in turn.
#![tactic(auto)]

mod child_call;
mod fault;
mod mock_child;
mod mock_command;
mod mock_creator;

pub use child_call::{Call, ChildCall};
pub use fault::Refused;
pub use mock_child::MockChild;
pub use mock_command::{ChildOrCall, MockCommand};
pub use mock_creator::MockCommandCreator;
