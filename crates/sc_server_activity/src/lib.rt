//! When a server stops: the messages by which its services say what came, the wait for a shutdown or for a time without a
//! request, and the count of the services that are live.
#![tactic(auto)]

mod active_info;
mod live_count;
mod messages;
mod server_message;
mod shutdown_or_inactive;
mod stop_cause;
mod wait_until_zero;

pub use active_info::{ActiveInfo, LiveServices};
pub use live_count::{LiveCount, LiveService};
pub use messages::Messages;
pub use server_message::ServerMessage;
pub use shutdown_or_inactive::ShutdownOrInactive;
pub use stop_cause::StopCause;
pub use wait_until_zero::WaitUntilZero;
