//! A daemon over levels, a workshop and a probe, and drives of any steps over any bytes on any connections.
#![tactic(auto)]

mod backlog;
mod conn;
mod daemon;
mod driven;
mod driver;
mod drives;
mod holding;
mod reading;
mod session;
mod standing;
mod waiting;
mod write;

pub use conn::Conn;
pub use daemon::Daemon;
pub use driven::{Driven, DrivenConn};
pub use driver::Driver;
pub use drives::drive;
pub use session::Session;
