//! The commands that are a client's: each asks a server, and shows what that answers.
#![tactic(auto)]

mod asking;
mod compiling;
mod connecting;
mod ending;
mod failing;
mod printed;
mod requests;
mod showing;

pub use compiling::run_compile;
pub use requests::{run_dist_status, run_stats, run_stop, run_zero};
