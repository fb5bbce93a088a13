//! What the program prints: the report of a drive, the line that tells how a run ended, and the program's version.
#![tactic(auto)]

mod ended;
mod laws;
mod levels;
mod printing;
mod section;
mod sections;
mod words;

pub use ended::{Ended, exit_code, put_error};
pub use laws::printed_replies_are_sent;
pub use levels::put_levels;
pub use printing::{Report, put_report, put_totals};
pub use words::put_version;
