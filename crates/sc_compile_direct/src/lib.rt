//! A compile that is done at once: its key, its lookup, its run and its write, one action after another.
#![tactic(auto)]

mod answer;
mod direct;
mod job_event;
mod running;

pub use answer::{CompileAnswer, CompileResult, answer_in};
pub use direct::{Compiled, get_cached_or_compile};
pub use job_event::JobEvent;
