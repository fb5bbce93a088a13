//! What a daemon is, as plain data, and the parts of a job that touch nothing: how a run is judged, what is stored of it,
//! what its last reply is, what its events count and which notes its compiler told.
#![tactic(auto)]

mod finish;
mod level_rows;
mod notes;
mod nothing;
mod rows;
mod since;
mod stored;
mod verdict;

pub use finish::{fatal_text, finish_fatal, finish_hit, finish_http, finish_output};
pub use level_rows::{Origin, asked_row, count_level, refused_row, written_row, wrote_row};
pub use notes::run_notes;
pub use nothing::adds_nothing;
pub use rows::{row_of_began, row_of_keyed, row_of_parsed, row_of_verdict, row_of_write};
pub use since::Since;
pub use stored::entry_of;
pub use verdict::{Judgement, judge};
