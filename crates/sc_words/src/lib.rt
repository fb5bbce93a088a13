//! Words that are taken one after another, what reading them comes to, and bytes that are appended.
#![tactic(auto)]

mod appending;
mod cutting;
mod line_words;
mod words;
mod words_error;

pub use appending::put;
pub use cutting::cut;
pub use line_words::LineWords;
pub use words::Words;
pub use words_error::WordsError;
