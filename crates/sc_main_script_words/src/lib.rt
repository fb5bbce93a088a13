//! The words of scripts and of reports: tokens, numbers and requests as they are read, and tokens, counters and replies as
//! they are printed.
#![tactic(auto)]

mod counters;
mod fields;
mod laws;
mod outputs;
mod records;
mod replies;
mod requests;
mod tokens;

pub use counters::put_counters;
pub use fields::{hex_bytes, number, number_within, store_key, text_token, token};
pub use laws::{numbers_are_read_again, tokens_are_read_again};
pub use outputs::{chain_words, objects, output_words};
pub use replies::put_reply;
pub use requests::request_words;
pub use tokens::{put_line, put_named, put_number, put_token};
