//! Lists of values with keys: one in which the first value with a key is found, and one whose values are taken in turn. Either
//! costs a logarithm.
#![tactic(auto)]

mod book;
mod keyed;
mod table;

pub use book::Book;
pub use keyed::Keyed;
pub use table::Table;

#[cfg(test)]
mod tests;
