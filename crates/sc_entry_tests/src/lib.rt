//! Tests of `sc_entry`.
#![tactic(auto)]

#[cfg(test)]
mod tests;
