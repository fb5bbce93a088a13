//! Tests of `sc_lru`.
#![tactic(auto)]

#[cfg(test)]
mod shifted;
#[cfg(test)]
mod tests;
