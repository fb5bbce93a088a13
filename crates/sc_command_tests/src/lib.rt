//! Tests of `sc_command`, its mocks, and the workshop over them.
#![tactic(auto)]

#[cfg(test)]
mod mocks;
#[cfg(test)]
mod tokens;
#[cfg(test)]
mod workshop;
