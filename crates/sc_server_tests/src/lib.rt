//! Tests of `sc_clock` and `sc_server_activity`.
#![tactic(auto)]

#[cfg(test)]
mod activity;
#[cfg(test)]
mod clock;
