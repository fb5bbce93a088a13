//! Tests of `sc_wire_address`: what addresses show. What a text is read as `sc_main_tests` shows, what messages are on the wire
//! `tools/tables`, and the calls of `sc_wire` that the program doesn't make `sc_client_tests`.
#![tactic(auto)]

#[cfg(test)]
mod address;
