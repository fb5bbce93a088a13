//! Tests of `sc_stats` and `sc_stats_json`: the calls that the program doesn't make. What it prints of statistics `tools/tables` shows.
#![tactic(auto)]

#[cfg(test)]
mod fixtures;
#[cfg(test)]
mod json;
#[cfg(test)]
mod stats;
