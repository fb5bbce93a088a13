//! Tests of `sc_client`, and of the calls of `sc_wire` that the program doesn't make.
#![tactic(auto)]

#[cfg(test)]
mod connections;
#[cfg(test)]
mod finding;
#[cfg(test)]
mod links;
#[cfg(test)]
mod messages;
#[cfg(test)]
mod tests;
