//! Tests of `sc_compile` and `sc_compile_dist`: the map of compilers, and what is told of a distributed client. What plain compilers and a
//! script's parts do the scripts of cases/ and `tools/serving` show.
#![tactic(auto)]

#[cfg(test)]
mod dist;
#[cfg(test)]
mod map;
#[cfg(test)]
mod silent;
