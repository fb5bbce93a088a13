//! What no script of the folder cases/, and no script over the program, can show: a server over links in memory.
mod serving;
