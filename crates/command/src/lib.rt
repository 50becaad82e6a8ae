//! What the programs over a log share (RULES, The programs): the words of a command line, several files as one log, the
//! words on standard error, and the status with which a program ends.
#![tactic(auto)]

pub mod asked;
