//! What `replay` and `burnt` have in common (RULES, The programs): answering a command line, reading a form and logs,
//! writing output or saving it in a file, reporting failures in words, and the status of a program.
#![tactic(auto)]

pub mod about;
pub mod joined;
pub mod outside;
mod progress;
pub mod run;
pub mod said;
pub mod status;
pub mod telling;
