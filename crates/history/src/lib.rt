//! The history of a board as a log (RULES, History of a board): the lines of a header, of a call that can change a
//! record and of what a record shows, how they are read, and the recorder.
#![tactic(auto)]

pub mod call;
pub mod entry;
mod figures;
mod plain;
mod put;
pub mod read;
pub mod recorder;
pub mod shown;
#[cfg(test)]
mod tests;
pub mod theorems;
