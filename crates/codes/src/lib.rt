//! Commands, greetings and readings as numbers, as C passes them: an exported call takes and returns no enum.
#![tactic(auto)]

pub mod command;
pub mod lists;
pub mod readings;
pub mod theorems;
