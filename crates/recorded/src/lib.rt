//! What a log of a board's history records of any calls, that it replays as it was, the step of a player, and that of a
//! reader, who takes the lines of a chain one by one (RULES, History of a board).
#![tactic(auto)]

pub mod chain;
pub mod play;
pub mod stray;
pub mod theorems;
