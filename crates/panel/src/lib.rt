//! The workroom panel (RULES, Panel): up to eight projectors, each with a password, a greeting, one command under way,
//! and what was last read of its power, input and lamps.
#![tactic(auto)]

mod calls;
pub mod heard;
mod legality;
pub mod password;
pub mod refusal;
mod sending;
mod shown;
mod step;
pub mod talk;
pub mod theorems;
pub mod types;
