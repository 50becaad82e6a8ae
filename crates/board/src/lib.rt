// The face that a host links, in C (include/ceiling.h): thin calls over the proved crates, none with a precondition.
#![tactic(auto)]

pub mod by_value;
pub mod days;
pub mod face;
pub mod forms;
pub mod lamps;
mod lists;
pub mod log;
pub mod projector;
pub mod reader;
pub mod results;
pub mod sessions;
pub mod setting_up;
pub mod sums;
pub mod theorems;
pub mod which;
pub mod workroom;
pub mod writer;
