// The other side of the wire: what a controller writes, and what it reads of a projector's lines (RULES, Controller).
#![tactic(auto)]

pub mod reading;
pub mod theorems;
pub mod writing;
