// Time (RULES, Time): n seconds at once, where the record lies. The meaning is one second, applied n times.
#![tactic(auto)]

pub mod connection;
pub mod connections;
pub mod own;
pub mod pass;
pub mod theorems;
