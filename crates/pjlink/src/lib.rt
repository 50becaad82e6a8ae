// The vocabulary of PJLink, Classes 1 and 2, as both sides of the wire use it: bodies, commands, what a line asks for,
// answers, and how each is written and read.
#![tactic(auto)]

pub mod answer;
pub mod body;
pub mod command;
pub mod form;
pub mod greeting;
pub mod reply;
pub mod request;
pub mod theorems;
pub mod write;
