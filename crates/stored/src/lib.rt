// Settings that survive a board swap (RULES, Stored form): a record stored as a form, and a form loaded.
#![tactic(auto)]

pub mod error;
mod form;
pub mod loading;
mod putting;
mod reader;
pub mod storing;
pub mod theorems;
