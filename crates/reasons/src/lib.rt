//! Texts for people, in one table each: the meaning of each number that a call gives (RULES, The numbers a call gives),
//! the name of each setting of a set-up, and the version and kit of archive and programs. The programs print these
//! texts, and C gets them from the archive, with a NUL after each.
#![tactic(auto)]

pub mod about;
mod nul;
pub mod numbers;
pub mod settings;
pub mod theorems;
