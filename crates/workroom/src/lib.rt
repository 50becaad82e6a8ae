//! The workroom panel joined with our projector (RULES, Panel), stated for any panel and proved of ours (specs/,
//! proofs/). The calls of `ours_panel` are the panel's own and those of C: their contracts are its fields.
#![tactic(auto)]

pub mod theorems;
