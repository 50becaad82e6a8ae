//! Our board as the demands speak of it (specs/Board): for each field of `ours` one function whose promise is that
//! field's value. Those of `projector` are the calls on any record, which a host links: each tests the record and makes
//! the call on the legal one. The others do nothing but call what a host links. So a demand that spoke of another
//! function than the linked one would not be proved.
#![tactic(auto)]

pub mod projector;
pub mod reader;
pub mod sums;
pub mod swap;
pub mod writer;
