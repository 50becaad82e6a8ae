// Lines read from any source of bytes, and bytes, numbers and forms with numbers in them written to any sink, in fixed
// memory. Contracts say which bytes are read and written, whatever the source and the sink do, and that an error which
// a call passes on is one of theirs.
#![tactic(auto)]

pub mod forms;
pub mod lines;
mod memory;
pub mod reader;
pub mod streams;
#[cfg(test)]
mod tests;
pub mod trial;
pub mod writer;
