// Words of PJLink: bytes, texts and inputs, as both sides of the wire read and write them, Classes 1 and 2.
#![tactic(auto)]

pub mod byte;
pub mod class;
pub mod codec;
pub mod error_reply;
pub mod errors;
pub mod input;
pub mod lamp;
pub mod list;
pub mod mutes;
pub mod number;
pub mod power;
pub mod texts;
pub mod theorems;
