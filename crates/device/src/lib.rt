// The projector's face: opening, closing and receiving (RULES, Connection and Commands).
#![tactic(auto)]

mod answering;
pub mod calls;
mod places;
pub mod receiving;
pub mod theorems;
