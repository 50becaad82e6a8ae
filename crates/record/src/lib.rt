// The device record of the projector: what it holds, when it is legal, and the host's calls.
#![tactic(auto)]

pub mod class;
pub mod connection;
pub mod connections;
pub mod fresh;
pub mod host;
pub mod inputs;
pub mod legality;
pub mod names;
pub mod own;
pub mod refusal;
pub mod scan;
pub mod set_up_error;
pub mod setting;
pub mod settings;
pub mod theorems;
pub mod types;
pub mod views;
