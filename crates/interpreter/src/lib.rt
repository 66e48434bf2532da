// A script that comes in chunks, performed line by line.
#![tactic(auto)]

pub mod recorder;
pub mod running;
pub mod session;
