// Calls and replies as bytes.
#![tactic(auto)]

pub mod lines;
mod numbered;
