// Lines from input that comes in chunks.
#![tactic(auto)]

pub mod buffer;
pub mod feeding;
