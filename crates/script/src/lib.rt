// Lines of a script: a line in, a call out.
#![tactic(auto)]

pub mod line;
mod naming;
mod numeral;
pub mod reading;
