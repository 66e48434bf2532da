// The fourteen calls on a collector, a holder and an agenda.
#![tactic(auto)]

pub mod engine;
mod making;
pub mod performs;
