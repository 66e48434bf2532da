// An agenda that keeps its keyed places in a binary heap.
#![tactic(auto)]

pub mod agenda;
mod heap;
