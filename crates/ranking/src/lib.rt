// Orders of items, and the least of a row.
#![tactic(auto)]

pub mod candidate;
pub mod choice;
pub mod ranked;
