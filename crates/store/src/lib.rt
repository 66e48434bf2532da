// The record store: fourteen calls over any holder and any agenda, with the law on their contracts.
#![tactic(auto)]

pub mod records;
pub mod store;
