// What the calls of a store are made of: operations on a collector with any holder and any agenda.
#![tactic(auto)]

pub mod parts;
pub mod units;
