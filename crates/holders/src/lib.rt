// Rows of places that hold numbers, and agendas whose places may also bear a key.
#![tactic(auto)]

pub mod agenda;
pub mod clearing;
pub mod holder;
pub mod key;
pub mod order;
pub mod registers;
mod row;
pub mod table;
