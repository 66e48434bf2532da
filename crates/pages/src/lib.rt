// Pages: their size classes, what is known of each page, and the choice of pages.
#![tactic(auto)]

pub mod class;
pub mod classes;
pub mod entry;
pub mod maps;
pub mod table;
