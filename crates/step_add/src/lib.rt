// Adding a table for two variables: what it makes of a head and rows.
#![tactic(auto)]

mod table;

pub use table::add;
