// The array of rows, each pair held once: the rows of one pair where they stand, and `put_row`, which stores one.
#![tactic(auto)]

mod run;
mod store;

pub use run::{hits, joined, place, union};
pub use store::put_row;

// How many variables there are at most.
pub const VARIABLES: usize = 16;

// A row for each value that a word can tell, for each of the 120 pairs.
pub const PLACES: usize = 3840;

pub type Rows = [u32; PLACES];
