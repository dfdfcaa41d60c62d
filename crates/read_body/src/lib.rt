// The body of a sheet, which follows its version and the count of its bytes, read into arrays.
#![tactic(auto)]

mod body;
mod sizes;

pub use body::read_body;
