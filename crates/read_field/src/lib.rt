// One field of a sheet at a time, and what is tested before any field.
#![tactic(auto)]

mod field;
mod header;

pub use field::{Field, byte_field, pair_field, pair_passes, row_field};
pub use header::wrong_length;
