// What a version fixes for the writer, and which states it takes.
#![tactic(auto)]

mod blank;
mod layout;

pub use blank::rows_pass;
pub use layout::{Fixed, fits_version, fixed_by};
