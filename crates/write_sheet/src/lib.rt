// Writing a sheet's bytes from arrays.
#![tactic(auto)]

mod writing;

pub use writing::{Extent, extent_of, write_into};
