// The parts of a follow step: who leads, who is stated with whom, and the rows of the third variables.
#![tactic(auto)]

mod head_after;
mod rows_after;

pub use head_after::{leaders_after, stated_after, thirds_of};
pub use rows_after::move_thirds;
