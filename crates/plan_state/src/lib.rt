// The planning table of a sound state, put at a place of a lent buffer.
#![tactic(auto)]

mod plan;
mod rulings;
mod surveys;

pub use plan::put_plan;
