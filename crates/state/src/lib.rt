// The state of a sheet, what each public call on it answers, and those that hand a state back changed.
#![tactic(auto)]

mod answer;
mod lead;
mod reduction;
mod state;
mod table;
mod trim;

pub use answer::{Answer, CutAnswer, ReadAnswer};
pub use lead::lead_parts;
pub use reduction::{eliminate_parts, reduce_parts};
pub use state::{State, head_in, state_of};
pub use step_reduce::Reduction;
pub use table::add_parts;
pub use trim::trim_parts;
