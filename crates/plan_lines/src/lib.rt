// The lines of the planning table that tell of options and their values, each put at a place of a lent buffer.
#![tactic(auto)]

mod options;
mod ruling;
mod stock;
mod values;

pub use options::{put_options, steps};
pub use ruling::{put_builds, put_ruling};
pub use stock::{put_idle, put_stock};
pub use values::put_spaced;
