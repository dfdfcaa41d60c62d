// Who reaches whom "through tables functional along the way", one word for each variable, and so who governs whom.
#![tactic(auto)]

mod partners;
mod reach;

pub use partners::functional;
pub use reach::{closure, edges, governors, paths};
