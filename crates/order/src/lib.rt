// In which order to plan: an order is tested, or the first good one is found.
#![tactic(auto)]

mod find;
mod test;

pub use find::find_order;
pub use test::test_order;
