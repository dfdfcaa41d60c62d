// What a table says of the values of the leaders of the two variables that it names, and a table from its other side.
#![tactic(auto)]

mod sides;
mod turn;

pub use sides::{Side, partner, reach, side_of};
pub use turn::turned;
