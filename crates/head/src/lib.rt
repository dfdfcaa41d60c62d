// A state as its head, which goes by value, and its rows, which are lent.
#![tactic(auto)]

ghost use Rattle.head.specs.Held.{RowsShaped};

pub use pairs::{Rows, VARIABLES};

// The largest size.
pub const VALUES: usize = 32;

// A state but for its rows: how many variables it has, and for each its size, its domain, its leader and the variables that it is stated with.
#[derive(Clone, Copy)]
pub struct Head {
    pub n: usize,
    pub sizes: [u8; VARIABLES],
    pub domains: [u32; VARIABLES],
    pub leaders: [u8; VARIABLES],
    pub stated: [u32; VARIABLES],
}

// What a type says of every array of rows, which is not known of one behind a reference: a function on lent rows learns it of a copy, which the compiler drops.
pub fn whole(rows: Rows)
    ensures { RowsShaped rows }
{}
