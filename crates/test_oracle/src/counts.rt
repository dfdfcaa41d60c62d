// Every tuple of a small sheet with the tables added: how many are builds, and how many a state allows as choices. `free` has the live options as bits.
use crate::brute::numbered;
use crate::choices::{is_choice, precedes, refusal};
use crate::tables::{Tables, is_build};

// How many builds there are, the first of them by the live options, zero where there is none, and how many choices are allowed.
#[derive(Clone, Copy)]
pub struct Counts {
    pub builds: u64,
    pub first: [u8; 16],
    pub choices: u64,
}

// With a tuple more.
fn with(counts: Counts, free: u32, tuple: [u8; 16], is_build: bool, is_allowed: bool) -> Counts {
    let first = counts.first;
    let mut after = counts;
    if is_build & ((counts.builds == 0) | precedes(free, tuple, first)) {
        after.first = tuple;
    }
    after.builds = std::num::wrapping_add_u64(counts.builds, is_build as u64);
    after.choices = std::num::wrapping_add_u64(counts.choices, is_allowed as u64);
    after
}

// The counts of a sheet that has at most 1,024 tuples, for a state with these lists and pairs.
pub fn counted(
    bytes: &[u8],
    tables: &Tables,
    free: u32,
    domains: [u32; 16],
    stated: [u32; 16],
    rows: &[u32; 3840],
) -> Counts {
    let mut counts = Counts {
        builds: 0,
        first: [0; 16],
        choices: 0,
    };
    for k in 0..1024 {
        let tuple = numbered(bytes, k);
        if tuple.rest != 0 {
            return counts;
        }
        let values = tuple.values;
        let is_build = is_build(bytes, tables, values);
        let is_allowed = is_choice(free, values)
            && refusal(free, domains, stated, rows, values) == 0;
        counts = with(counts, free, values, is_build, is_allowed);
    }
    counts
}
