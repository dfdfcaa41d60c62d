// One random input after the other.
use crate::sheets::check_sheet;
use test_calls::tally;
use test_calls::tally::Tally;
use test_inputs::damage::{DAMAGED, KINDS, RANDOM_BYTES};
use test_inputs::{damage, families};

fn run_one(kind: u8, tally: Tally) -> Tally {
    let mut seed = tally.seed;
    let sheet = damage::input(kind, &mut seed);
    let bytes = sheet.bytes;
    let counted = tally::count(tally, tally::FAMILIES + kind as usize);
    check_sheet(
        kind,
        families::first(&bytes, sheet.length),
        tally::with_seed(counted, seed),
    )
}

fn run_kind(kind: u8, times: usize, tally: Tally) -> Tally {
    let mut after = tally;
    for _ in 0..times {
        after = run_one(kind, after);
    }
    after
}

// How many inputs of a kind are tried.
fn times(kind: u8) -> usize {
    match kind {
        families::DENSE | families::WIDE | families::LARGE => 1000,
        families::WIDER | families::LARGER => 500,
        families::FULL | families::LARGEST => 20,
        DAMAGED => 10000,
        RANDOM_BYTES => 20000,
        _ => 2000,
    }
}

// Inputs of every kind.
pub(crate) fn run(tally: Tally) -> Tally {
    let mut after = tally;
    for kind in 0..KINDS {
        after = run_kind(kind, times(kind), after);
    }
    after
}
