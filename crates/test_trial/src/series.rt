// A second series of random sheets, drawn from a seed of its own, as the inputs of the first are not to hang on it: on each a list of calls that has runs
// among them that a named option leads, and on the state handed back last orders.
use crate::sheets::check_builds;
use test_calls::tally::Tally;
use test_calls::{calls, tally};
use test_checks::{leads, orders};
use test_inputs::damage::DAMAGED;
use test_inputs::{families, random};

// What the seed of a list differs by from that of the sheets.
const APART: u64 = 13787848793156543929;

// A sheet of a family, a list of calls on it, and all that is claimed of the state handed back last.
fn run_one(family: u8, tally: Tally) -> Tally {
    let mut seed = tally.seed;
    let sheet = families::make(family, &mut seed);
    let calls = random::index(&mut seed, 6);
    let buffer = sheet.bytes;
    let bytes = families::first(&buffer, sheet.length);
    let reading = calls::read(bytes);
    let list = tally::start(seed ^ APART);
    let run = leads::check_leads(reading.state, calls, list);
    let ordered = orders::check(run.state, run.tally);
    let checked = check_builds(family, bytes, run, ordered);
    let with_list = tally::with_leads(tally::with_seed(tally, seed), checked);
    tally::with_orders(with_list, checked)
}

fn run_family(family: u8, times: usize, tally: Tally) -> Tally {
    let mut after = tally;
    for _ in 0..times {
        after = run_one(family, after);
    }
    after
}

// How many sheets of a family are tried.
fn times(family: u8) -> usize {
    match family {
        families::WIDER | families::LARGE => 50,
        families::LARGER => 20,
        families::FULL | families::LARGEST => 1,
        _ => 200,
    }
}

// Sheets of every family: the other kinds of inputs come after these.
pub(crate) fn run(seed: u64, tally: Tally) -> Tally {
    let mut after = tally::with_seed(tally, seed);
    for family in 0..DAMAGED {
        after = run_family(family, times(family), after);
    }
    after
}
