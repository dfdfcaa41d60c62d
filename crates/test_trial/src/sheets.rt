// One input: it is read, and where it is a sheet a list of calls runs on it.
use crate::unsound;
use state::State;
use test_calls::calls::Reading;
use test_calls::tally::Tally;
use test_calls::{calls, cuts, tally, versions};
use test_checks::lists::Run;
use test_checks::{builds, lists, reads};
use test_inputs::{families, random};
use test_rules::live;

// A state that a step led to is not written.
fn check_unwritten(state: State, tally: Tally) -> Tally {
    let mut seed = tally.seed;
    let version = versions::any(&mut seed);
    reads::check_refused(state, version, 18, tally::with_seed(tally, seed))
}

// The writer takes a state back exactly when no step was taken since it was read: byte for byte where no table was added.
fn check_writer(bytes: &[u8], run: Run, tally: Tally) -> Tally {
    if run.steps != 0 {
        return check_unwritten(run.state, tally);
    }
    if run.added != 0 {
        return reads::check_with_tables(run.state, tally);
    }
    reads::check_round_trip(bytes, run.state, tally)
}

// All tuples of a sheet of a small family, some of another.
pub(crate) fn check_builds(family: u8, bytes: &[u8], run: Run, tally: Tally) -> Tally {
    let state = run.state;
    let tables = run.tables;
    if family < families::LARGE {
        return builds::check_all(bytes, &tables, state, tally);
    }
    let tried = builds::check_some(bytes, &tables, state, 20, tally);
    let judged = builds::check_verdict(bytes, &tables, state, tried);
    builds::check_large_search(bytes, &tables, state, judged)
}

// What holds whatever the family: refused calls, writing back, and a state with a fault.
fn check_last(bytes: &[u8], run: Run) -> Tally {
    let refused = builds::check_refusals(bytes, run.state, run.tally);
    unsound::check(run.state, check_writer(bytes, run, refused))
}

// The writer takes a state back where no option follows and no list became shorter.
fn check_trimmed_writer(before: State, run: Run) -> Tally {
    if (run.steps != 0) | live::are_other_lists(before, run.state) {
        return check_unwritten(run.state, run.tally);
    }
    reads::check_with_tables(run.state, run.tally)
}

// What the seed of the lists below differs by.
const APART: u64 = 13787848793156543929;

// A list of calls with trimmings among them, and all that is claimed of the state handed back last. It is drawn from a seed of its own, as other inputs are
// not to hang on what it draws.
fn check_trims(family: u8, bytes: &[u8], state: State, tally: Tally) -> Tally {
    let mut seed = tally.seed ^ APART;
    let calls = random::index(&mut seed, 6);
    let run = lists::check_trims(state, calls, tally::start(seed));
    let written = check_trimmed_writer(state, run);
    tally::with_trims(tally, check_builds(family, bytes, run, written))
}

// Two lists of calls on a sheet that was read, and all that is claimed of the state handed back last.
fn check_run(family: u8, bytes: &[u8], state: State, tally: Tally) -> Tally {
    let mut seed = tally.seed;
    let calls = random::index(&mut seed, 8);
    let run = lists::check_list(state, calls, tally::with_seed(tally, seed));
    let checked = check_builds(family, bytes, run, check_last(bytes, run));
    check_trims(family, bytes, state, checked)
}

// Bytes that were read, and a list of calls where they are a sheet.
fn check_bytes(family: u8, bytes: &[u8], reading: Reading, tally: Tally) -> Tally {
    let read = reads::check(bytes, reading, tally);
    let paired = tally::hold(read, reads::is_paired_reading(bytes, reading));
    let cut = cuts::check(bytes, reading, paired);
    if reading.number != 0 {
        return cut;
    }
    let state = reading.state;
    check_run(
        family,
        bytes,
        state,
        reads::check_round_trip(bytes, state, cut),
    )
}

// Bytes of a kind. A sheet of a family must be accepted. Other bytes may have more tuples than can be tried, so some are tried where they are a sheet.
pub(crate) fn check_sheet(kind: u8, bytes: &[u8], tally: Tally) -> Tally {
    let reading = calls::read(bytes);
    tally::hold(
        check_bytes(kind, bytes, reading, tally),
        (reading.number == 0) | (families::LARGEST < kind),
    )
}
