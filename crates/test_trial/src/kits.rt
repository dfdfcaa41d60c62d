// Sheets of the paired profile, or nearly, and such with a fault, drawn from a seed of their own. What the reader for the profile accepts is never OPEN after
// the full reduction.
use crate::sheets::check_builds;
use test_calls::calls::{NONE, OPEN, Reading};
use test_calls::tally::Tally;
use test_calls::{calls, tally};
use test_checks::{leads, lists, reads};
use test_inputs::damage::DAMAGED;
use test_inputs::families::{MIXED, PAIRED, Sheet};
use test_inputs::{damage, families, random};

// A sheet, and what it is tried as: one with a fault may have more tuples than can be tried.
#[derive(Clone, Copy)]
struct Kit {
    sheet: Sheet,
    kind: u8,
}

// Once in three with a fault.
fn drawn(seed: &mut u64) -> Kit {
    let sheet = families::make(PAIRED, seed);
    if random::once_in(seed, 3) {
        return Kit {
            sheet: damage::changed(sheet, seed),
            kind: DAMAGED,
        };
    }
    Kit { sheet, kind: MIXED }
}

// A sheet of the profile: the run that any option leads, and the full reduction. The verdict is then not OPEN.
fn check_accepted(kind: u8, bytes: &[u8], reading: Reading, tally: Tally) -> Tally {
    let mut seed = tally.seed;
    let leader = random::index(&mut seed, 7);
    let start = lists::start(reading.state, tally::with_seed(tally, seed));
    let run = lists::check_reduction(leads::check_lead(start, leader));
    let judged = calls::verdict(run.state);
    let settled = tally::expect(run.tally, tally::KITS, judged.verdict != OPEN);
    let is_none = judged.verdict == NONE;
    let counted = tally::add(settled, tally::KITS_NONE, is_none as u64);
    check_builds(kind, bytes, run, counted)
}

fn check_kit(kind: u8, bytes: &[u8], tally: Tally) -> Tally {
    let old = calls::read(bytes);
    let reading = calls::read_paired(bytes);
    let is_read = reads::is_paired_reading(bytes, old);
    let held = tally::hold(tally, is_read);
    let number = reading.number;
    match number {
        0 => check_accepted(kind, bytes, reading, held),
        31 => tally::count(held, tally::KITS_OTHER),
        _ => tally::count(held, tally::KITS_REFUSED),
    }
}

// What the seed of a check differs by from that of the sheets.
const APART: u64 = 11400714819323198485;

fn run_one(tally: Tally) -> Tally {
    let mut seed = tally.seed;
    let kit = drawn(&mut seed);
    let sheet = kit.sheet;
    let buffer = sheet.bytes;
    let bytes = families::first(&buffer, sheet.length);
    let checked = check_kit(kit.kind, bytes, tally::start(seed ^ APART));
    tally::with_kits(tally::with_seed(tally, seed), checked)
}

// So many sheets.
pub(crate) fn run(seed: u64, times: usize, tally: Tally) -> Tally {
    let mut after = tally::with_seed(tally, seed);
    for _ in 0..times {
        after = run_one(after);
    }
    after
}
