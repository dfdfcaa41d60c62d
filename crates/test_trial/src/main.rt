// The test program: fixed examples, each with what it must come to, and random inputs, each tried against a brute force over the bytes.
#![tactic(auto)]

use std::io;
use test_calls::tally;
use test_examples::fixed;

// Fixed sheets, and tables added to them.
mod examples;
// Sheets of the paired profile.
mod kits;
// Lists of sheets.
mod lists;
// A second series of sheets, with runs that a named option leads, and orders.
mod series;
// One input, and a list of calls on it.
mod sheets;
// One random input after the other.
mod trials;
// States with a fault.
mod unsound;

fn run_examples(rt: &impl Print) -> io::Result<()> {
    let run = fixed::run(examples::run(tally::start(88172645463325252)));
    tally::print(rt, b"examples\ntexts\n", tally::EXAMPLES, &run.counts)?;
    tally::print_checks(rt, &run.counts)
}

fn run_trials(rt: &impl Print) -> io::Result<()> {
    let tried = trials::run(tally::start(12512540579826779257));
    let listed = series::run(2685821657736338717, tried);
    let run = kits::run(9600629759793949339, 1000, listed);
    tally::print(
        rt,
        b"sparse\nchains\nbijective\nempty rows\ndense\nmixed\nwide\nwider\nlarge\n\
        larger\nfull\nlargest\ndamaged\nrandom bytes\n",
        tally::FAMILIES,
        &run.counts,
    )?;
    tally::print_checks(rt, &run.counts)
}

fn main(rt: HostRuntime) -> io::Result<()> {
    run_examples(&rt)?;
    run_trials(&rt)
}
