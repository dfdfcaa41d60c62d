// A year's list over bins held by value. First the examples, on sheet J with bins 5, 0, 9, one line for each entry: its number, and the three counts that it
// leaves. Then years of random entries on five sheets: answers by number, how many differ from what the counts say, and a word that every answer and every
// last count goes into.
#![tactic(auto)]

use bins::Bin;
use state::State;
use state_bins::{plan_call_off, plan_delivery};
use std::io;
use years::Tally;

// Entries, drawn.
mod entries;
// What they are to answer and to leave.
mod stock;
// Lists of them.
mod years;

fn print_line(rt: &impl Print, number: u8, shelf: [Bin; 512]) -> io::Result<[Bin; 512]> {
    let first = shelf[0].count;
    let second = shelf[1].count;
    let third = shelf[2].count;
    println!(rt; "{number}: {first} {second} {third}")?;
    Ok(shelf)
}

fn bin(variable: u8, value: u8, count: u32) -> Bin {
    Bin {
        variable,
        value,
        count,
    }
}

fn deliver(
    rt: &impl Print,
    state: State,
    shelf: [Bin; 512],
    option: usize,
    value: usize,
    amount: u32,
) -> io::Result<[Bin; 512]> {
    let p = plan_delivery(state, option, value, amount);
    let number = bins_post::number_in(shelf, 3, p);
    let left = bins_post::bins_in(shelf, 3, p);
    print_line(rt, number, left)
}

fn call_off(
    rt: &impl Print,
    state: State,
    shelf: [Bin; 512],
    build: &[u8],
    amount: u32,
) -> io::Result<[Bin; 512]> {
    let p = plan_call_off(state, build, amount);
    let number = bins_post::number_in(shelf, 3, p);
    let left = bins_post::bins_in(shelf, 3, p);
    print_line(rt, number, left)
}

// Value 1 of option 1 is in no build, and is delivered all the same.
fn run_deliveries(rt: &impl Print, state: State, shelf: [Bin; 512]) -> io::Result<[Bin; 512]> {
    let full = deliver(rt, state, shelf, 1, 1, 4294967295)?;
    let still = deliver(rt, state, full, 1, 1, 1)?;
    let none = deliver(rt, state, still, 1, 1, 0)?;
    let past = deliver(rt, state, none, 1, 2, 0)?;
    let zero = deliver(rt, state, past, 0, 0, 1)?;
    deliver(rt, state, zero, 3, 0, 1)
}

fn run_call_offs(rt: &impl Print, state: State, shelf: [Bin; 512]) -> io::Result<[Bin; 512]> {
    let build = [0u8, 0];
    let forbidden = [1u8, 0];
    let longer = [0u8, 0, 0];
    let drawn = call_off(rt, state, shelf, &build, 3)?;
    let low = call_off(rt, state, drawn, &build, 3)?;
    let dead = call_off(rt, state, low, &forbidden, 0)?;
    let long = call_off(rt, state, dead, &longer, 3)?;
    call_off(rt, state, long, &build, 2)
}

// A record fewer, one more, and two exchanged.
fn run_records(rt: &impl Print, state: State, shelf: [Bin; 512]) -> io::Result<()> {
    let build = [0u8, 0];
    let p = plan_call_off(state, &build, 0);
    print_line(rt, bins_post::number_in(shelf, 2, p), shelf)?;
    print_line(rt, bins_post::number_in(shelf, 4, p), shelf)?;
    let mut exchanged = shelf;
    exchanged.swap(0, 1);
    let number = bins_post::number_in(exchanged, 3, p);
    let left = bins_post::bins_in(exchanged, 3, p);
    print_line(rt, number, left)?;
    Ok(())
}

fn run_examples(rt: &impl Print) -> io::Result<()> {
    let bytes = [1u8, 0, 10, 2, 2, 1, 1, 1, 2, 0, 1, 0, 0];
    let mut shelf = [bin(0, 0, 0); 512];
    shelf[0] = bin(1, 0, 5);
    shelf[1] = bin(1, 1, 0);
    shelf[2] = bin(2, 0, 9);
    let answer = sheet::read(&bytes);
    let state = answer.state;
    let stocked = run_deliveries(rt, state, shelf)?;
    let left = run_call_offs(rt, state, stocked)?;
    run_records(rt, state, left)
}

// Sheets A, J and G.
fn run_tables(tally: Tally) -> Tally {
    let a = [
        1u8, 0, 19, 3, 2, 3, 2, 2, 1, 2, 0, 1, 0, 4, 2, 3, 0, 2, 0, 1, 0, 1,
    ];
    let j = [1u8, 0, 10, 2, 2, 1, 1, 1, 2, 0, 1, 0, 0];
    let g = [1u8, 0, 10, 2, 2, 2, 1, 1, 2, 0, 3, 0, 3];
    let once = years::run(&a, 300, tally);
    let twice = years::run(&j, 200, once);
    years::run(&g, 200, twice)
}

// A sheet of four options without a table, and one of 512 bins.
fn run_sizes(tally: Tally) -> Tally {
    let four = [1u8, 0, 6, 4, 4, 1, 5, 3, 0];
    let mut most = [32u8; 21];
    most[0] = 2;
    most[1] = 0;
    most[2] = 18;
    most[3] = 16;
    most[20] = 0;
    let once = years::run(&four, 400, tally);
    years::run(&most, 150, once)
}

fn opened(seed: u64) -> Tally {
    Tally {
        numbers: [0; 32],
        deliveries: 0,
        differences: 0,
        word: 0,
        seed,
    }
}

fn print_tally(rt: &impl Print, tally: Tally) -> io::Result<()> {
    let numbers = tally.numbers;
    let taken = numbers[0];
    let deliveries = tally.deliveries;
    println!(rt; "taken {taken}\ndeliveries taken {deliveries}")?;
    print_refused(rt, 9, numbers[9])?;
    print_refused(rt, 27, numbers[27])?;
    print_refused(rt, 28, numbers[28])?;
    print_refused(rt, 29, numbers[29])?;
    let differences = tally.differences;
    let word = tally.word;
    println!(rt; "differences {differences}\nword {word}")
}

fn print_refused(rt: &impl Print, number: u8, count: u64) -> io::Result<()> {
    println!(rt; "refused with {number} {count}")
}

fn main(rt: HostRuntime) -> io::Result<()> {
    run_examples(&rt)?;
    let tally = run_tables(opened(88172645463325252));
    print_tally(&rt, run_sizes(tally))
}
