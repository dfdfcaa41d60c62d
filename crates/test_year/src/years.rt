// A year's list on one sheet, entry by entry, with tables added and reductions in between: each answer, and the bins that it leaves, against the counts.
use crate::entries::Entry;
use crate::stock::{Counts, Expected, ROOM};
use crate::{entries, stock};
use bins::{Bin, Plan};
use bins_post::{bins_in, number_in};
use state::State;
use state_bins::{plan_call_off, plan_delivery};
use test_inputs::families::{first, low_byte};
use test_inputs::random;
use test_inputs::tables::first_words;
use test_oracle::brute::past;
use test_oracle::tables::Tables;
use test_oracle::{brute, tables};

pub type Shelf = [Bin; ROOM];

// Answers by number, taken deliveries, differences, a word that every answer and every last count goes into, and the seed of what is drawn next.
#[derive(Clone, Copy)]
pub struct Tally {
    pub numbers: [u64; 32],
    pub deliveries: u64,
    pub differences: u64,
    pub word: u64,
    pub seed: u64,
}

#[derive(Clone, Copy)]
pub struct Year {
    pub state: State,
    pub tables: Tables,
    pub added: usize,
    pub counts: Counts,
    pub tally: Tally,
}

// What a call is given: a state and records as they are, or with a fault.
#[derive(Clone, Copy)]
pub struct Given {
    pub state: State,
    pub shelf: Shelf,
    pub length: usize,
}

pub fn bin(option: usize, value: usize, count: u32) -> Bin {
    Bin {
        variable: low_byte(option),
        value: low_byte(value),
        count,
    }
}

// The records of a sheet of so many bins, with these counts.
fn shelf_of(bytes: &[u8], total: usize, counts: Counts) -> Shelf {
    let mut shelf = [bin(0, 0, 0); ROOM];
    let mut option = 1;
    let mut value = 0;
    for i in 0..ROOM {
        if brute::size_of(bytes, option) <= value {
            option = past(option, 1);
            value = 0;
        }
        if i < total {
            let b = bin(option, value, counts[i]);
            shelf[i] = b;
        }
        value = past(value, 1);
    }
    shelf
}

fn bin_at(shelf: Shelf, i: usize) -> Bin {
    if ROOM <= i {
        return bin(0, 0, 0);
    }
    shelf[i]
}

fn with_bin(shelf: Shelf, i: usize, b: Bin) -> Shelf {
    let mut after = shelf;
    if i < ROOM {
        after[i] = b;
    }
    after
}

fn exchanged(shelf: Shelf, i: usize) -> Shelf {
    let a = bin_at(shelf, i);
    let b = bin_at(shelf, past(i, 1));
    let once = with_bin(shelf, i, b);
    with_bin(once, past(i, 1), a)
}

fn option_after(option: u8) -> u8 {
    low_byte(past(option as usize, 1))
}

// Of the next option.
fn renamed(shelf: Shelf, i: usize) -> Shelf {
    let b = bin_at(shelf, i);
    let other = Bin {
        variable: option_after(b.variable),
        ..b
    };
    with_bin(shelf, i, other)
}

// Of no option: a state that is not sound.
fn without_options(state: State) -> State {
    State { n: 0, ..state }
}

// One record fewer.
fn shorter(length: usize) -> usize {
    std::num::wrapping_sub_usize(length, 1)
}

// One more, or one fewer where there is no room.
fn longer(length: usize) -> usize {
    if length < ROOM {
        return past(length, 1);
    }
    shorter(length)
}

// The records with a fault, if it is one of theirs. Two that follow each other differ.
fn with_fault(shelf: Shelf, length: usize, fault: u64, at: usize) -> Shelf {
    match fault {
        4 => exchanged(shelf, rest(at, shorter(length))),
        5 => renamed(shelf, at),
        _ => shelf,
    }
}

// What is left of a division, or 0 where there is none.
fn rest(at: usize, n: usize) -> usize {
    if n == 0 {
        return 0;
    }
    at % n
}

fn length_given(length: usize, fault: u64) -> usize {
    match fault {
        1 | 2 => shorter(length),
        3 => longer(length),
        _ => length,
    }
}

// 9 comes before 27.
fn number_of_fault(fault: u64) -> u8 {
    match fault {
        0 | 1 => 9,
        2 | 3 | 4 | 5 => 27,
        _ => 0,
    }
}

fn state_given(state: State, fault: u64) -> State {
    if fault < 2 {
        return without_options(state);
    }
    state
}

fn number_after(given: Given, p: Plan) -> u8 {
    let n = given.length;
    if ROOM < n {
        return 0;
    }
    let shelf = given.shelf;
    number_in(shelf, n, p)
}

fn bins_after(given: Given, p: Plan) -> Shelf {
    let n = given.length;
    let shelf = given.shelf;
    if ROOM < n {
        return shelf;
    }
    bins_in(shelf, n, p)
}

fn is_same(a: Bin, b: Bin) -> bool {
    (a.variable == b.variable) & (a.value == b.value) & (a.count == b.count)
}

fn are_same(a: Shelf, b: Shelf) -> bool {
    a.iter()
        .zip(b.iter())
        .all(|(one, other)| is_same(*one, *other))
}

fn plan(state: State, entry: Entry) -> Plan {
    let tuple = entry.tuple;
    if entry.delivers {
        return plan_delivery(state, entry.option, entry.value, entry.amount);
    }
    plan_call_off(state, first(&tuple, entry.length), entry.amount)
}

fn expected(bytes: &[u8], year: Year, entry: Entry) -> Expected {
    let counts = year.counts;
    let added = year.tables;
    if entry.delivers {
        return stock::delivery(bytes, counts, entry.option, entry.value, entry.amount);
    }
    let tuple = entry.tuple;
    stock::call_off(bytes, &added, counts, tuple, entry.length, entry.amount)
}

// A word that depends on all that goes into it.
fn mixed(word: u64, x: u64) -> u64 {
    (word << 5) ^ (word >> 59) ^ x
}

fn one_more(numbers: [u64; 32], number: u8) -> [u64; 32] {
    let mut after = numbers;
    let k = (number % 32) as usize;
    after[k] = std::num::wrapping_add_u64(numbers[k], 1);
    after
}

fn plus_if(count: u64, is_one: bool) -> u64 {
    if is_one {
        return std::num::wrapping_add_u64(count, 1);
    }
    count
}

fn counted(tally: Tally, number: u8, delivers: bool, is_right: bool) -> Tally {
    let before = tally.numbers;
    let numbers = one_more(before, number);
    Tally {
        numbers,
        deliveries: plus_if(tally.deliveries, delivers & (number == 0)),
        differences: plus_if(tally.differences, !is_right),
        word: mixed(tally.word, number as u64),
        ..tally
    }
}

fn seeded(tally: Tally, seed: u64) -> Tally {
    Tally { seed, ..tally }
}

fn given_with(bytes: &[u8], year: Year, fault: u64, at: usize) -> Given {
    let length = stock::total(bytes);
    let counts = year.counts;
    let shelf = shelf_of(bytes, length, counts);
    let faulty = with_fault(shelf, length, fault, at);
    let state = state_given(year.state, fault);
    Given {
        state,
        shelf: faulty,
        length: length_given(length, fault),
    }
}

// What is to be answered and left: with a fault nothing is changed.
fn wanted(bytes: &[u8], year: Year, entry: Entry, fault: u64) -> Expected {
    let number = number_of_fault(fault);
    if number != 0 {
        let counts = year.counts;
        return stock::refused(number, counts);
    }
    expected(bytes, year, entry)
}

// The records that are to be left.
fn shelf_wanted(bytes: &[u8], given: Given, want: Expected) -> Shelf {
    if want.number == 0 {
        let counts = want.counts;
        return shelf_of(bytes, stock::total(bytes), counts);
    }
    let shelf = given.shelf;
    shelf
}

fn counts_of(shelf: Shelf) -> Counts {
    shelf.map(|record| record.count)
}

// The counts that the next entry meets: those of the library's bins.
fn counts_left(year: Year, want: Expected, left: Shelf) -> Counts {
    if want.number == 0 {
        return counts_of(left);
    }
    let counts = year.counts;
    counts
}

fn checked(bytes: &[u8], year: Year, given: Given, entry: Entry, want: Expected) -> Year {
    let p = plan(given.state, entry);
    let number = number_after(given, p);
    let left = bins_after(given, p);
    let right = shelf_wanted(bytes, given, want);
    let is_right = (number == want.number) & are_same(left, right);
    Year {
        counts: counts_left(year, want, left),
        tally: counted(year.tally, number, entry.delivers, is_right),
        ..year
    }
}

fn with_tally(year: Year, tally: Tally) -> Year {
    Year { tally, ..year }
}

fn run_entry(bytes: &[u8], year: Year, from: u64) -> Year {
    let mut seed = from;
    let fault = random::below(&mut seed, 60);
    let at = random::index(&mut seed, stock::total(bytes));
    let entry = entries::draw(bytes, &mut seed);
    let given = given_with(bytes, year, fault, at);
    let want = wanted(bytes, year, entry, fault);
    checked(
        bytes,
        with_tally(year, seeded(year.tally, seed)),
        given,
        entry,
        want,
    )
}

// A table is added, and what is called off after it keeps to it.
fn run_table(bytes: &[u8], year: Year, from: u64) -> Year {
    let mut seed = from;
    let table = entries::table(bytes, &mut seed);
    let rows = table.rows;
    let given = first_words(&rows, table.count);
    let answer = year.state.add_table(table.first, table.second, given);
    Year {
        state: answer.state,
        tables: tables::with(year.tables, year.added, table.first, table.second, given),
        added: past(year.added, 1),
        tally: seeded(year.tally, seed),
        ..year
    }
}

fn run_reduction(year: Year, seed: u64) -> Year {
    let answer = year.state.reduce();
    Year {
        state: answer.state,
        tally: seeded(year.tally, seed),
        ..year
    }
}

fn run_one(bytes: &[u8], year: Year) -> Year {
    let mut seed = year.tally.seed;
    let kind = random::below(&mut seed, 30);
    if kind == 0 {
        return run_reduction(year, seed);
    }
    if (kind == 1) & (year.added < 3) {
        return run_table(bytes, year, seed);
    }
    run_entry(bytes, year, seed)
}

fn mixed_counts(from: u64, counts: Counts) -> u64 {
    counts
        .iter()
        .fold(from, |word, &count| mixed(word, count as u64))
}

// A year's last counts go into the word.
fn closed(year: Year) -> Tally {
    let tally = year.tally;
    Tally {
        word: mixed_counts(tally.word, year.counts),
        ..tally
    }
}

fn run_lines(bytes: &[u8], lines: usize, opened: Year) -> Year {
    let mut year = opened;
    for _ in 0..lines {
        year = run_one(bytes, year);
    }
    year
}

// A year of so many entries, tables and reductions, on a sheet just read.
pub fn run(bytes: &[u8], lines: usize, tally: Tally) -> Tally {
    let mut seed = tally.seed;
    let counts = entries::opening(stock::total(bytes), &mut seed);
    let answer = sheet::read(bytes);
    let state = answer.state;
    let none = tables::none();
    let year = Year {
        state,
        tables: none,
        added: 0,
        counts,
        tally: seeded(tally, seed),
    };
    closed(run_lines(bytes, lines, year))
}
