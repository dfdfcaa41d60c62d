// What an entry is to answer and to leave, by counts alone: a place for each value, those of the options before it first. Nothing here calls the library.
use std::array;
use std::num::{wrapping_add_u32, wrapping_sub_u32};
use test_oracle::brute::past;
use test_oracle::fields::byte_at;
use test_oracle::tables::Tables;
use test_oracle::{brute, tables};

// As many as 16 options of 32 values have.
pub const ROOM: usize = 512;

pub type Counts = [u32; ROOM];

#[derive(Clone, Copy)]
pub struct Expected {
    pub number: u8,
    pub counts: Counts,
}

// The place of a value of an option, counted from 1.
pub fn place(bytes: &[u8], option: usize, value: usize) -> usize {
    (0..16)
        .filter(|&i| past(i, 1) < option)
        .fold(value, |at, i| past(at, brute::size(bytes, i)))
}

// How many bins a sheet has.
pub fn total(bytes: &[u8]) -> usize {
    place(bytes, 17, 0)
}

pub fn count_at(counts: &Counts, at: usize) -> u32 {
    if ROOM <= at {
        return 0;
    }
    counts[at]
}

pub fn with_count(counts: Counts, at: usize, count: u32) -> Counts {
    let mut after = counts;
    if at < ROOM {
        after[at] = count;
    }
    after
}

pub fn refused(number: u8, counts: Counts) -> Expected {
    Expected { number, counts }
}

pub fn delivery(
    bytes: &[u8],
    counts: Counts,
    option: usize,
    value: usize,
    amount: u32,
) -> Expected {
    if brute::size_of(bytes, option) <= value {
        return refused(28, counts);
    }
    let at = place(bytes, option, value);
    let count = count_at(&counts, at);
    let room = 4294967295 - count;
    if room < amount {
        return refused(28, counts);
    }
    let left = with_count(counts, at, wrapping_add_u32(count, amount));
    Expected {
        number: 0,
        counts: left,
    }
}

// The places of the values of a tuple.
fn places_of(bytes: &[u8], tuple: [u8; 16]) -> [usize; 16] {
    array::from_fn(|i| place(bytes, past(i, 1), byte_at(tuple, i)))
}

// Each of the first n places has as many.
fn have_enough(places: [usize; 16], n: usize, counts: &Counts, amount: u32) -> bool {
    places
        .iter()
        .take(n)
        .all(|&at| amount <= count_at(counts, at))
}

fn drawn(places: [usize; 16], n: usize, counts: Counts, amount: u32) -> Counts {
    let mut after = counts;
    for (i, &at) in places.iter().enumerate() {
        if i < n {
            let count = count_at(&after, at);
            after = with_count(after, at, wrapping_sub_u32(count, amount));
        }
    }
    after
}

pub fn call_off(
    bytes: &[u8],
    added: &Tables,
    counts: Counts,
    tuple: [u8; 16],
    length: usize,
    amount: u32,
) -> Expected {
    let n = brute::options(bytes);
    if (length != n) | !tables::is_build(bytes, added, tuple) {
        return refused(28, counts);
    }
    let places = places_of(bytes, tuple);
    if !have_enough(places, n, &counts, amount) {
        return refused(29, counts);
    }
    let left = drawn(places, n, counts, amount);
    Expected {
        number: 0,
        counts: left,
    }
}
