// Entries, tables and opening counts, drawn from the stream of numbers.
use crate::stock::{Counts, ROOM};
use std::array;
use test_inputs::families::low_byte;
use test_inputs::random;
use test_oracle::brute;
use test_oracle::brute::past;

// A delivery, or else a call-off of the first `length` bytes of a tuple.
#[derive(Clone, Copy)]
pub struct Entry {
    pub delivers: bool,
    pub option: usize,
    pub value: usize,
    pub tuple: [u8; 16],
    pub length: usize,
    pub amount: u32,
}

// Rows for every value of an option.
#[derive(Clone, Copy)]
pub struct Rows {
    pub first: usize,
    pub second: usize,
    pub rows: [u32; 32],
    pub count: usize,
}

// Small, or once in a while of any size.
fn amount(seed: &mut u64) -> u32 {
    let large = random::once_in(seed, 10);
    let word = random::word(seed);
    if large {
        return word;
    }
    word % 6
}

// A value of the option `i`, or once in a while one past its size.
fn value_of(bytes: &[u8], i: usize, seed: &mut u64) -> u8 {
    let size = brute::size(bytes, i);
    let over = random::once_in(seed, 60);
    let value = random::index(seed, size);
    if over {
        return low_byte(size);
    }
    low_byte(value)
}

fn tuple_of(bytes: &[u8], seed: &mut u64) -> [u8; 16] {
    array::from_fn(|i| {
        if i < brute::options(bytes) {
            value_of(bytes, i, seed)
        } else {
            0
        }
    })
}

// n bytes, or once in a while one more, and one less of sixteen.
fn length_of(n: usize, seed: &mut u64) -> usize {
    if !random::once_in(seed, 20) {
        return n;
    }
    if n < 16 {
        return n + 1;
    }
    15
}

// Option numbers 0 and n + 1, and the value past the last, are among those drawn.
pub fn draw(bytes: &[u8], seed: &mut u64) -> Entry {
    let n = brute::options(bytes);
    let delivers = random::once_in(seed, 2);
    let option = random::index(seed, past(n, 2));
    let value = random::index(seed, past(brute::size_of(bytes, option), 1));
    let tuple = tuple_of(bytes, seed);
    let length = length_of(n, seed);
    Entry {
        delivers,
        option,
        value,
        tuple,
        length,
        amount: amount(seed),
    }
}

// All bits below the size.
fn mask(size: usize) -> u32 {
    if 31 < size {
        return 4294967295;
    }
    std::num::wrapping_sub_u32(1u32 << size, 1)
}

// Most bits of a row are set, and none past the size.
fn row(size: usize, seed: &mut u64) -> u32 {
    let first = random::word(seed);
    let second = random::word(seed);
    (first | second) & mask(size)
}

// As many rows as a table's first option has values.
fn rows_of(count: usize, size: usize, seed: &mut u64) -> [u32; 32] {
    array::from_fn(|c| if c < count { row(size, seed) } else { 0 })
}

// The option after this one, and the first after the last.
fn option_after(n: usize, option: usize) -> usize {
    if option < n {
        return past(option, 1);
    }
    1
}

// A table of an option and the one after it.
pub fn table(bytes: &[u8], seed: &mut u64) -> Rows {
    let n = brute::options(bytes);
    let first = random::from(seed, 1, n);
    let second = option_after(n, first);
    let count = brute::size_of(bytes, first);
    let rows = rows_of(count, brute::size_of(bytes, second), seed);
    Rows {
        first,
        second,
        rows,
        count,
    }
}

fn small(seed: &mut u64) -> u32 {
    random::word(seed) % 12
}

// Small counts of so many bins, to open the year with.
pub fn opening(total: usize, seed: &mut u64) -> Counts {
    array::from_fn(|i| if i < total { small(seed) } else { 0 })
}
