// Tables for calls to add, most of them as the options named want them.
use crate::{families, random};
use std::array;

// More rows than an option has values.
pub const ROOM: usize = 40;

// The numbers of two options, and rows, of which the first `count` are given.
#[derive(Clone, Copy)]
pub struct Table {
    pub first: usize,
    pub second: usize,
    pub rows: [u32; ROOM],
    pub count: usize,
}

// The first `n` words, or all where there are fewer.
pub fn first_words(words: &[u32], n: usize) -> &[u32] {
    if n < words.len() {
        return &words[0..n];
    }
    words
}

// An option number from 0 to one above n, and now and then far above.
pub fn option_number(n: usize, seed: &mut u64) -> usize {
    if random::once_in(seed, 40) {
        return usize::MAX - random::index(seed, 3);
    }
    random::index(seed, std::num::wrapping_add_usize(n, 2))
}

// An option number, once in ten one that may be none.
fn likely_number(n: usize, seed: &mut u64) -> usize {
    if random::once_in(seed, 10) {
        return option_number(n, seed);
    }
    random::from(seed, 1, n)
}

// An option number other than `first`, once in eight any.
fn other_number(n: usize, first: usize, seed: &mut u64) -> usize {
    if random::once_in(seed, 8) {
        return likely_number(n, seed);
    }
    let drawn = random::from(seed, 1, std::num::wrapping_sub_usize(n, 1));
    if drawn < first {
        return drawn;
    }
    std::num::wrapping_add_usize(drawn, 1)
}

// The size of an option, counted from 1; 0 where there is none.
fn size_of(sizes: [u8; 16], option: usize) -> u8 {
    if option == 0 {
        return 0;
    }
    if 16 < option {
        return 0;
    }
    sizes[option - 1]
}

// Kinds of rows, past those of the families of sheets: all values, and all but one.
const ALL: u8 = 5;

const ALL_BUT_ONE: u8 = 6;

fn row(kind: u8, shift: u8, v: usize, size: u8, seed: &mut u64) -> u32 {
    let r = random::word(seed);
    let q = random::word(seed);
    match kind {
        ALL => families::within(size),
        ALL_BUT_ONE => families::within(size) & !families::one_value(r as usize, size),
        _ => families::row(kind, r, q, shift, v, size),
    }
}

// Rows of one kind, with bits below `size`.
fn drawn_rows(size: u8, seed: &mut u64) -> [u32; ROOM] {
    let kind = random::byte(seed) % 7;
    let shift = random::byte(seed);
    array::from_fn(|v| row(kind, shift, v, size, seed))
}

// A table that is as its options want it, where there are two such.
fn fitting(n: usize, sizes: [u8; 16], seed: &mut u64) -> Table {
    let first = likely_number(n, seed);
    let second = other_number(n, first, seed);
    let rows = drawn_rows(size_of(sizes, second), seed);
    Table {
        first,
        second,
        rows,
        count: size_of(sizes, first) as usize,
    }
}

fn with_count(table: Table, count: usize) -> Table {
    Table { count, ..table }
}

// One of the rows gets a bit of any value, below the size or not.
fn with_bit(table: Table, seed: &mut u64) -> Table {
    let mut rows = table.rows;
    let v = random::index(seed, table.count);
    let bit = 1u32 << (random::byte(seed) % 32);
    if v < ROOM {
        rows[v] = rows[v] | bit;
    }
    Table { rows, ..table }
}

// The two options named the other way round.
fn turned(table: Table) -> Table {
    Table {
        first: table.second,
        second: table.first,
        ..table
    }
}

// A table with a row too few or too many, with a bit more, or turned: it may still fit.
fn with_fault(table: Table, seed: &mut u64) -> Table {
    let count = table.count;
    match random::below(seed, 5) {
        0 => with_count(table, std::num::wrapping_add_usize(count, 1)),
        1 => with_count(table, std::num::wrapping_sub_usize(count, 1) % 33),
        2 => with_count(table, random::index(seed, 34)),
        3 => turned(table),
        _ => with_bit(table, seed),
    }
}

// A table for two of `n` options with these sizes.
pub fn drawn(n: usize, sizes: [u8; 16], seed: &mut u64) -> Table {
    let table = fitting(n, sizes, seed);
    if random::once_in(seed, 4) {
        return with_fault(table, seed);
    }
    table
}
