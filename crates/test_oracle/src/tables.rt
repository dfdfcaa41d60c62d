// Tables that calls added to a sheet, beside its bytes, and the builds that keep to them. A table has 34 words: the numbers of its two options, the one
// named first before the other, and a row for each value that an option can have. Where the first number is 0, there is no table.
use crate::brute;
use crate::brute::{index_of, past};
use crate::fields::{byte_at, has};

// How many tables there is room for.
const MOST: usize = 8;

// The words of a table.
const WORDS: usize = 34;

pub type Tables = [u32; MOST * WORDS];

pub fn none() -> Tables {
    [0; MOST * WORDS]
}

// The row of value `c`, 0 past the last.
pub fn row(rows: &[u32], c: usize) -> u32 {
    if c < rows.len() {
        return rows[c];
    }
    0
}

fn put(tables: &mut Tables, at: usize, word: u32) {
    if at < MOST * WORDS {
        tables[at] = word;
    }
}

fn put_rows(tables: &mut Tables, at: usize, rows: &[u32]) {
    for c in 0..32 {
        put(tables, past(at, c), row(rows, c));
    }
}

// With a table more, of the two options with these numbers; `count` tables are there before it.
pub fn with(tables: Tables, count: usize, first: usize, second: usize, rows: &[u32]) -> Tables {
    let mut after = tables;
    let at = count % MOST * WORDS;
    put(&mut after, at, (first % 256) as u32);
    put(&mut after, past(at, 1), (second % 256) as u32);
    put_rows(&mut after, past(at, 2), rows);
    after
}

// The tuple's value of the option whose number stands at a place.
fn value_at(tables: &Tables, at: usize, tuple: [u8; 16]) -> usize {
    byte_at(tuple, index_of(row(tables, at) as usize))
}

// The row of its value of the first named option has the bit of its value of the second.
fn is_kept_to(tables: &Tables, at: usize, tuple: [u8; 16]) -> bool {
    if row(tables, at) == 0 {
        return true;
    }
    let a = value_at(tables, at, tuple) % 32;
    let b = value_at(tables, past(at, 1), tuple);
    has(row(tables, past(at, past(2, a))), b)
}

fn are_kept_to(tables: &Tables, tuple: [u8; 16]) -> bool {
    (0..MOST).all(|k| is_kept_to(tables, k % MOST * WORDS, tuple))
}

// "builds are counted against the accepted sheet together with the tables that calls not refused added"
pub fn is_build(bytes: &[u8], tables: &Tables, tuple: [u8; 16]) -> bool {
    brute::is_build(bytes, tuple) & are_kept_to(tables, tuple)
}
