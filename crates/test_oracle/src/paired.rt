// The paired profile, off the bytes alone: "tables functional both ways on the full lists". Nothing here calls the library.
use crate::brute::{byte, options, past, row, row_place, size_of, table_end};
use crate::judge;
use crate::judge::Judged;

// The row of value `v` in the table at a place.
fn row_of(bytes: &[u8], at: usize, v: usize) -> u32 {
    (row(bytes, row_place(bytes, past(at, 2), v)) % 4294967296) as u32
}

// The row of value `v` does not have two values, and no other row has its value.
fn is_row_apart(bytes: &[u8], at: usize, count: usize, v: usize) -> bool {
    let values = row_of(bytes, at, v);
    if 1 < u32::count_ones(values) {
        return false;
    }
    (0..count).all(|w| (w == v) | (row_of(bytes, at, w) & values == 0))
}

// The table at a place is functional both ways.
fn is_table_paired(bytes: &[u8], at: usize) -> bool {
    let count = size_of(bytes, byte(bytes, at) as usize);
    (0..count).all(|v| is_row_apart(bytes, at, count, v))
}

// "the place of the first such pair", 0 where there is none.
fn unpaired_place(bytes: &[u8]) -> usize {
    let n = options(bytes);
    let tables = byte(bytes, past(4, n)) as usize;
    let mut at = past(5, n);
    for _ in 0..tables {
        if !is_table_paired(bytes, at) {
            return at;
        }
        at = table_end(bytes, at);
    }
    0
}

// What the reading for the paired profile is to say of some bytes: "31 .. a sheet that has another kind of table, naming the place of the first such pair,
// after all other tests of reading".
pub fn judge(bytes: &[u8]) -> Judged {
    let judged = judge::judge(bytes);
    if judged.number != 0 {
        return judged;
    }
    let place = unpaired_place(bytes);
    if place == 0 {
        return judged;
    }
    Judged { number: 31, place }
}
