// What the reader is to say of some bytes, written from the table of causes, and what it is to make of a sheet; nothing here calls the library.
use crate::brute::{byte, number, options, past, row, row_length, size, size_of};
use crate::fields::{byte_at, wide, word_at};

// The number of the cause, 0 where there is none, and its place; where there is none, the place after what was judged.
#[derive(Clone, Copy)]
pub struct Judged {
    pub number: u8,
    pub place: usize,
}

fn fault(number: u8, place: usize) -> Judged {
    Judged { number, place }
}

// "under 3 bytes", over 15,621 whatever the version, "or not 3 plus the count"
fn is_length_wrong(bytes: &[u8]) -> bool {
    let length = bytes.len();
    (length < 3) | (15621 < length) | (past(3, number(bytes, 1)) != length)
}

// "version 1 keeps two-byte rows and sizes to 16"
fn most_values(bytes: &[u8]) -> u8 {
    if byte(bytes, 0) == 1 {
        return 16;
    }
    32
}

// "0 or above" the most.
fn is_wrong(number: u8, most: u8) -> bool {
    (number == 0) | (most < number)
}

fn judge_size(bytes: &[u8], at: usize) -> u8 {
    if bytes.len() <= at {
        return 6;
    }
    if is_wrong(byte(bytes, at), most_values(bytes)) {
        return 4;
    }
    0
}

fn judge_sizes(bytes: &[u8], n: usize) -> Judged {
    for i in 0..n {
        let number = judge_size(bytes, past(4, i));
        if number != 0 {
            return fault(number, past(4, i));
        }
    }
    fault(0, past(4, n))
}

// n(n-1)/2, as the sum of the numbers below `n`.
fn most_tables(n: usize) -> usize {
    (0..n).fold(0, |sum, k| past(sum, k))
}

// The pair at a place, after the pair at the place `before`, 0 for the first: "the order is 7, 19, 20".
fn judge_pair(bytes: &[u8], n: usize, at: usize, before: usize) -> u8 {
    if bytes.len() < past(at, 2) {
        return 6;
    }
    let a = byte(bytes, at) as usize;
    let b = byte(bytes, past(at, 1)) as usize;
    // "option numbers out of range, that is a of 0, b of 0, or either above n"
    if (a == 0) | (b == 0) | (n < a) | (n < b) {
        return 7;
    }
    if b <= a {
        return 19;
    }
    // "by a and then by b, none twice"
    if (before == 0) | (number(bytes, before) < number(bytes, at)) {
        return 0;
    }
    20
}

// A bit of a row at or above the size.
pub fn is_row_wide(row: usize, size: usize) -> bool {
    if 31 < size {
        return false;
    }
    (row >> size) != 0
}

fn judge_row(bytes: &[u8], at: usize, size: usize) -> u8 {
    if bytes.len() < past(at, row_length(bytes)) {
        return 6;
    }
    let row = row(bytes, at);
    if is_row_wide(row, size) {
        return 8;
    }
    // "Version 3 .. forbids an all-zero row."
    if (byte(bytes, 0) == 3) & (row == 0) {
        return 26;
    }
    0
}

fn judge_rows(bytes: &[u8], from: usize, count: usize, size: usize) -> Judged {
    let mut at = from;
    for _ in 0..count {
        let number = judge_row(bytes, at, size);
        if number != 0 {
            return fault(number, at);
        }
        at = past(at, row_length(bytes));
    }
    fault(0, at)
}

fn judge_table(bytes: &[u8], n: usize, at: usize, before: usize) -> Judged {
    let number = judge_pair(bytes, n, at, before);
    if number != 0 {
        return fault(number, at);
    }
    let count = size_of(bytes, byte(bytes, at) as usize);
    let size = size_of(bytes, byte(bytes, past(at, 1)) as usize);
    judge_rows(bytes, past(at, 2), count, size)
}

fn judge_tables(bytes: &[u8], n: usize, from: usize, tables: usize) -> Judged {
    let mut at = from;
    let mut before = 0;
    for _ in 0..tables {
        let table = judge_table(bytes, n, at, before);
        if table.number != 0 {
            return table;
        }
        before = at;
        at = table.place;
    }
    fault(0, at)
}

// The tables, counted at a place, and that nothing is left over.
fn judge_rest(bytes: &[u8], n: usize, at: usize) -> Judged {
    if bytes.len() <= at {
        return fault(6, at);
    }
    let tables = byte(bytes, at) as usize;
    if most_tables(n) < tables {
        return fault(5, at);
    }
    let end = judge_tables(bytes, n, past(at, 1), tables);
    if end.number != 0 {
        return end;
    }
    if end.place < bytes.len() {
        return fault(6, end.place);
    }
    fault(0, 0)
}

pub fn judge(bytes: &[u8]) -> Judged {
    if is_length_wrong(bytes) {
        return fault(1, 0);
    }
    // "neither 1 nor 2", and "now let 3 pass too"
    if is_wrong(byte(bytes, 0), 3) {
        return fault(2, 0);
    }
    if bytes.len() <= 3 {
        return fault(6, 3);
    }
    if is_wrong(byte(bytes, 3), 16) {
        return fault(3, 3);
    }
    let n = options(bytes);
    let sizes = judge_sizes(bytes, n);
    if sizes.number != 0 {
        return sizes;
    }
    judge_rest(bytes, n, sizes.place)
}

// "A sheet just read has full lists, no leader"; past n all is zero.
pub fn are_fresh(bytes: &[u8], sizes: [u8; 16], domains: [u32; 16], leaders: [u8; 16]) -> bool {
    (0..16).all(|i| {
        let size = size(bytes, i);
        let list = word_at(domains, i);
        let is_full = !is_row_wide(list as usize, size) & (wide(u32::count_ones(list)) == size);
        is_full & (byte_at(sizes, i) == size) & (byte_at(leaders, i) == 0)
    })
}
