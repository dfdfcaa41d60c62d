// The builds of a sheet, read off its bytes alone: nothing here calls the library.
use crate::fields::byte_at;

// The byte at a place, `rest` past the end.
pub(crate) fn byte_or(bytes: &[u8], at: usize, rest: u8) -> u8 {
    if at < bytes.len() {
        return bytes[at];
    }
    rest
}

// The byte at a place, 0 past the end.
pub fn byte(bytes: &[u8], at: usize) -> u8 {
    byte_or(bytes, at, 0)
}

pub fn number(bytes: &[u8], at: usize) -> usize {
    let high = byte(bytes, at) as usize;
    let low = byte(bytes, past(at, 1)) as usize;
    high * 256 + low
}

pub fn past(at: usize, count: usize) -> usize {
    std::num::wrapping_add_usize(at, count)
}

// The number of options.
pub fn options(bytes: &[u8]) -> usize {
    byte(bytes, 3) as usize
}

// The size of the option `i`, counted from 0; 0 past the last.
pub fn size(bytes: &[u8], i: usize) -> usize {
    if options(bytes) <= i {
        return 0;
    }
    byte(bytes, past(4, i)) as usize
}

// Byte 0 is the version: a row has two bytes in version 1, else four.
pub fn row_length(bytes: &[u8]) -> usize {
    if byte(bytes, 0) == 1 {
        return 2;
    }
    4
}

// The row at a place.
pub fn row(bytes: &[u8], at: usize) -> usize {
    let high = number(bytes, at);
    if row_length(bytes) == 2 {
        return high;
    }
    past(high % 65536 * 65536, number(bytes, past(at, 2)))
}

// The place of the row of value `v`, where the row of value 0 is at `at`.
pub(crate) fn row_place(bytes: &[u8], at: usize, v: usize) -> usize {
    if row_length(bytes) == 2 {
        return past(at, v % 256 * 2);
    }
    past(at, v % 256 * 4)
}

// Bit `v` of a row.
pub fn has(row: usize, v: usize) -> bool {
    if 31 < v {
        return false;
    }
    (row >> v) % 2 == 1
}

// Each value is below its option's size.
fn values_below(bytes: &[u8], tuple: [u8; 16]) -> bool {
    (0..options(bytes)).all(|i| byte_at(tuple, i) < size(bytes, i))
}

// An option's number, counted from 1, as an index; 16 where it is 0.
pub fn index_of(number: usize) -> usize {
    if number == 0 {
        return 16;
    }
    number - 1
}

// The size of an option, from its number.
pub fn size_of(bytes: &[u8], option: usize) -> usize {
    size(bytes, index_of(option))
}

// The row of the table at a place for its value of a has the bit for its value of b.
fn table_allows(bytes: &[u8], at: usize, tuple: [u8; 16]) -> bool {
    let a = byte_at(tuple, index_of(byte(bytes, at) as usize));
    let b = byte_at(tuple, index_of(byte(bytes, past(at, 1)) as usize));
    has(row(bytes, row_place(bytes, past(at, 2), a)), b)
}

// The place after the table at a place.
pub(crate) fn table_end(bytes: &[u8], at: usize) -> usize {
    let rows = size_of(bytes, byte(bytes, at) as usize);
    row_place(bytes, past(at, 2), rows)
}

fn tables_allow(bytes: &[u8], tuple: [u8; 16]) -> bool {
    let n = options(bytes);
    let tables = byte(bytes, past(4, n)) as usize;
    let mut at = past(5, n);
    for _ in 0..tables {
        if !table_allows(bytes, at, tuple) {
            return false;
        }
        at = table_end(bytes, at);
    }
    true
}

// "n bytes, one for each option, each below that option's size, and in every table of the file the row for its value of a has the bit for its
// value of b".
pub fn is_build(bytes: &[u8], tuple: [u8; 16]) -> bool {
    if !values_below(bytes, tuple) {
        return false;
    }
    tables_allow(bytes, tuple)
}

// A digit, and what is left of the number.
#[derive(Clone, Copy)]
pub(crate) struct Digit {
    pub(crate) value: u8,
    pub(crate) rest: usize,
}

// The last digit of a number in base `size`: 0 in base 0.
pub(crate) fn divided(rest: usize, size: usize) -> Digit {
    if size == 0 {
        return Digit { value: 0, rest };
    }
    Digit {
        value: ((rest % size) % 256) as u8,
        rest: rest / size,
    }
}

// A tuple, and what is left of its number: 0 unless the number is past the last tuple.
#[derive(Clone, Copy)]
pub struct Tuple {
    pub values: [u8; 16],
    pub rest: usize,
}

// The tuple number `k`, as a number whose digits are below the sizes; zero past n.
pub fn numbered(bytes: &[u8], k: usize) -> Tuple {
    let mut values = [0u8; 16];
    let mut rest = k;
    for i in 0..16 {
        let next = divided(rest, size(bytes, i));
        values[i] = next.value;
        rest = next.rest;
    }
    Tuple { values, rest }
}
