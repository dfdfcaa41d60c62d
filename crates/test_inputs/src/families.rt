// Sheets of random contents, by family.
use crate::random;

// More bytes than the largest sheet has.
pub const ROOM: usize = 15744;

// A sheet's bytes and how many there are.
#[derive(Clone, Copy)]
pub struct Sheet {
    pub bytes: [u8; ROOM],
    pub length: usize,
}

pub const SPARSE: u8 = 0;

pub const CHAINS: u8 = 1;

pub const BIJECTIVE: u8 = 2;

pub const EMPTY_ROWS: u8 = 3;

pub const DENSE: u8 = 4;

pub const MIXED: u8 = 5;
// Two options of up to 16 values.
pub const WIDE: u8 = 6;
// Two options of 17 to 32 values, or one of them with a smaller one. From here on the families have versions of their own.
pub const WIDER: u8 = 7;
// Up to 16 options of up to 16 values: too many builds to count.
pub const LARGE: u8 = 8;
// Up to 16 options of up to 32 values.
pub const LARGER: u8 = 9;
// 16 options of 16 values and every table, in version 1: 4,101 bytes.
pub const FULL: u8 = 10;
// 16 options of 32 values and every table, in version 2 or 3: 15,621 bytes.
pub const LARGEST: u8 = 11;

// Each value of the second option in one row at most, and a row with at most one, but where version 3 has no empty rows. It is not of the kinds that are
// tried one after the other.
pub const PAIRED: u8 = 14;

pub fn put(bytes: &mut [u8; ROOM], at: usize, byte: u8) -> usize {
    if ROOM <= at {
        return at;
    }
    bytes[at] = byte;
    at + 1
}

pub fn put_number(bytes: &mut [u8; ROOM], at: usize, number: usize) -> usize {
    let next = put(bytes, at, low_byte(number / 256));
    put(bytes, next, low_byte(number))
}

pub fn low_byte(x: usize) -> u8 {
    (x % 256) as u8
}

// The first `n` bytes, or all where there are fewer.
pub fn first(bytes: &[u8], n: usize) -> &[u8] {
    if n < bytes.len() {
        return &bytes[0..n];
    }
    bytes
}

// The first `n` bytes of a buffer, or all where there are fewer.
pub fn first_room(buffer: &mut [u8], n: usize) -> &mut [u8] {
    if n < buffer.len() {
        return &mut buffer[0..n];
    }
    buffer
}

// The byte at a place, 0 past the end.
pub fn byte_at(bytes: &[u8; ROOM], at: usize) -> u8 {
    if ROOM <= at {
        return 0;
    }
    bytes[at]
}

// The version of a sheet of the family: 2 or 3 where a size may be above 16, 1 for the fullest of that version, else any.
fn version(family: u8, seed: &mut u64) -> u8 {
    match family {
        WIDER | LARGER | LARGEST => 2 + random::byte(seed) % 2,
        FULL => 1,
        _ => random::from_one(seed, 3),
    }
}

fn most_options(family: u8) -> u8 {
    match family {
        WIDE => 3,
        WIDER => 2,
        LARGE | LARGER => 16,
        _ => 5,
    }
}

fn options(family: u8, seed: &mut u64) -> u8 {
    if (family == FULL) | (family == LARGEST) {
        return 16;
    }
    random::from_one(seed, most_options(family))
}

fn most_values(family: u8, i: usize) -> u8 {
    if (family == WIDE) & (1 < i) {
        return 2;
    }
    match family {
        WIDE | LARGE => 16,
        LARGER => 32,
        _ => 4,
    }
}

// 17 to 32 values, once in four fewer.
fn wider(seed: &mut u64) -> u8 {
    if random::once_in(seed, 4) {
        return random::from_one(seed, 16);
    }
    17 + random::byte(seed) % 16
}

// The size of the option `i`. Bijections want one size for all.
fn size(family: u8, i: usize, common: u8, seed: &mut u64) -> u8 {
    match family {
        BIJECTIVE => common,
        WIDER => wider(seed),
        FULL => 16,
        LARGEST => 32,
        _ => random::from_one(seed, most_values(family, i)),
    }
}

fn put_sizes(bytes: &mut [u8; ROOM], n: usize, family: u8, seed: &mut u64) {
    let common = random::from_one(seed, 4);
    for i in 0..n {
        put(
            bytes,
            std::num::wrapping_add_usize(4, i),
            size(family, i, common, seed),
        );
    }
}

// Chains state each option with the next, and seldom with another.
fn is_stated(family: u8, a: usize, b: usize, seed: &mut u64) -> bool {
    match family {
        CHAINS => std::num::wrapping_add_usize(a, 1) == b || random::once_in(seed, 6),
        DENSE => !random::once_in(seed, 4),
        LARGE | LARGER => random::once_in(seed, 3),
        FULL | LARGEST => true,
        _ => random::once_in(seed, 2),
    }
}

// The kind of a table's rows: that of its family, or drawn for each table.
fn kind_of(family: u8, seed: &mut u64) -> u8 {
    if (family < MIXED) | (family == PAIRED) {
        return family;
    }
    (random::below(seed, 5) % 256) as u8
}

// All values below `size`.
pub fn within(size: u8) -> u32 {
    if size == 0 {
        return 0;
    }
    if 32 < size {
        return u32::MAX;
    }
    u32::MAX >> (32 - size)
}

// One value below `size`.
pub(crate) fn one_value(drawn: usize, size: u8) -> u32 {
    if size == 0 {
        return 0;
    }
    let value = drawn % (size as usize);
    1u32 << (value % 32)
}

// No value once in four rows, else one.
fn one_or_none(r: u32, q: u32, size: u8) -> u32 {
    if r % 4 == 0 {
        return 0;
    }
    one_value(q as usize, size)
}

// Past the values of the second option no value, and once in four rows none, else one that no other row has.
fn one_apart(r: u32, shift: u8, v: usize, size: u8) -> u32 {
    if (size as usize <= v) | (r % 4 == 0) {
        return 0;
    }
    one_value(std::num::wrapping_add_usize(v, shift as usize), size)
}

// The row of value `v`, from two words that are drawn for it.
pub(crate) fn row(kind: u8, r: u32, q: u32, shift: u8, v: usize, size: u8) -> u32 {
    match kind {
        SPARSE => r & q & within(size),
        CHAINS => one_value(r as usize, size),
        BIJECTIVE => one_value(std::num::wrapping_add_usize(v, shift as usize), size),
        DENSE => (r | q) & within(size),
        PAIRED => one_apart(r, shift, v, size),
        _ => one_or_none(r, q, size),
    }
}

// Where the version at place 0 is 3, one value in the place of none.
fn filled(bytes: &[u8; ROOM], row: u32, drawn: u32, size: u8) -> u32 {
    if (byte_at(bytes, 0) == 3) & (row == 0) {
        return one_value(drawn as usize, size);
    }
    row
}

// A row, in as many bytes as the version at place 0 has for it.
pub fn put_row(bytes: &mut [u8; ROOM], at: usize, row: u32) -> usize {
    let number = row as usize;
    if byte_at(bytes, 0) == 1 {
        return put_number(bytes, at, number);
    }
    let low = put_number(bytes, at, number / 65536);
    put_number(bytes, low, number)
}

fn put_rows(
    bytes: &mut [u8; ROOM],
    from: usize,
    kind: u8,
    count: usize,
    size: u8,
    seed: &mut u64,
) -> usize {
    let shift = random::byte(seed);
    let mut at = from;
    for v in 0..count {
        let r = random::word(seed);
        let q = random::word(seed);
        let drawn = row(kind, r, q, shift, v, size);
        let row = filled(bytes, drawn, q, size);
        at = put_row(bytes, at, row);
    }
    at
}

// The size that stands in the bytes for an option, counted from 1.
fn size_in(bytes: &[u8; ROOM], option: usize) -> u8 {
    if 16 < option {
        return 0;
    }
    byte_at(bytes, option + 3)
}

// The table of the options `a` and `b`, counted from 1. Answers the place after it.
fn put_table(
    bytes: &mut [u8; ROOM],
    at: usize,
    a: usize,
    b: usize,
    kind: u8,
    seed: &mut u64,
) -> usize {
    let second = put(bytes, at, low_byte(a));
    let first_row = put(bytes, second, low_byte(b));
    let count = size_in(bytes, a) as usize;
    let size = size_in(bytes, b);
    put_rows(bytes, first_row, kind, count, size, seed)
}

// The place of the number of tables.
fn count_place(n: usize) -> usize {
    std::num::wrapping_add_usize(4, n)
}

// One table more.
fn count_table(bytes: &mut [u8; ROOM], n: usize) {
    let tables = byte_at(bytes, count_place(n));
    put(bytes, count_place(n), std::num::wrapping_add_u8(tables, 1));
}

// The table of a pair, where it is in order and to be stated.
fn put_pair(
    bytes: &mut [u8; ROOM],
    at: usize,
    a: usize,
    b: usize,
    n: usize,
    family: u8,
    seed: &mut u64,
) -> usize {
    if (n < b) | (b <= a) {
        return at;
    }
    if !is_stated(family, a, b, seed) {
        return at;
    }
    count_table(bytes, n);
    put_table(bytes, at, a, b, kind_of(family, seed), seed)
}

// The tables of all pairs, in order: the pair number `k` is of the options k / 16 and k % 16, counted from 0.
fn put_tables(bytes: &mut [u8; ROOM], n: usize, family: u8, seed: &mut u64) -> usize {
    let mut at = std::num::wrapping_add_usize(count_place(n), 1);
    for k in 0..256 {
        at = put_pair(bytes, at, k / 16 + 1, k % 16 + 1, n, family, seed);
    }
    at
}

// The count of the bytes that follow it.
pub fn mend(bytes: &mut [u8; ROOM], length: usize) {
    if 3 <= length {
        put_number(bytes, 1, length - 3);
    }
}

// A sheet of the family, which the reader accepts.
pub fn make(family: u8, seed: &mut u64) -> Sheet {
    let mut bytes = [0u8; ROOM];
    let n = options(family, seed);
    put(&mut bytes, 0, version(family, seed));
    put(&mut bytes, 3, n);
    put_sizes(&mut bytes, n as usize, family, seed);
    let length = put_tables(&mut bytes, n as usize, family, seed);
    mend(&mut bytes, length);
    Sheet { bytes, length }
}
