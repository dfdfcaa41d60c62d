// Versions of the format: a sheet in another version, by its bytes alone, and numbers that are no version.
use test_inputs::families::{ROOM, Sheet};
use test_inputs::{families, random};
use test_oracle::brute;
use test_oracle::brute::{byte, past};

// The version after another, and after 3 the first.
pub fn after(version: u8) -> u8 {
    version % 3 + 1
}

// The version, n, the sizes and the number of tables. Answers the place after them.
fn put_head(to: &mut [u8; ROOM], bytes: &[u8], version: u8) -> usize {
    let end = past(5, brute::options(bytes));
    for at in 0..end {
        families::put(to, at, byte(bytes, at));
    }
    families::put(to, 0, version);
    end
}

// Two places: in the bytes that are read, and in those that are made.
#[derive(Clone, Copy)]
struct Places {
    from: usize,
    at: usize,
}

fn put_rows(to: &mut [u8; ROOM], bytes: &[u8], start: Places, count: usize) -> Places {
    let mut from = start.from;
    let mut at = start.at;
    for _ in 0..count {
        let row = (brute::row(bytes, from) % 4294967296) as u32;
        at = families::put_row(to, at, row);
        from = past(from, brute::row_length(bytes));
    }
    Places { from, at }
}

fn put_table(to: &mut [u8; ROOM], bytes: &[u8], start: Places) -> Places {
    let from = start.from;
    let second = families::put(to, start.at, byte(bytes, from));
    let rows = Places {
        from: past(from, 2),
        at: families::put(to, second, byte(bytes, past(from, 1))),
    };
    put_rows(
        to,
        bytes,
        rows,
        brute::size_of(bytes, byte(bytes, from) as usize),
    )
}

// Answers the place after the tables.
fn put_tables(to: &mut [u8; ROOM], bytes: &[u8], end: usize) -> usize {
    let tables = byte(bytes, past(4, brute::options(bytes))) as usize;
    let mut places = Places { from: end, at: end };
    for _ in 0..tables {
        places = put_table(to, bytes, places);
    }
    places.at
}

// The sheet in another version, whose rows may have another length. Its sizes are to fit that.
pub fn rewritten(bytes: &[u8], version: u8) -> Sheet {
    let mut made = [0u8; ROOM];
    let end = put_head(&mut made, bytes, version);
    let length = put_tables(&mut made, bytes, end);
    families::mend(&mut made, length);
    Sheet {
        bytes: made,
        length,
    }
}

// A number that is no version, though a part of it may be.
pub fn unknown(seed: &mut u64) -> usize {
    match random::below(seed, 8) {
        0 => 0,
        1 => 4,
        2 => 255,
        3 => 257,
        4 => 258,
        5 => 65537,
        6 => 4294967298,
        _ => usize::MAX - random::index(seed, 1000),
    }
}

// A version, or a number that is none.
pub fn any(seed: &mut u64) -> usize {
    if random::once_in(seed, 3) {
        return unknown(seed);
    }
    random::from(seed, 1, 3)
}
