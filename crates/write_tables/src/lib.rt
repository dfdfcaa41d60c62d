// The tables of a sheet, and numbers of any bytes, written into a lent buffer. Each function returns the place past what it wrote.
#![tactic(auto)]

ghost use Rattle.std.specs.Prelude.{true, ◌≡◌, ℕ, ◌+◌, ◌-◌, ◌/◌, ◌%◌, ◌^◌, ◌<◌, ◌≤◌, length, get_or};
ghost use Rattle.buffers.specs.Wrote.{Wrote};
ghost use Rattle.words.specs.Word.{width, has};
ghost use Rattle.pairs.specs.Pairs.{variables};
ghost use Rattle.format.specs.Print.{bytes_of};
ghost use Rattle.write_tables.specs.Texts.{row_of, rows_text, table_text, later_text, tables_text};

use buffers::put_byte;
use pairs::{Rows, VARIABLES};

// The byte of `number` of weight 256 to the `k`.
fn byte_of(number: u32, k: usize) -> u8
    requires { k < 4 }
    ensures { result ≡ number / 256 ^ k % 256 }
{
    ((number >> (8 * k)) % 256) as u8
}

// The low `bytes` bytes of a number in the other order.
fn turned(number: u32, bytes: usize) -> u32
    requires { bytes ≤ 4 }
    ensures { (i : ℕ) → i < bytes → result / 256 ^ i % 256 ≡ number / 256 ^ (bytes - 1 - i) % 256 }
{
    let all = number % 256 * 16777216
        + number / 256 % 256 * 65536
        + number / 65536 % 256 * 256
        + number / 16777216;
    ((all as u64) >> (8 * (4 - bytes))) as u32
}

// The low `bytes` bytes of a number, big-endian. A number has 4. They are turned first, so that the lowest is stored first: the compiler makes one store of it.
pub fn put_number(buffer: &mut [u8], at: usize, number: u32, bytes: usize) -> usize
    requires { (bytes ≤ 4) × (at + bytes ≤ length buffer.old) }
    ensures { Wrote buffer.old buffer.new (bytes_of bytes number) at result }
{
    let low_first = turned(number, bytes);
    let mut next = at;
    for i in 0..bytes {
        next = put_byte(buffer, next, byte_of(low_first, i));
    }
    next
}

// The rows of the table of `i` and the later `j`, one for each of the `size` values of `i`, in `bytes` bytes each.
fn put_rows(
    bytes: usize,
    size: usize,
    i: usize,
    j: usize,
    rows: &Rows,
    buffer: &mut [u8],
    at: usize,
) -> usize
    requires bytes_bound { (bytes ≤ 4) × (size ≤ width) × (i < j) × (j < variables) }
    requires j_in_bounds { at + length (rows_text bytes (row_of width rows.now) size i j) ≤ length buffer.old }
    ensures { Wrote buffer.old buffer.new (rows_text bytes (row_of width rows.now) size i j) at result }
{
    let mut next = at;
    for a in 0..size {
        next = put_number(buffer, next, pairs_read::stored_row(rows, i, j, a), bytes);
    }
    next
}

// The table of `i` and the later `j`, where they are stated together: the pair, counted from 1, and the rows. Where the bytes of a row are a constant, as the
// two and the four of today's versions are here, the compiler writes several rows at once.
fn write_table(
    bytes: usize,
    size: usize,
    stated: u32,
    i: usize,
    j: usize,
    rows: &Rows,
    buffer: &mut [u8],
    at: usize,
) -> usize
    requires bytes_bound { (bytes ≤ 4) × (size ≤ width) × (i < j) × (j < variables) }
    requires j_in_bounds { at + length (table_text bytes (row_of width rows.now) size stated i j) ≤ length buffer.old }
    ensures { Wrote buffer.old buffer.new (table_text bytes (row_of width rows.now) size stated i j) at result }
{
    if !words::member(stated, j) {
        return at;
    }
    let second = put_byte(buffer, at, (i + 1) as u8);
    let first_row = put_byte(buffer, second, (j + 1) as u8);
    if bytes == 2 {
        return put_rows(2, size, i, j, rows, buffer, first_row);
    }
    if bytes == 4 {
        return put_rows(4, size, i, j, rows, buffer, first_row);
    }
    put_rows(bytes, size, i, j, rows, buffer, first_row)
}

// The tables of `i` and each later variable that it is stated with, lowest first.
fn write_later(
    bytes: usize,
    n: usize,
    size: usize,
    stated: u32,
    i: usize,
    rows: &Rows,
    buffer: &mut [u8],
    at: usize,
) -> usize
    requires bytes_bound { (bytes ≤ 4) × (size ≤ width) × (i < n) × (n ≤ variables) × ((j : ℕ) → has stated j ≡ true → j < n) }
    requires i_in_bounds { at + length (later_text bytes (row_of width rows.now) n size stated i) ≤ length buffer.old }
    ensures { Wrote buffer.old buffer.new (later_text bytes (row_of width rows.now) n size stated i) at result }
{
    let mut next = at;
    for j in words::members(words::without(stated, words::full(i + 1))) {
        next = write_table(bytes, size, stated, i, j, rows, buffer, next);
    }
    next
}

// All tables, by their first variable and then by their second.
pub fn write_tables<'a>(
    bytes: usize,
    n: usize,
    sizes: &'a [u8; VARIABLES],
    stated: &'a [u32; VARIABLES],
    rows: &Rows,
    buffer: &mut [u8],
    at: usize,
) -> usize
    requires bytes_bound { (bytes ≤ 4) × (n ≤ variables) × ((i : ℕ) → get_or sizes.now i 0 ≤ width)
        × ((i j : ℕ) → has (get_or stated.now i 0) j ≡ true → j < n) }
    requires stated_in_bounds { at + length (tables_text bytes (row_of width rows.now) n sizes.now stated.now) ≤ length buffer.old }
    ensures { Wrote buffer.old buffer.new
        (tables_text bytes (row_of width rows.now) n sizes.now stated.now) at result }
{
    let mut next = at;
    for i in 0..n {
        let size = words::wide(sizes[i]);
        next = write_later(bytes, n, size, stated[i], i, rows, buffer, next);
    }
    next
}
