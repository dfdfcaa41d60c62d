// What the bytes of a part stand for: options, tables and values.
use std::array;
use test_inputs::tables::{ROOM, Table};
use test_oracle::brute::{byte, past};
use test_oracle::fields::is_filled;

// An option number; 255 stands for the largest of all.
pub(crate) fn option_at(given: &[u8], at: usize) -> usize {
    let number = byte(given, at);
    if number == 255 {
        return usize::MAX;
    }
    number as usize
}

// Rows, a byte for each, behind the numbers of two options.
fn rows_of(given: &[u8]) -> [u32; ROOM] {
    array::from_fn(|v| byte(given, past(v, 2)) as u32)
}

// A table for two options, with the rows behind them.
pub(crate) fn table_of(given: &[u8]) -> Table {
    Table {
        first: option_at(given, 0),
        second: option_at(given, 1),
        rows: rows_of(given),
        count: std::num::wrapping_sub_usize(given.len(), 2),
    }
}

// The values, zero past them.
pub(crate) fn values_of(given: &[u8]) -> [u8; 16] {
    array::from_fn(|i| byte(given, i))
}

// The bytes after the first.
pub(crate) fn rest_of(answer: &[u8]) -> &[u8] {
    if answer.len() == 0 {
        return answer;
    }
    &answer[1..]
}

// A number, and then values, zero past them.
pub(crate) fn is_shown(number: u8, values: [u8; 16], answer: &[u8]) -> bool {
    (number == byte(answer, 0)) & is_filled(&values, rest_of(answer), 0)
}
