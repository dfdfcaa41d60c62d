// All that the program sheetcut does: a sheet from standard input, its text to standard output. No contract can speak of what is read and written: what
// holds this code is that it is run, by several program crates, each on an input of its own.
#![tactic(auto)]

use std::io;
use std::io::Read;
use text_report::{INPUT, report_input};

// Reads until the array is full or the input ends, and answers how many bytes came. A read that fails counts as the end: what came before it is the input.
fn read_input(reader: impl Read + Drop, input: &mut [u8; INPUT]) -> usize {
    let mut room = &mut input[..];
    let _ = io::copy(&mut reader.take(INPUT as u64), &mut room);
    INPUT.saturating_sub(room.len())
}

// A text that can't be written whole is told on standard error.
pub fn run(rt: &(impl Input + Print + Eprint)) {
    let mut input = [0u8; INPUT];
    let count = read_input(rt.reader(), &mut input);
    let text = report_input(input, count);
    if rt.write_all(&text.bytes[..text.length]).is_err() {
        let _ = rt.eprintln("sheetcut: the text could not be written whole");
    }
}
