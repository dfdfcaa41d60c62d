// The lines of an option and of a refusal, each written at a place of a lent buffer that has room for it; each function returns the place past its part.
#![tactic(auto)]

ghost use Rattle.std.specs.Prelude.{◌+◌, ◌<◌, ◌≤◌, length};
ghost use Rattle.buffers.specs.Wrote.{Wrote};
ghost use Rattle.text_lines.specs.Text.{refused_text, pair_line, live_line, option_line, option_lines};

use buffers::{put_hex, put_text, put_titled};

// A line of two numbers, each with a title.
fn put_pair(
    buffer: &mut [u8],
    at: usize,
    first: &[u8],
    one: usize,
    second: &[u8],
    two: usize,
) -> usize
    requires { at + length (pair_line first.now one second.now two) ≤ length buffer.old }
    ensures { Wrote buffer.old buffer.new (pair_line first.now one second.now two) at result }
{
    let middle = put_titled(buffer, at, first, one);
    let last = put_titled(buffer, middle, second, two);
    put_text(buffer, last, b"\n")
}

// The line of a live option, which counts from 1, with its list.
fn put_live(buffer: &mut [u8], at: usize, number: usize, list: u32) -> usize
    requires { at + length (live_line number list) ≤ length buffer.old }
    ensures { Wrote buffer.old buffer.new (live_line number list) at result }
{
    let named = put_titled(buffer, at, b"LIVE ", number);
    let titled = put_text(buffer, named, b" LIST ");
    let listed = put_hex(buffer, titled, list, 8);
    put_text(buffer, listed, b"\n")
}

// The line of the option `i`, which counts from 0.
fn put_option(buffer: &mut [u8], at: usize, i: usize, leader: u8, list: u32) -> usize
    requires { (i < 16) × (at + length (option_line i leader list) ≤ length buffer.old) }
    ensures { Wrote buffer.old buffer.new (option_line i leader list) at result }
{
    let number = i + 1;
    if leader == 0 {
        return put_live(buffer, at, number, list);
    }
    put_pair(buffer, at, b"FOLLOWS ", number, b" OF ", leader as usize)
}

// The lines of the first `n` options.
pub fn put_options(
    buffer: &mut [u8],
    at: usize,
    n: usize,
    leaders: &[u8; 16],
    lists: &[u32; 16],
) -> usize
    requires { (n ≤ 16) × (at + length (option_lines leaders.now lists.now n) ≤ length buffer.old) }
    ensures { Wrote buffer.old buffer.new (option_lines leaders.now lists.now n) at result }
{
    let mut next = at;
    for i in 0..n {
        next = put_option(buffer, next, i, leaders[i], lists[i]);
    }
    next
}

// "REFUSED", the number and the place.
pub fn put_refusal(buffer: &mut [u8], at: usize, number: u8, place: usize) -> usize
    requires { at + length (refused_text number place) ≤ length buffer.old }
    ensures { Wrote buffer.old buffer.new (refused_text number place) at result }
{
    put_pair(buffer, at, b"REFUSED ", number as usize, b" AT ", place)
}
