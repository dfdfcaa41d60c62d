// The lines of options, and how many of them follow.
ghost use Rattle.std.specs.Prelude.{◌≡◌, ◌<◌, ◌≤◌};
ghost use Rattle.text_put.specs.Put.{Put};
ghost use Rattle.plan_lines.specs.Lines.{option_line, option_lines, steps_of};

use crate::values::put_values_line;
use text_put::{put_each, put_text, put_titled};

// The line of the option `i`, which counts from 0.
fn put_option(buffer: &mut [u8], at: usize, i: usize, leader: u8, list: u32) -> usize
    requires { i < 16 }
    ensures { Put buffer.old buffer.new (option_line i leader list) at result }
{
    if leader == 0 {
        return put_values_line(buffer, at, b"LIVE ", i, list);
    }
    let named = put_titled(buffer, at, b"FOLLOWS ", i + 1);
    let led = put_titled(buffer, named, b" OF ", leader as usize);
    put_text(buffer, led, b"\n")
}

// The lines of the first `n` options.
pub fn put_options(
    buffer: &mut [u8],
    at: usize,
    n: usize,
    leaders: &[u8; 16],
    lists: &[u32; 16],
) -> usize
    requires { n ≤ 16 }
    ensures { Put buffer.old buffer.new (option_lines leaders.now lists.now n) at result }
{
    put_each(buffer, at, n, |buffer, next, i| {
        put_option(buffer, next, i, leaders[i], lists[i])
    })
}

// How many of the first `n` options follow another.
pub fn steps(n: usize, leaders: &[u8; 16]) -> usize
    requires { n ≤ 16 }
    ensures { result ≡ steps_of leaders.now n }
{
    leaders[..n].iter().filter(|leader| **leader != 0).count()
}
