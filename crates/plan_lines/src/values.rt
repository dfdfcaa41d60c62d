// The values of a word, in decimal.
ghost use Rattle.std.specs.Prelude.{◌<◌};
ghost use Rattle.words.specs.Word.{width};
ghost use Rattle.text_put.specs.Put.{Put, each};
ghost use Rattle.plan_lines.specs.Lines.{spaced, value_among, values_line};

use text_put::{put_each, put_text, put_titled};
use words::WIDTH;

// A blank and a number.
pub fn put_spaced(buffer: &mut [u8], at: usize, k: usize) -> usize
    ensures { Put buffer.old buffer.new (spaced k) at result }
{
    put_titled(buffer, at, b" ", k)
}

// The value `v`, where the word has it.
fn put_value(buffer: &mut [u8], at: usize, x: u32, v: usize) -> usize
    requires { v < width }
    ensures { Put buffer.old buffer.new (value_among x v) at result }
{
    if !words::member(x, v) {
        return at;
    }
    put_spaced(buffer, at, v)
}

fn put_values(buffer: &mut [u8], at: usize, x: u32) -> usize
    ensures { Put buffer.old buffer.new (each (value_among x) width) at result }
{
    put_each(buffer, at, WIDTH, |buffer, next, v| {
        put_value(buffer, next, x, v)
    })
}

// The line of the option `i`, which counts from 0.
pub(crate) fn put_values_line(buffer: &mut [u8], at: usize, kind: &[u8], i: usize, x: u32) -> usize
    requires { i < 16 }
    ensures { Put buffer.old buffer.new (values_line kind.now i x) at result }
{
    let named = put_titled(buffer, at, kind, i + 1);
    let titled = put_text(buffer, named, b" VALUES");
    let listed = put_values(buffer, titled, x);
    put_text(buffer, listed, b"\n")
}
