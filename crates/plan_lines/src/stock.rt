// The lines that tell which values to stock, and which not.
ghost use Rattle.std.specs.Prelude.{◌≡◌, ℕ, ◌<◌, ◌≤◌, get_or};
ghost use Rattle.words.specs.Word.{width};
ghost use Rattle.text_put.specs.Put.{Put};
ghost use Rattle.plan_lines.specs.Lines.{stock_line, stock_lines, idle_word, idle_line, idle_lines};

use crate::values::put_values_line;
use text_put::put_each;

// No line where there is no value.
fn put_stock_line(buffer: &mut [u8], at: usize, kind: &[u8], i: usize, x: u32) -> usize
    requires { i < 16 }
    ensures { Put buffer.old buffer.new (stock_line kind.now i x) at result }
{
    if x == 0 {
        return at;
    }
    put_values_line(buffer, at, kind, i, x)
}

// The lines of one kind, for the first `n` options.
pub fn put_stock(buffer: &mut [u8], at: usize, kind: &[u8], n: usize, words: &[u32; 16]) -> usize
    requires { n ≤ 16 }
    ensures { Put buffer.old buffer.new (stock_lines kind.now words.now n) at result }
{
    put_each(buffer, at, n, |buffer, next, i| {
        put_stock_line(buffer, next, kind, i, words[i])
    })
}

// The values below the size that are not used.
fn idle_word(size: u8, used: u32) -> u32
    requires { size ≤ width }
    ensures { result ≡ idle_word size used }
{
    words::without(words::full(words::wide(size)), used)
}

fn put_idle_line(buffer: &mut [u8], at: usize, i: usize, size: u8, used: u32) -> usize
    requires { (i < 16) × (size ≤ width) }
    ensures { Put buffer.old buffer.new (idle_line i size used) at result }
{
    put_stock_line(buffer, at, b"IDLE ", i, idle_word(size, used))
}

// The lines of idle values, for the first `n` options.
pub fn put_idle(
    buffer: &mut [u8],
    at: usize,
    n: usize,
    sizes: &[u8; 16],
    words: &[u32; 16],
) -> usize
    requires { (n ≤ 16) × ((i : ℕ) → get_or sizes.now i 0 ≤ width) }
    ensures { Put buffer.old buffer.new (idle_lines sizes.now words.now n) at result }
{
    put_each(buffer, at, n, |buffer, next, i| {
        put_idle_line(buffer, next, i, sizes[i], words[i])
    })
}
