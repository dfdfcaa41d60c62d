// Texts put into a lent buffer as far as it has room: no call asks for room, so that only the whole text has to be shown to fit. Each function returns
// the place past its text.
#![tactic(auto)]

ghost use Rattle.std.specs.Prelude.{List, [], ◌∷◌, ◌++◌, ℕ, ◌<◌};
ghost use Rattle.buffers.specs.Digits.{decimal};
ghost use Rattle.text_put.specs.Put.{Put, each};

use buffers::put_decimal;

pub fn put_byte(buffer: &mut [u8], at: usize, byte: u8) -> usize
    ensures { Put buffer.old buffer.new (byte ∷ []) at result }
{
    if at >= buffer.len() {
        return at;
    }
    buffer[at] = byte;
    at + 1
}

pub fn put_text(buffer: &mut [u8], at: usize, text: &[u8]) -> usize
    ensures { Put buffer.old buffer.new text.now at result }
{
    let mut next = at;
    for &byte in text {
        next = put_byte(buffer, next, byte);
    }
    next
}

// The most digits that a number has.
const DIGITS: usize = 20;

// A number in decimal.
pub fn put_number(buffer: &mut [u8], at: usize, n: usize) -> usize
    ensures { Put buffer.old buffer.new (decimal n) at result }
{
    let mut digits = [0u8; DIGITS];
    let end = put_decimal(&mut digits, 0, n);
    put_text(buffer, at, &digits[..end])
}

// A title and a number in decimal.
pub fn put_titled(buffer: &mut [u8], at: usize, title: &[u8], n: usize) -> usize
    ensures { Put buffer.old buffer.new (title.now ++ decimal n) at result }
{
    let next = put_text(buffer, at, title);
    put_number(buffer, next, n)
}

// A text for each number below `n`, one after the other.
pub fn put_each<F: Fn(&mut [u8], usize, usize) -> usize>(
    buffer: &mut [u8],
    at: usize,
    n: usize,
    put: F,
) -> usize
    requires { (before : _) (next i : ℕ) → i < n → F.pre put before next i }
    ensures { (text : ℕ → List ℕ) → ((before : _) (after : _) (next i r : ℕ) → i < n → F.post put before next i r after → Put before.now after.now (text i) next r)
        → Put buffer.old buffer.new (each text n) at result }
{
    let mut next = at;
    for i in 0..n {
        next = put(buffer, next, i);
    }
    next
}
