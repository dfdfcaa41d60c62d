// Texts written into a lent buffer. Each function returns the place past its text. Texts one after the other are a loop where they are written, and no `put_each`
// as in `text_put`: room is asked for here, so that each caller would have to name, as a ghost value, the texts that its closure writes.
#![tactic(auto)]

ghost use Rattle.std.specs.Prelude.{[], ◌∷◌, ◌++◌, ◌≡◌, ◌+◌, ◌/◌, ◌%◌, ◌^◌, ◌<◌, ◌≤◌, length};
ghost use Rattle.buffers.specs.Digits.{decimal, hex_digit, hex_text};
ghost use Rattle.buffers.specs.Wrote.{Wrote};

pub fn put_byte(buffer: &mut [u8], at: usize, byte: u8) -> usize
    requires { at < length buffer.old }
    ensures { Wrote buffer.old buffer.new (byte ∷ []) at result }
{
    buffer[at] = byte;
    at + 1
}

pub fn put_text(buffer: &mut [u8], at: usize, text: &[u8]) -> usize
    requires { at + length text.now ≤ length buffer.old }
    ensures { Wrote buffer.old buffer.new text.now at result }
{
    let mut next = at;
    for &byte in text {
        next = put_byte(buffer, next, byte);
    }
    next
}

// A number in decimal: its tenth, if it has one, and then its last digit.
fn put_digits(buffer: &mut [u8], at: usize, n: usize) -> usize
    requires { at + length (decimal n) ≤ length buffer.old }
    ensures { Wrote buffer.old buffer.new (decimal n) at result }
{
    if n < 10 {
        return put_byte(buffer, at, 48 + n as u8);
    }
    let next = put_digits(buffer, at, n / 10);
    put_byte(buffer, next, 48 + (n % 10) as u8)
}

// Writes a number in decimal. Most numbers have one digit, for which nothing is called.
pub fn put_decimal(buffer: &mut [u8], at: usize, n: usize) -> usize
    requires { at + length (decimal n) ≤ length buffer.old }
    ensures { Wrote buffer.old buffer.new (decimal n) at result }
{
    if n < 10 {
        return put_byte(buffer, at, 48 + n as u8);
    }
    put_digits(buffer, at, n)
}

// A title and a number in decimal.
pub fn put_titled(buffer: &mut [u8], at: usize, title: &[u8], n: usize) -> usize
    requires { at + length (title.now ++ decimal n) ≤ length buffer.old }
    ensures { Wrote buffer.old buffer.new (title.now ++ decimal n) at result }
{
    let next = put_text(buffer, at, title);
    put_decimal(buffer, next, n)
}

// The hexadecimal digit of `word` of weight 16 to the `k`.
fn hex_digit(word: u32, k: usize) -> u8
    requires { k < 8 }
    ensures { result ≡ hex_digit (word / 16 ^ k % 16) }
{
    let digit = ((word >> (4 * k)) % 16) as u8;
    if digit < 10 {
        return 48 + digit;
    }
    55 + digit
}

// The low `digits` hexadecimal digits of a word, highest first. A word has 8.
pub fn put_hex(buffer: &mut [u8], at: usize, word: u32, digits: usize) -> usize
    requires { (digits ≤ 8) × (at + digits ≤ length buffer.old) }
    ensures { Wrote buffer.old buffer.new (hex_text digits word) at result }
{
    let mut next = at;
    for i in 0..digits {
        next = put_byte(buffer, next, hex_digit(word, digits - 1 - i));
    }
    next
}
