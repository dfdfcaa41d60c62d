// The arrays of a state, compared and looked up. Places past their ends hold 0.
ghost use Rattle.std.specs.Prelude.{ℕ, ◌<◌};

use crate::brute;

// The buffer holds the bytes, and `rest` at each place past them.
pub fn is_filled(buffer: &[u8], bytes: &[u8], rest: u8) -> bool {
    buffer
        .iter()
        .enumerate()
        .all(|(i, &b)| b == brute::byte_or(bytes, i, rest))
}

// All bytes from `n` on are zero.
pub fn is_zero_from(bytes: [u8; 16], n: usize) -> bool {
    bytes.iter().skip(n).all(|&b| b == 0)
}

pub fn bit_if(is_set: bool, v: usize) -> u32 {
    if is_set {
        return 1u32 << (v % 32);
    }
    0
}

// The bits of the numbers below `n` that pass.
pub fn bits<F: Fn(usize) -> bool>(n: usize, test: F) -> u32
    requires { (i : ℕ) → i < n → F.pre test i }
{
    let mut word: u32 = 0;
    for v in 0..n {
        word |= bit_if(test(v), v);
    }
    word
}

// Bit `v` of a word.
pub fn has(word: u32, v: usize) -> bool {
    brute::has(word as usize, v)
}

// A word as an index.
pub fn wide(word: u32) -> usize {
    word as usize
}

// The word of the option `i`.
pub fn word_at(words: [u32; 16], i: usize) -> u32 {
    if 15 < i {
        return 0;
    }
    words[i]
}

// The byte of the option `i`, as an index.
pub fn byte_at(bytes: [u8; 16], i: usize) -> usize {
    if 15 < i {
        return 0;
    }
    bytes[i] as usize
}

// The lower of two.
pub fn lower(i: usize, j: usize) -> usize {
    if i < j {
        return i;
    }
    j
}

// Where the rows of each option begin, as the higher of a pair.
const STARTS: [usize; 16] = [0, 0, 1, 3, 6, 10, 15, 21, 28, 36, 45, 55, 66, 78, 91, 105];

// How many rows there are.
pub const ROWS: usize = 3840;

// The place of the row of value `a` of the option `i` against the higher `j`; past the array where there is none.
pub fn place(i: usize, j: usize, a: usize) -> usize {
    if 15 < j {
        return ROWS;
    }
    if j <= i {
        return ROWS;
    }
    if 31 < a {
        return ROWS;
    }
    let start = STARTS[j];
    if 105 < start {
        return ROWS;
    }
    (start + i) * 32 + a
}

// That row.
fn stored(rows: &[u32; 3840], i: usize, j: usize, a: usize) -> u32 {
    let at = place(i, j, a);
    if ROWS <= at {
        return 0;
    }
    rows[at]
}

// That row from the higher option: the values of `i` whose rows have value `b` of `j`.
fn column(rows: &[u32; 3840], i: usize, j: usize, b: usize) -> u32 {
    bits(32, |a| has(stored(rows, i, j, a), b))
}

// The values of the option `j` that go with value `a` of `i`.
pub fn row_at(rows: &[u32; 3840], i: usize, j: usize, a: usize) -> u32 {
    if i < j {
        return stored(rows, i, j, a);
    }
    column(rows, j, i, a)
}

// The live options, as bits.
pub fn free(n: usize, leaders: [u8; 16]) -> u32 {
    bits(16, |i| (i < n) & (byte_at(leaders, i) == 0))
}
