// One field of a sheet at a time: its bytes, and its own test.
ghost use Rattle.std.specs.Prelude.{◌≡◌, ◌≤◌, length};
ghost use Rattle.words.specs.Word.{width};
ghost use Rattle.format.specs.Layout.{fine, pair_test, row_test};
ghost use Rattle.format.specs.Parse.{field};
ghost use Rattle.read_number.specs.Bytes.{RowBytes};
ghost use Rattle.read_field.specs.Fields.{read_of, range_test, Decides};

use cause::{Cause, Refusal};
use read_number::number;

// What was read, and the place after it.
#[derive(Clone, Copy)]
pub struct Field {
    pub value: usize,
    pub next: usize,
}

// One byte, from `least` to `most`.
pub fn byte_field(
    bytes: &[u8],
    at: usize,
    least: usize,
    most: usize,
    cause: Cause,
) -> Result<Field, Refusal>
    ensures { field 1 (range_test least most cause) bytes.now at ≡ read_of result }
{
    if bytes.len() <= at {
        return Err(Refusal {
            cause: Cause::Extent,
            place: at,
        });
    }
    let value = bytes[at] as usize;
    if (value < least) | (most < value) {
        return Err(Refusal { cause, place: at });
    }
    Ok(Field {
        value,
        next: at + 1,
    })
}

// The pair of a table: a at `first` and b after it. Tested for 6, then 7 "option numbers out of range", 19 "a is not below b", 20 "the pair is not after
// the one before".
pub fn pair_field(bytes: &[u8], first: usize, n: usize, previous: usize) -> Result<Field, Refusal>
    requires { first ≤ length bytes.now }
    ensures { field 2 (pair_test n previous) bytes.now first ≡ read_of result }
{
    let second = first + 1;
    if bytes.len() <= second {
        return Err(Refusal {
            cause: Cause::Extent,
            place: first,
        });
    }
    let pair = number(bytes, first, 2) as usize;
    let a = pair / 256;
    let b = pair % 256;
    if (a == 0) | (b == 0) | (n < a) | (n < b) {
        return Err(Refusal {
            cause: Cause::PairRange,
            place: first,
        });
    }
    if b <= a {
        return Err(Refusal {
            cause: Cause::PairOrder,
            place: first,
        });
    }
    if pair <= previous {
        return Err(Refusal {
            cause: Cause::PairRepeated,
            place: first,
        });
    }
    Ok(Field {
        value: pair,
        next: second + 1,
    })
}

// Whether a pair passes all of those tests.
pub fn pair_passes(pair: usize, n: usize, previous: usize) -> bool
    ensures { Decides result (pair_test n previous pair ≡ fine) }
{
    let a = pair / 256;
    let b = pair % 256;
    (0 < a) & (a < b) & (b <= n) & (previous < pair)
}

// A row of `k` bytes, against a variable of `size` values. Tested for 6, then 8 "row has a bit at or above the size of b", and then, where rows must be
// `filled`, 26 "an all-zero row".
pub fn row_field(
    bytes: &[u8],
    at: usize,
    size: usize,
    k: usize,
    filled: bool,
) -> Result<Field, Refusal>
    requires { (at ≤ length bytes.now) × (size ≤ width) × RowBytes k }
    ensures { field k (row_test filled size) bytes.now at ≡ read_of result }
{
    let next = at + k;
    if bytes.len() < next {
        return Err(Refusal {
            cause: Cause::Extent,
            place: at,
        });
    }
    let row = number(bytes, at, k);
    if !words::within(row, size) {
        return Err(Refusal {
            cause: Cause::RowRange,
            place: at,
        });
    }
    if filled & (row == 0) {
        return Err(Refusal {
            cause: Cause::BlankRow,
            place: at,
        });
    }
    Ok(Field {
        value: row as usize,
        next,
    })
}
