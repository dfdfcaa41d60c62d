// The rows of a table: one of `k` bytes for each of `count` values of `i`, against the `size` values of `j`. They are stored as the file has them, from
// the lower variable `i`.
#![tactic(auto)]

ghost use Rattle.std.specs.Prelude.{◌≡◌, ◌+◌, ◌*◌, ◌<◌, ◌≤◌, length};
ghost use Rattle.words.specs.Word.{width};
ghost use Rattle.pairs.specs.Pairs.{variables};
ghost use Rattle.format.specs.Layout.{row_test};
ghost use Rattle.read_number.specs.Bytes.{RowBytes};
ghost use Rattle.read_rows.specs.Rows.{RowsJoined, RowsTaken, RowsWalked};

use cause::Refusal;
use pairs::Rows;
use read_field::Field;

// What rows have together, and whether none of them is all-zero.
#[derive(Clone, Copy)]
struct Joined {
    union: u32,
    filled: bool,
}

// Stores all rows, whatever they are, and joins them.
fn store_rows(
    bytes: &[u8],
    from: usize,
    k: usize,
    i: usize,
    j: usize,
    count: usize,
    rows: &mut Rows,
) -> Joined
    requires { (from + k * count ≤ length bytes.now) × RowBytes k × (i < j) × (j < variables) × (count ≤ width) × (length rows.old ≡ 3840) }
    ensures { RowsJoined width k bytes.now from i j count rows.old rows.new result.union result.filled }
{
    let mut union: u32 = 0;
    let mut filled = true;
    for a in 0..count {
        let row = read_number::number(bytes, from + k * a, k);
        pairs::put_row(rows, i, j, a, row);
        union = words::either(union, row);
        filled = filled & (0 < row);
    }
    Joined { union, filled }
}

// Stores and joins all rows. Where the bytes of a row are a constant the compiler reads several rows at once.
fn join_rows(
    bytes: &[u8],
    from: usize,
    k: usize,
    i: usize,
    j: usize,
    count: usize,
    rows: &mut Rows,
) -> Joined
    requires { (from + k * count ≤ length bytes.now) × RowBytes k × (i < j) × (j < variables) × (count ≤ width) × (length rows.old ≡ 3840) }
    ensures { RowsJoined width k bytes.now from i j count rows.old rows.new result.union result.filled }
{
    if k == 2 {
        return store_rows(bytes, from, 2, i, j, count, rows);
    }
    store_rows(bytes, from, 4, i, j, count, rows)
}

// One test of their length, one of their union and, where rows must be `filled`, one for all-zero rows decide whether all rows are fine. They are stored
// whatever they are.
pub fn take_rows(
    bytes: &[u8],
    from: usize,
    k: usize,
    i: usize,
    j: usize,
    count: usize,
    size: usize,
    filled: bool,
    rows: &mut Rows,
) -> bool
    requires { (from ≤ length bytes.now) × RowBytes k × (i < j) × (j < variables) × (count ≤ width) × (size ≤ width) × (length rows.old ≡ 3840) }
    ensures { RowsTaken width k (row_test filled size) bytes.now from i j count rows.old rows.new result }
{
    let end = from + k * count;
    if bytes.len() < end {
        return false;
    }
    // whether a row is all-zero is not found out where nobody asks
    if filled {
        let joined = join_rows(bytes, from, k, i, j, count, rows);
        return words::within(joined.union, size) & joined.filled;
    }
    let joined = join_rows(bytes, from, k, i, j, count, rows);
    words::within(joined.union, size)
}

// The rows one by one, up to the first that is refused: which it is, and where.
pub fn walk_rows(
    bytes: &[u8],
    from: usize,
    k: usize,
    count: usize,
    size: usize,
    filled: bool,
) -> Result<Field, Refusal>
    requires { (from ≤ length bytes.now) × RowBytes k × (size ≤ width) }
    ensures { RowsWalked k (row_test filled size) bytes.now from count result }
{
    let mut at = from;
    for _ in 0..count {
        let row = read_field::row_field(bytes, at, size, k, filled)?;
        at = row.next;
    }
    Ok(Field {
        value: count,
        next: at,
    })
}
