// The tables of a sheet, stored as they are read. Their rows have `k` bytes each, and must be `filled`, or need not.
#![tactic(auto)]

ghost use Rattle.std.specs.Prelude.{◌≡◌, ◌<◌, ◌≤◌, length, replicate};
ghost use Rattle.pairs.specs.Pairs.{variables};
ghost use Rattle.read_number.specs.Bytes.{RowBytes};
ghost use Rattle.read_tables.specs.Tables.{Sized, marked, TableTaken, TableWalked, TablesTaken, TablesRead};

use cause::Refusal;
use pairs::{Rows, VARIABLES};
use read_field::Field;

// States `j` with `i`, on the side of `i`.
fn mark(stated: &mut [u32; VARIABLES], i: usize, j: usize)
    requires { (i < variables) × (j < variables) }
    ensures { stated.new ≡ marked stated.old i j }
{
    stated[i] = words::either(stated[i], words::single(j));
}

// Where a table that is refused stands, and the pair before it.
#[derive(Clone, Copy)]
struct Stop {
    at: usize,
    previous: usize,
}

// Takes one table, its pair after `previous`: states the pair on both sides and stores its rows. What is read is the pair. Why and where a table is refused
// is not found out here.
fn take_table(
    bytes: &[u8],
    at: usize,
    k: usize,
    filled: bool,
    n: usize,
    previous: usize,
    sizes: &[u8; VARIABLES],
    stated: &mut [u32; VARIABLES],
    rows: &mut Rows,
) -> Option<Field>
    requires { (at ≤ length bytes.now) × RowBytes k × (n ≤ variables) × (length rows.old ≡ 3840) × Sized n sizes.now }
    ensures { TableTaken bytes.now at k filled n previous sizes.now
        stated.old rows.old stated.new rows.new result }
{
    let first_row = at + 2;
    if bytes.len() < first_row {
        return None;
    }
    let pair = read_number::number(bytes, at, 2) as usize;
    if !read_field::pair_passes(pair, n, previous) {
        return None;
    }
    let i = pair / 256 - 1;
    let j = pair % 256 - 1;
    mark(stated, i, j);
    mark(stated, j, i);
    let count = sizes[i] as usize;
    let size = sizes[j] as usize;
    if !read_rows::take_rows(bytes, first_row, k, i, j, count, size, filled, rows) {
        return None;
    }
    Some(Field {
        value: pair,
        next: first_row + k * count,
    })
}

// Takes so many tables, up to the first that is refused: the place after the last.
fn take_tables(
    bytes: &[u8],
    from: usize,
    k: usize,
    filled: bool,
    n: usize,
    count: usize,
    sizes: &[u8; VARIABLES],
    stated: &mut [u32; VARIABLES],
    rows: &mut Rows,
) -> Result<usize, Stop>
    requires { (from ≤ length bytes.now) × RowBytes k × (n ≤ variables) × (stated.old ≡ replicate variables 0) × (rows.old ≡ replicate 3840 0) × Sized n sizes.now }
    ensures { TablesTaken bytes.now from k filled n count sizes.now stated.new rows.new result }
{
    let mut at = from;
    let mut previous = 0;
    for _ in 0..count {
        let table = take_table(bytes, at, k, filled, n, previous, sizes, stated, rows);
        let Some(pair) = table else {
            return Err(Stop { at, previous });
        };
        previous = pair.value;
        at = pair.next;
    }
    Ok(at)
}

// The fields of one table one by one, up to the first that is refused: why, and where.
fn walk_table(
    bytes: &[u8],
    at: usize,
    k: usize,
    filled: bool,
    n: usize,
    previous: usize,
    sizes: &[u8; VARIABLES],
) -> Result<Field, Refusal>
    requires { (at ≤ length bytes.now) × RowBytes k × (n ≤ variables) × Sized n sizes.now }
    ensures { TableWalked bytes.now at k filled n previous sizes.now result }
{
    let pair = read_field::pair_field(bytes, at, n, previous)?;
    let count = sizes[pair.value / 256 - 1] as usize;
    let size = sizes[pair.value % 256 - 1] as usize;
    read_rows::walk_rows(bytes, pair.next, k, count, size, filled)
}

// So many tables. Only one that is refused is walked, outside the loop over all.
pub fn read_tables(
    bytes: &[u8],
    from: usize,
    k: usize,
    filled: bool,
    n: usize,
    count: usize,
    sizes: &[u8; VARIABLES],
    stated: &mut [u32; VARIABLES],
    rows: &mut Rows,
) -> Result<Field, Refusal>
    requires { (from ≤ length bytes.now) × RowBytes k × (n ≤ variables) × (stated.old ≡ replicate variables 0) × (rows.old ≡ replicate 3840 0) × Sized n sizes.now }
    ensures { TablesRead bytes.now from k filled n count sizes.now stated.new rows.new result }
{
    match take_tables(bytes, from, k, filled, n, count, sizes, stated, rows) {
        Ok(next) => Ok(Field { value: count, next }),
        Err(stop) => walk_table(bytes, stop.at, k, filled, n, stop.previous, sizes),
    }
}
