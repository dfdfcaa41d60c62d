// Writing: a sheet from a head and rows into a lent buffer.
ghost use Rattle.std.specs.Prelude.{[], ◌∷◌, ◌++◌, true, ◌≡◌, ℕ, ◌+◌, ◌*◌, ◌<◌, ◌≤◌, length, get_or, drop};
ghost use Rattle.buffers.specs.Wrote.{Wrote};
ghost use Rattle.words.specs.Word.{width, has};
ghost use Rattle.pairs.specs.Pairs.{variables};
ghost use Rattle.head.specs.Held.{held, sound_in};
ghost use Rattle.format.specs.Layout.{layout_of};
ghost use Rattle.format.specs.Print.{bytes_of};
ghost use Rattle.format.specs.Writable.{fits_version, rows_pass};
ghost use Rattle.write_sheet.specs.Writing.{bytes_held, LengthIs};
ghost use Rattle.write_tables.specs.Texts.{sizes_text, later, count_of_tables};

use buffers::put_byte;
use head::Head;
use pairs::{Rows, VARIABLES};
use write_tables::{put_number, write_tables};
use write_version::fixed_by;

// The sizes, a byte each.
fn write_sizes(n: usize, sizes: &[u8; VARIABLES], buffer: &mut [u8], at: usize) -> usize
    requires { (n ≤ variables) × (at + length (sizes_text n sizes.now) ≤ length buffer.old) }
    ensures { Wrote buffer.old buffer.new (sizes_text n sizes.now) at result }
{
    let mut next = at;
    for i in 0..n {
        next = put_byte(buffer, next, sizes[i]);
    }
    next
}

// How many members of `x` are above `i`.
fn later(x: u32, i: usize) -> usize
    requires { i < variables }
    ensures { (result ≡ later width x i) × (result ≤ width) }
{
    words::count(x >> (i + 1))
}

// How many bytes `tables` tables have whose first variable has `size` values, with `bytes` to a row.
fn tables_length(bytes: usize, size: u8, tables: usize) -> usize
    requires { (bytes ≤ 4) × (tables ≤ width) }
    ensures { (result ≡ (2 + bytes * size) * tables) × (result ≤ 32768) }
{
    (2 + bytes * usize::from(size)) * tables
}

// How many bytes a sheet has, and how many tables.
#[derive(Clone, Copy)]
pub struct Extent {
    pub length: usize,
    pub tables: usize,
}

// With `bytes` to a row: 5, a size each, and for each table its pair and its rows. No variable is stated with one at `n` or above.
pub fn extent_of<'a>(
    bytes: usize,
    n: usize,
    sizes: &'a [u8; VARIABLES],
    stated: &'a [u32; VARIABLES],
) -> Extent
    requires { (bytes ≤ 4) × (n ≤ variables) × ((i j : ℕ) → has (get_or stated.now i 0) j ≡ true → j < n) }
    ensures { LengthIs bytes n sizes.now stated.now result.length × (result.tables ≡ count_of_tables width n stated.now) }
{
    let mut length = 5 + n;
    let mut tables = 0;
    for i in 0..n {
        let more = later(stated[i], i);
        length += tables_length(bytes, sizes[i], more);
        tables += more;
    }
    Extent { length, tables }
}

// The version, the count of the bytes that follow it, and the number of variables.
fn write_header(version: u8, n: u8, follow: u32, buffer: &mut [u8]) -> usize
    requires { 4 ≤ length buffer.old }
    ensures { Wrote buffer.old buffer.new (version ∷ (bytes_of 2 follow ++ (n ∷ []))) 0 result }
{
    let count = put_byte(buffer, 0, version);
    let variables = put_number(buffer, count, follow, 2);
    put_byte(buffer, variables, n)
}

// The sheet of the network that a head and rows hold, in a version whose tests it passes, at the start of the buffer; how many bytes it has.
pub fn write_into(
    head: Head,
    rows: &Rows,
    version: usize,
    extent: Extent,
    buffer: &mut [u8],
) -> usize
    requires rows_value { (sound_in head rows.now ≡ true) × (fits_version (layout_of version) (held head rows.now) ≡ true)
        × (rows_pass (layout_of version) (held head rows.now) ≡ true) }
    requires length_value { (extent.length ≡ length (bytes_held version head rows.now)) × (extent.tables ≡ count_of_tables width head.n head.stated) }
    requires length_in_bounds { extent.length ≤ length buffer.old }
    ensures value { result ≡ length (bytes_held version head rows.now) }
    ensures buffer_after { buffer.new ≡ bytes_held version head rows.now
        ++ drop (length (bytes_held version head rows.now)) buffer.old }
{
    let n = head.n;
    let bytes = fixed_by(version).bytes;
    let follow = (extent.length - 3) as u32;
    let first_size = write_header(version as u8, n as u8, follow, buffer);
    let past_sizes = write_sizes(n, &head.sizes, buffer, first_size);
    let first_table = put_byte(buffer, past_sizes, extent.tables as u8);
    write_tables(
        bytes,
        n,
        &head.sizes,
        &head.stated,
        rows,
        buffer,
        first_table,
    )
}
