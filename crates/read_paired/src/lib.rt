// The paired profile: where the first table of an accepted sheet stands that is not functional both ways.
#![tactic(auto)]

ghost use Rattle.std.specs.Prelude.{◌≡◌, ℕ, ◌+◌, ◌*◌, ◌<◌, ◌≤◌, eqb, leb, length};
ghost use Rattle.bounded.specs.Bool.{bit, if};
ghost use Rattle.bounded.specs.Fold.{count};
ghost use Rattle.words.specs.Word.{width, has};
ghost use Rattle.format.specs.Parse.{number_at};
ghost use Rattle.format.specs.Profile.{rows_paired, unpaired_place};
ghost use Rattle.read_number.specs.Bytes.{RowBytes};
ghost use Rattle.read_number.specs.Standing.{standing_at};
ghost use Rattle.read_paired.specs.Accepted.{Accepted};
ghost use Rattle.read_paired.specs.Named.{place_named};

use read_number::standing;
use words::{count, either, wide};

// The bytes of a row: two in version 1, and four in those after it.
fn row_bytes(version: u8) -> usize
    ensures { result ≡ if (eqb version 1) 2 4 }
{
    if version == 1 { 2 } else { 4 }
}

// The values of a row past its lowest one: some, if it has two.
fn past_lowest(row: u32) -> u32
    ensures { eqb result 0 ≡ leb (count width (has row)) 1 }
{
    row & row.wrapping_sub(1)
}

// 1 for a row that has no value.
fn blank(row: u32) -> u32
    ensures { result ≡ bit (eqb row 0) }
{
    u32::from(row == 0)
}

// So many rows of `k` bytes each, as they stand: a table of them is functional both ways. Turning their bytes round changes neither how many values a row has
// nor whether rows share one. Where no row has two values they have as many values together as rows are not blank, unless two rows share one. The pass has no
// branch, so that the compiler takes several rows at once.
fn pass_rows(bytes: &[u8], from: usize, k: usize, rows: usize) -> bool
    requires { RowBytes k × (from + k * rows ≤ length bytes.now) × (rows < 256) }
    ensures { result ≡ rows_paired rows width (λ (a : ℕ). standing_at k bytes.now (from + k * a)) }
{
    let mut seen: u32 = 0;
    let mut more: u32 = 0;
    let mut blanks: u32 = 0;
    for a in 0..rows {
        let row = standing(bytes, from + k * a, k);
        seen = either(seen, row);
        more = either(more, past_lowest(row));
        blanks = blanks + blank(row);
    }
    (more == 0) & (count(seen) + blanks as usize == rows)
}

// Whether a table of so many rows of `k` bytes, as the numbers that they are, is functional both ways. The bytes of a row are a constant in each pass, without which the compiler takes the rows one by one.
fn rows_paired(bytes: &[u8], from: usize, k: usize, rows: usize) -> bool
    requires { RowBytes k × (from + k * rows ≤ length bytes.now) × (rows < 256) }
    ensures { result ≡ rows_paired rows width (λ (a : ℕ). number_at k bytes.now (from + k * a)) }
{
    if k == 2 {
        return pass_rows(bytes, from, 2, rows);
    }
    pass_rows(bytes, from, 4, rows)
}

// The place of the first such pair, if there is one.
pub fn unpaired_place(bytes: &[u8]) -> Option<usize>
    requires { Accepted bytes.now }
    ensures { result ≡ place_named (unpaired_place bytes.now) }
{
    let k = row_bytes(bytes[0]);
    let n = wide(bytes[3]);
    let p = wide(bytes[4 + n]);
    let mut at = 5 + n;
    for _ in 0..p {
        let a = wide(bytes[at]);
        let rows = wide(bytes[3 + a]);
        let first = at + 2;
        if !rows_paired(bytes, first, k, rows) {
            return Some(at);
        }
        at = first + k * rows;
    }
    None
}
