// A table from its other side: a row for each value of the second variable that it names.
ghost use Rattle.std.specs.Prelude.{◌≡◌, ℕ, ◌≤◌, ◌<◌, length, get_or};
ghost use Rattle.bounded.specs.Table.{tabulate};
ghost use Rattle.words.specs.Word.{width, has, word};
ghost use Rattle.step_sides.specs.Turned.{column_at, turned_of};

use words::{WIDTH, both, member, single};

// The rows of a table, and 0 past them: as many as the compiler needs for vectors.
fn whole(table: &[u32]) -> [u32; WIDTH]
    requires { length table.now ≤ width }
    ensures { result ≡ tabulate width (λ (c : ℕ). get_or table.now c 0) }
{
    let mut rows = [0u32; WIDTH];
    rows[..table.len()].copy_from_slice(table);
    rows
}

// `d` is a member of `x`. A loop over this form becomes vectors; `member` shifts each word.
fn holds(x: u32, d: usize) -> bool
    requires { d < width }
    ensures { result ≡ has x d }
{
    both(x, single(d)) != 0
}

// The values of the first that go with value `d` of the second, whose domain is `domain`. A value outside it is nobody's partner, so that none is looked for.
fn column(rows: &[u32; WIDTH], domain: u32, d: usize) -> u32
    requires { d < width }
    ensures { result ≡ word width (column_at domain rows.now d) }
{
    if !member(domain, d) {
        return 0;
    }
    folds::gather(WIDTH, |c| holds(rows[c], d))
}

// The table from its second variable: such a word for each of its values.
pub fn turned(table: &[u32], domain: u32) -> [u32; WIDTH]
    requires { length table.now ≤ width }
    ensures { result ≡ turned_of width domain table.now }
{
    let rows = whole(table);
    folds::table(|d| column(&rows, domain, d))
}
