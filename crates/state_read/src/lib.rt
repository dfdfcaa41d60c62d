// Reading a sheet, its rows into a lent array.
#![tactic(auto)]

ghost use Rattle.std.specs.Prelude.{◌≡◌, ℕ, ◌≤◌, ltb, get_or};
ghost use Rattle.bounded.specs.Table.{tabulate};
ghost use Rattle.words.specs.Word.{width, word};
ghost use Rattle.pairs.specs.Pairs.{variables};
ghost use Rattle.head.specs.Held.{zero_head, zero_rows};
ghost use Rattle.format.specs.Parse.{bad};
ghost use Rattle.state.specs.Read.{read_as, read_sheet};
ghost use Rattle.state_read.specs.Parts.{read_parts_told, head_told};

use cause::Refusal;
use folds::table;
use head::{Head, Rows, VARIABLES};
use pairs::PLACES;

// Full domains: all values below each size. A size past `n` is 0, and no value is below it.
fn full_domains(sizes: &[u8; VARIABLES]) -> [u32; VARIABLES]
    requires { (i : ℕ) → get_or sizes.now i 0 ≤ width }
    ensures { result ≡ tabulate variables (λ (i : ℕ). word width (λ (a : ℕ). ltb a (get_or sizes.now i 0))) }
{
    table(|i| words::full(words::wide(sizes[i])))
}

#[tactic(auto, unfolding(head::specs::Held::zero_head))]
pub fn zero_head() -> Head
    ensures { result ≡ zero_head }
{
    Head {
        n: 0,
        sizes: [0; VARIABLES],
        domains: [0; VARIABLES],
        leaders: [0; VARIABLES],
        stated: [0; VARIABLES],
    }
}

// A refusal. "The zero state is zero throughout": so are the rows, whatever had been read.
pub fn refused(refusal: Refusal, rows: &mut Rows) -> Result<Head, Refusal>
    ensures { read_parts_told result rows.new ≡ read_as (bad refusal.cause refusal.place) }
{
    *rows = [0; PLACES];
    Err(refusal)
}

// What is read of a sheet's bytes, of any length and contents, besides the rows, or why and where they are refused.
pub fn read_parts(bytes: &[u8], rows: &mut Rows) -> Result<Head, Refusal>
    requires { rows.old ≡ zero_rows }
    ensures { read_parts_told result rows.new ≡ read_sheet bytes.now }
{
    let mut sizes = [0u8; VARIABLES];
    let mut stated = [0u32; VARIABLES];
    match read_sheet::read_into(bytes, &mut sizes, &mut stated, rows) {
        Ok(count) => {
            let domains = full_domains(&sizes);
            Ok(Head {
                n: count.value,
                sizes,
                domains,
                leaders: [0; VARIABLES],
                stated,
            })
        }
        Err(refusal) => refused(refusal, rows),
    }
}

// The head of what was read: zero after a refusal.
#[tactic(auto, unfolding(crate::specs::Parts::head_told))]
pub fn head_read(read: Result<Head, Refusal>) -> Head
    ensures { result ≡ head_told read }
{
    read.unwrap_or(zero_head())
}
