// The search on a head and lent rows.
#![tactic(auto)]

ghost use Rattle.std.specs.Prelude.{◌≡◌};
ghost use Rattle.answers.specs.Answers.{verdict_told};
ghost use Rattle.state.specs.View.{state_of};
ghost use Rattle.state.specs.Solutions.{search_of};

use answers::Verdict;
use cause::Cause;
use head::{Head, Rows};
use search::search_sound;
use search_product::product;
use soundness::sound_parts;

// "It refuses with 9, and then with 23 when the product of the live list sizes exceeds 1,000,000".
const MOST_CHOICES: usize = 1_000_000;

// The first solution of any state, or that there is none. It does not reduce first.
pub fn search_parts(head: Head, rows: &Rows) -> Result<Verdict, Cause>
    ensures { verdict_told result ≡ search_of (state_of head rows.now) }
{
    if !sound_parts(head, rows) {
        return Err(Cause::Unsound);
    }
    if product(head) > MOST_CHOICES {
        return Err(Cause::TooManyChoices);
    }
    let Some(solution) = search_sound(head, rows) else {
        return Ok(Verdict::None);
    };
    Ok(Verdict::Built(solution))
}
