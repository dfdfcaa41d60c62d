// The survey on a head and lent rows: how many builds a state has, and which values they have.
#![tactic(auto)]

ghost use Rattle.std.specs.Prelude.{◌≡◌};
ghost use Rattle.state.specs.View.{state_of};
ghost use Rattle.state_survey.specs.Survey.{survey_told, survey_of};

use cause::Cause;
use head::{Head, Rows, VARIABLES};
use soundness::sound_parts;
pub use survey::Surveyed;
use survey::survey_sound;
use survey_product::tied_product;

// "when the product of the list sizes of those live options that are stated with another live option exceeds 1,000,000"
const MOST_CHOICES: usize = 1_000_000;

// How many builds any state has, and which values they have. It changes nothing and does not reduce first. An empty live list says nothing before any value
// is tried.
pub fn survey_parts(head: Head, rows: &Rows) -> Result<Surveyed, Cause>
    ensures { survey_told result ≡ survey_of (state_of head rows.now) }
{
    if !sound_parts(head, rows) {
        return Err(Cause::Unsound);
    }
    let choices = tied_product(head);
    if choices > MOST_CHOICES {
        return Err(Cause::TooManyChoices);
    }
    if choices == 0 {
        return Ok(Surveyed {
            count: 0,
            more: false,
            words: [0; VARIABLES],
        });
    }
    Ok(survey_sound(head, rows))
}
