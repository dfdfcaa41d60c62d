// The survey over a head and lent rows: how many solutions there are, and which values they have.
#![tactic(auto)]

mod settle;
mod spread;
mod tally;

ghost use Rattle.std.specs.Prelude.{true, ◌≡◌, ◌≤◌};
ghost use Rattle.network.specs.Survey.{tied_product};
ghost use Rattle.head.specs.Held.{held, sound_in};
ghost use Rattle.survey.specs.Surveyed.{SurveyedIn};

use crate::settle::Settled;
use head::Head;
use pairs::{Rows, VARIABLES};
use words::without;

// How many solutions there are, capped, whether there are more, and for each variable the values that some solution has.
#[derive(Clone, Copy)]
pub struct Surveyed {
    pub count: u64,
    pub more: bool,
    pub words: [u32; VARIABLES],
}

// The survey of a sound state where no free domain is empty and few choices of the tied variables are to be tried.
pub fn survey_sound(head: Head, rows: &Rows) -> Surveyed
    requires { (sound_in head rows.now ≡ true) × (1 ≤ tied_product (held head rows.now)) × (tied_product (held head rows.now) ≤ 1000000) }
    ensures { SurveyedIn (held head rows.now) result }
{
    let Settled {
        free,
        left,
        lists,
        stated,
    } = settle::settle_singles(head, rows);
    let mut used = [0u32; VARIABLES];
    let tallied = tally::tally(&stated, rows, &lists, left, &mut used);
    let others = without(free, left);
    let counted = spread::multiplied(head.n, others, &lists, tallied);
    if counted.count == 0 {
        return Surveyed {
            count: 0,
            more: false,
            words: [0u32; VARIABLES],
        };
    }
    let words = spread::all_words(&head.leaders, &head.domains, &lists, rows, left, &used);
    Surveyed {
        count: counted.count,
        more: counted.more,
        words,
    }
}
