// The search over a head and lent rows: the first choice of the free variables, completed.
#![tactic(auto)]

mod turns;

ghost use Rattle.std.specs.Prelude.{true, ◌≡◌};
ghost use Rattle.head.specs.Held.{held, sound_in};
ghost use Rattle.search.specs.Found.{FoundIn};

use head::Head;
use pairs::{Rows, VARIABLES};
use search_product::product;

// The first solution of a sound state. A product of 0 says none before any value is tried.
pub fn search_sound(head: Head, rows: &Rows) -> Option<[u8; VARIABLES]>
    requires { sound_in head rows.now ≡ true }
    ensures { FoundIn (held head rows.now) result }
{
    if product(head) == 0 {
        return None;
    }
    let left = solutions::free_variables(head.n, &head.leaders);
    let mut solution = [0u8; VARIABLES];
    if !turns::choose(&head.stated, rows, &head.domains, left, &mut solution) {
        return None;
    }
    solutions::complete_values(head.n, &head.domains, &head.leaders, rows, &mut solution);
    Some(solution)
}
