// Followers' lists trimmed to what their leaders' lists leave them.
#![tactic(auto)]

ghost use Rattle.std.specs.Prelude.{◌≡◌, ◌<◌};
ghost use Rattle.bounded.specs.Table.{tabulate};
ghost use Rattle.words.specs.Word.{width};
ghost use Rattle.pairs.specs.Pairs.{variables};
ghost use Rattle.step_trim.specs.Trimmed.{Led, trimmed_at};

use head::{Rows, VARIABLES};

// The domain of `x`: as it is where nobody leads `x`, and else by rule 1 against its leader's.
fn trim_variable(rows: &Rows, domains: [u32; VARIABLES], leaders: [u8; VARIABLES], x: usize) -> u32
    requires { (x < variables) × Led leaders }
    ensures { result ≡ trimmed_at width rows.now domains leaders x }
{
    let leader = words::wide(leaders[x]);
    if leader == 0 {
        return domains[x];
    }
    let l = leader - 1;
    step_compose::supported(rows, x, l, domains[x], domains[l])
}

// "A value stays in a follower's list exactly when it is the partner of a value in the leader's list." No leader follows, so that no list that is trimmed is one
// that another is trimmed by.
pub fn trim_followers(
    rows: &Rows,
    domains: [u32; VARIABLES],
    leaders: [u8; VARIABLES],
) -> [u32; VARIABLES]
    requires { Led leaders }
    ensures { result ≡ tabulate variables (trimmed_at width rows.now domains leaders) }
{
    folds::table(|x| trim_variable(rows, domains, leaders, x))
}
