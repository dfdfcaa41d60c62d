// The live variables' lists trimmed against each other, and their followers' with them.
#![tactic(auto)]

ghost use Rattle.std.specs.Prelude.{true, false, ◌≡◌, ℕ, ◌<◌, eqb, length, get_or};
ghost use Rattle.words.specs.Word.{width, has, word};
ghost use Rattle.network.specs.Trimming.{live_trimmed};
ghost use Rattle.pairs.specs.Pairs.{variables};
ghost use Rattle.head.specs.Held.{held, head_of, sound_in};
ghost use Rattle.step_live.specs.Live.{Revised};

use head::{Head, Rows, VARIABLES};
use words::{both, either};

// Holds the lists of the `others` against that of `j`, one after the other, and leaves the rest alone. It says whose lost a value.
fn revise(lists: &mut [u32; VARIABLES], rows: &Rows, others: u32, j: usize) -> u32
    requires { (j < variables) × (has others j ≡ false) × ((x : ℕ) → has others x ≡ true → x < variables) × (length lists.old ≡ variables) }
    ensures { Revised width rows.now lists.old others j lists.new result }
{
    let against = lists[j];
    let mut changed: u32 = 0;
    for x in words::members(others) {
        let before = lists[x];
        let after = step_compose::supported(rows, x, j, before, against);
        lists[x] = after;
        changed |= ((before != after) as u32) << x;
    }
    changed
}

// "Trim the live lists against each other": "Remove such values until none is left." A list that lost a value is one that its neighbours' lists are held
// against once more. At last every follower's list is trimmed to its leader's. The rows stay as they are.
pub fn trim_live(head: Head, rows: &Rows) -> Head
    requires { sound_in head rows.now ≡ true }
    ensures { result ≡ head_of (live_trimmed (held head rows.now)) }
{
    let sizes = head.sizes;
    let leaders = head.leaders;
    let stated = head.stated;
    let free = solutions::free_variables(VARIABLES, &leaders);
    let mut lists = head.domains;
    let mut left = free;
    while left != 0 {
        let j = words::lowest(left);
        let changed = revise(&mut lists, rows, both(stated[j], free), j);
        left = either(words::dropped(left), changed);
    }
    let trimmed = step_trim::trim_followers(rows, lists, leaders);
    Head {
        n: head.n,
        sizes: sizes,
        domains: trimmed,
        leaders: leaders,
        stated: stated,
    }
}
