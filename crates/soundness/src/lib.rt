// Soundness of a state, as its head and its rows: the head by itself, the rows beside it, the followers.
#![tactic(auto)]

ghost use Rattle.std.specs.Prelude.{◌≡◌, false, ℕ, ◌<◌, ◌≤◌, get_or};
ghost use Rattle.words.specs.Word.{has};
ghost use Rattle.pairs.specs.Pairs.{variables};
ghost use Rattle.head.specs.Held.{sound_in};
ghost use Rattle.soundness.specs.Parts.{trimmed_to, follower_fits, free_or_fits, followers_fit};

use folds::every;
use head::{Head, Rows, VARIABLES};
use soundness_head::head_sound;
use soundness_rows::rows_sound;
use words::wide;

// `di` and `dl` are the lists of `i` and of its leader `l`: no value of the first that is not the partner of one of the second.
fn trimmed_to(rows: &Rows, i: usize, l: usize, di: u32, dl: u32) -> bool
    requires { (i < variables) × (l < variables) × (l ≡ i → ⊥) }
    ensures { result ≡ trimmed_to rows.now i l di dl }
{
    words::both(di, pairs_read::partners(rows, l, i, dl)) == di
}

// `i` follows `l`; `stated` is the word of `i`.
fn follower_sound(
    n: usize,
    domains: &[u32; VARIABLES],
    leaders: &[u8; VARIABLES],
    rows: &Rows,
    i: usize,
    stated: u32,
    l: usize,
) -> bool
    requires { (n ≤ variables) × (i < variables) × (has stated i ≡ false) }
    ensures { result ≡ follower_fits n domains.now leaders.now rows.now i stated l }
{
    if n <= l {
        return false;
    }
    if leaders[l] != 0 {
        return false;
    }
    if stated != words::single(l) {
        return false;
    }
    let di = domains[i];
    let dl = domains[l];
    if !pairs_read::partners_within(rows, l, i, dl, di, 1, 1) {
        return false;
    }
    trimmed_to(rows, i, l, di, dl)
}

// A variable is free or follows another.
fn free_or_sound(
    n: usize,
    domains: &[u32; VARIABLES],
    leaders: &[u8; VARIABLES],
    rows: &Rows,
    i: usize,
    stated: u32,
) -> bool
    requires { (n ≤ variables) × (i < variables) × (has stated i ≡ false) }
    ensures { result ≡ free_or_fits n domains.now leaders.now rows.now i stated }
{
    let leader = leaders[i];
    if leader == 0 {
        return true;
    }
    follower_sound(n, domains, leaders, rows, i, stated, wide(leader) - 1)
}

fn followers_sound(head: Head, rows: &Rows) -> bool
    requires { (head.n ≤ variables) × ((i : ℕ) → has (get_or head.stated i 0) i ≡ false) }
    ensures { result ≡ followers_fit head rows.now }
{
    let n = head.n;
    every(
        VARIABLES,
        |i| free_or_sound(n, &head.domains, &head.leaders, rows, i, head.stated[i]),
    )
}

// The whole test.
pub fn sound_parts(head: Head, rows: &Rows) -> bool
    ensures { result ≡ sound_in head rows.now }
{
    if !head_sound(head) {
        return false;
    }
    let n = head.n;
    if !rows_sound(n, &head.sizes, &head.stated, rows) {
        return false;
    }
    followers_sound(head, rows)
}
