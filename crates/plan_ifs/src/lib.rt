// The lines of the planning table that tell which value goes with which, each put at a place of a lent buffer. The state is sound.
#![tactic(auto)]

ghost use Rattle.std.specs.Prelude.{true, ◌≡◌, ℕ, ◌+◌, ◌<◌, ◌≤◌, eqb, get_or};
ghost use Rattle.bounded.specs.Fold.{some};
ghost use Rattle.words.specs.Word.{width, has};
ghost use Rattle.head.specs.Held.{held, sound_in};
ghost use Rattle.text_put.specs.Put.{Put, each};
ghost use Rattle.plan_ifs.specs.Ifs.{then_text, if_text, if_line, if_lines_of, if_lines};

use head::{Head, Rows};
use plan_lines::put_spaced;
use text_put::{put_each, put_text, put_titled};
use words::WIDTH;

// The leader, which counts from 1, is the option `i`.
fn follows(leader: u8, i: usize) -> bool
    requires { i < 16 }
    ensures { result ≡ eqb leader (i + 1) }
{
    usize::from(leader) == i + 1
}

// Some option follows `i`.
fn is_leader(n: usize, leaders: &[u8; 16], i: usize) -> bool
    requires { (n ≤ 16) × (i < 16) }
    ensures { result ≡ some n (λ (j : ℕ). eqb (get_or leaders.now j 0) (i + 1)) }
{
    (0..n).any(|j| follows(leaders[j], i))
}

// The follower `j` and its value, where it follows `i`, which has the value `a`.
fn put_then(
    buffer: &mut [u8],
    at: usize,
    head: Head,
    rows: &Rows,
    i: usize,
    a: usize,
    j: usize,
) -> usize
    requires { (sound_in head rows.now ≡ true) × (i < 16) × (j < 16) × (has (get_or head.domains i 0) a ≡ true) }
    ensures { Put buffer.old buffer.new (then_text (held head rows.now) i a j) at result }
{
    if !follows(head.leaders[j], i) {
        return at;
    }
    let partners = words::both(head.domains[j], pairs_read::row(rows, i, j, a));
    let named = put_spaced(buffer, at, j + 1);
    put_spaced(buffer, named, words::lowest(partners))
}

// All followers of `i` with their values.
fn put_thens(buffer: &mut [u8], at: usize, head: Head, rows: &Rows, i: usize, a: usize) -> usize
    requires { (sound_in head rows.now ≡ true) × (i < 16) × (has (get_or head.domains i 0) a ≡ true) }
    ensures { Put buffer.old buffer.new (each (then_text (held head rows.now) i a) head.n) at result }
{
    put_each(buffer, at, head.n, |buffer, next, j| {
        put_then(buffer, next, head, rows, i, a, j)
    })
}

// The line of value `a` of `i`.
fn put_if(buffer: &mut [u8], at: usize, head: Head, rows: &Rows, i: usize, a: usize) -> usize
    requires { (sound_in head rows.now ≡ true) × (i < 16) × (a < width) }
    ensures { Put buffer.old buffer.new (if_line (held head rows.now) i a) at result }
{
    if !words::member(head.domains[i], a) {
        return at;
    }
    let named = put_titled(buffer, at, b"IF ", i + 1);
    let valued = put_spaced(buffer, named, a);
    let titled = put_text(buffer, valued, b" THEN");
    let followed = put_thens(buffer, titled, head, rows, i, a);
    put_text(buffer, followed, b"\n")
}

// The lines of all values of `i`.
fn put_if_values(buffer: &mut [u8], at: usize, head: Head, rows: &Rows, i: usize) -> usize
    requires { (sound_in head rows.now ≡ true) × (i < 16) }
    ensures { Put buffer.old buffer.new (each (if_line (held head rows.now) i) width) at result }
{
    put_each(buffer, at, WIDTH, |buffer, next, a| {
        put_if(buffer, next, head, rows, i, a)
    })
}

// The lines of `i`, if it has followers.
fn put_ifs_of(buffer: &mut [u8], at: usize, head: Head, rows: &Rows, i: usize) -> usize
    requires { (sound_in head rows.now ≡ true) × (i < 16) }
    ensures { Put buffer.old buffer.new (if_lines_of (held head rows.now) i) at result }
{
    if !is_leader(head.n, &head.leaders, i) {
        return at;
    }
    put_if_values(buffer, at, head, rows, i)
}

pub fn put_ifs(buffer: &mut [u8], at: usize, head: Head, rows: &Rows) -> usize
    requires { sound_in head rows.now ≡ true }
    ensures { Put buffer.old buffer.new (if_lines (held head rows.now)) at result }
{
    put_each(buffer, at, head.n, |buffer, next, i| {
        put_ifs_of(buffer, next, head, rows, i)
    })
}
