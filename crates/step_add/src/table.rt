// What a table for two variables makes of a head and rows. It is told through the leaders of the two.
ghost use Rattle.std.specs.Prelude.{Bool, true, ℕ, ◌≡◌, suc, ◌<◌, length};
ghost use Rattle.words.specs.Word.{width, has, word};
ghost use Rattle.network.specs.Added.{add_refusal, added};
ghost use Rattle.pairs.specs.Pairs.{variables};
ghost use Rattle.pairs.specs.Frames.{Stored};
ghost use Rattle.head.specs.Held.{RowsShaped, Represents, held, sound_in};
ghost use Rattle.step_sides.specs.Sides.{Placed, Apart, PartnersIn, PartnersTold, kept_at, cut_at};
ghost use Rattle.step_sides.specs.Turned.{Turns};
ghost use Rattle.step_add.specs.Cut.{cut_by};

use head::Head;
use pairs::Rows;
use step_sides::{Side, partner, reach, side_of, turned};
use step_trim::trim_followers;
use words::{WIDTH, both, either, member, single};

// Cuts the pair of the first leader, which is lower, and `q` for every value of the first, each row stored where it is. `reach` gives the values of `q` that go
// with a value by the table, and may read all rows but the pair's own. A value outside its domain has none, and a pair that was stated bars what it barred.
fn cut_with<F: Fn(&Rows, usize) -> u32>(rows: &mut Rows, first: Side, q: usize, was: bool, reach: F)
    requires { (first.leader < q) × (q < variables) × (length rows.old ≡ 3840)
        × ((now : _) (f : ℕ → ℕ → Bool) (n a : ℕ) → Stored width rows.old now.now first.leader q f n → a < width → has first.values a ≡ true → F.pre reach now a) }
    ensures { (told : ℕ → ℕ → Bool)
        → ((now : _) (f : ℕ → ℕ → Bool) (n a r : ℕ) → Stored width rows.old now.now first.leader q f n → a < width → has first.values a ≡ true
        → F.post reach now a r → r ≡ word width (told a))
        → Stored width rows.old rows.new first.leader q (cut_by width rows.old first q was told) width }
{
    let p = first.leader;
    for a in 0..WIDTH {
        let mut row = 0;
        if member(first.values, a) {
            row = reach(rows, a);
            if was {
                row = both(row, pairs_read::stored_row(rows, p, q, a));
            }
        }
        pairs::put_row(rows, p, q, a, row);
    }
}

// Both variables named are free.
fn both_free(first: Side, second: Side) -> bool
    ensures { result ≡ true → (first.leader ≡ first.named) × (second.leader ≡ second.named) }
{
    (first.leader == first.named) & (second.leader == second.named)
}

// Cuts the pair for every value. Of two free variables each value is its own partner, so that its row of the table says what goes with it: nothing is told
// through leaders, and the loop is short.
fn cut_pair(rows: &mut Rows, table: &[u32], first: Side, second: Side, was: bool)
    requires { Placed first × Placed second × Apart first second × (first.leader < second.leader) × PartnersIn width rows.old table.now first × (length rows.old ≡ 3840) }
    ensures { Stored width rows.old rows.new first.leader second.leader (cut_at width rows.old table.now first second was) width }
{
    let q = second.leader;
    if both_free(first, second) {
        cut_with(rows, first, q, was, |_, a| both(second.values, table[a]));
        return;
    }
    cut_with(rows, first, q, was, |rows, a| {
        both(second.values, reach(rows, table, first, second, a))
    });
}

// Cuts the pair whichever leader is lower. A pair is held from the lower one: where that is the second, the table is turned once, so that whole rows are read
// and stored.
fn cut(rows: &mut Rows, table: &[u32], first: Side, second: Side, was: bool)
    requires { Placed first × Placed second × Apart first second × PartnersIn width rows.old table.now first × Turns width rows.old table.now first second × (length rows.old ≡ 3840) }
    ensures { Stored width rows.old rows.new first.leader second.leader (cut_at width rows.old table.now first second was) width }
{
    if first.leader < second.leader {
        cut_pair(rows, table, first, second, was);
        return;
    }
    let columns = turned(table, second.domain);
    cut_pair(rows, &columns, second, first, was);
}

// One leader: its value `a` stays where the table allows its two partners, which are one each.
fn keeps(rows: &Rows, table: &[u32], first: Side, second: Side, a: usize) -> bool
    requires { Placed first × Placed second × (a < width) × PartnersIn width rows.now table.now first × PartnersTold width rows.now first second }
    ensures { result ≡ kept_at width rows.now table.now first second a }
{
    if !member(first.values, a) {
        return false;
    }
    let c = partner(rows, first, a);
    let d = partner(rows, second, a);
    member(table[c], d)
}

// The values that stay.
fn kept(rows: &Rows, table: &[u32], first: Side, second: Side) -> u32
    requires { Placed first × Placed second × PartnersIn width rows.now table.now first × PartnersTold width rows.now first second }
    ensures { result ≡ word width (kept_at width rows.now table.now first second) }
{
    folds::gather(WIDTH, |a| keeps(rows, table, first, second, a))
}

// Adds the table of `x` and `y`, counted from 0. With one leader its domain is trimmed, and so are those of its followers; else the pair of the two is stated
// and cut, where its rows are.
pub fn add(mut head: Head, rows: &mut Rows, x: usize, y: usize, table: &[u32]) -> Head
    requires { (sound_in head rows.old ≡ true) × RowsShaped rows.old × (add_refusal (held head rows.old) (suc x) (suc y) table.now ≡ 0) }
    ensures { Represents (added (held head rows.old) x y table.now) result rows.new }
{
    let first = side_of(head, x);
    let second = side_of(head, y);
    let p = first.leader;
    let q = second.leader;
    if p == q {
        let mut domains = head.domains;
        let leaders = head.leaders;
        domains[p] = kept(rows, table, first, second);
        let short = trim_followers(rows, domains, leaders);
        head.domains = short;
        return head;
    }
    let mut stated = head.stated;
    cut(rows, table, first, second, member(stated[p], q));
    stated[p] = either(stated[p], single(q));
    stated[q] = either(stated[q], single(p));
    head.stated = stated;
    head
}
