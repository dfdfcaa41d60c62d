// The rules of a follow step on a head and rows: `j` comes to follow `i`, both counted from 0.
#![tactic(auto)]

ghost use Rattle.std.specs.Prelude.{true, ◌≡◌};
ghost use Rattle.network.specs.Step.{legal, followed};
ghost use Rattle.head.specs.Held.{RowsShaped, Represents, held, sound_in};

use head::{Head, Rows};
use step_parts::{leaders_after, move_thirds, stated_after, thirds_of};
use step_trim::trim_followers;

// Rules 1, 2 and 3, in order, and then the lists of all followers. The rows are worked on where they are; the head is built anew.
pub fn step(head: Head, rows: &mut Rows, i: usize, j: usize) -> Head
    requires { (sound_in head rows.old ≡ true) × RowsShaped rows.old × (legal (held head rows.old) i j ≡ true) }
    ensures { Represents (followed (held head rows.old) i j) result rows.new }
{
    let sizes = head.sizes;
    let domains = head.domains;
    let leaders = head.leaders;
    let stated = head.stated;
    let ti = step_compose::supported(rows, i, j, domains[i], domains[j]);
    let thirds = thirds_of(stated[j], i, j);
    move_thirds(rows, domains, stated[i], thirds, i, j, ti);
    let led = leaders_after(leaders, i, j);
    let linked = stated_after(stated, thirds, i, j);
    let mut trimmed = domains;
    trimmed[i] = ti;
    let short = trim_followers(rows, trimmed, led);
    Head {
        n: head.n,
        sizes: sizes,
        domains: short,
        leaders: led,
        stated: linked,
    }
}
