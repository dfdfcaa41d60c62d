// The first good order: "the smallest permitted number at each place".
ghost use Rattle.std.specs.Prelude.{Bool, true, ◌≡◌, ℕ, suc, ◌≤◌, ◌<◌, length, get_or};
ghost use Rattle.bounded.specs.Fold.{first};
ghost use Rattle.bounded.specs.Table.{tabulate};
ghost use Rattle.words.specs.Word.{width};
ghost use Rattle.network.specs.Order.{found};
ghost use Rattle.pairs.specs.Pairs.{variables};
ghost use Rattle.head.specs.Held.{held, sound_in};
ghost use Rattle.order.specs.Orders.{Governed, may_come, OrderFound, found_buffer};

use cause::Cause;
use head::{Head, Rows, VARIABLES};
use words::{both, member, single, without};

// `i` may come next: it is `left`, those that are not placed, and none of them governs it.
fn may_come(left: u32, over: u32, i: usize) -> bool
    requires { i < width }
    ensures { result ≡ may_come left over i }
{
    if !member(left, i) {
        return false;
    }
    both(left, over) == 0
}

// The smallest that may come next, or `n` where none may.
fn next(n: usize, over: &[u32; VARIABLES], left: u32) -> usize
    requires { n ≤ variables }
    ensures { result ≡ first n (λ (i : ℕ). may_come left (get_or over.now i 0) i) }
{
    for i in 0..n {
        if may_come(left, over[i], i) {
            return i;
        }
    }
    n
}

// Place after place, counted from 1.
fn place_all(n: usize, over: &[u32; VARIABLES], order: &mut [u8])
    requires { (n ≤ variables) × (length order.old ≡ n) }
    ensures { (R : ℕ → ℕ → Bool) → Governed n R over.now → order.new ≡ tabulate n (λ (p : ℕ). suc (found n R p)) }
{
    let mut left = words::full(n);
    for p in 0..n {
        let i = next(n, over, left);
        order[p] = (i + 1) as u8;
        left = without(left, single(i));
    }
}

// The order goes into a buffer of n bytes; a buffer of any other length is refused, and stays as it was.
pub fn find_order(head: Head, rows: &Rows, order: &mut [u8]) -> Result<(), Cause>
    requires { sound_in head rows.now ≡ true }
    ensures { OrderFound (held head rows.now) (length order.old) result × (order.new ≡ found_buffer (held head rows.now) order.old) }
{
    if order.len() != head.n {
        return Err(Cause::SolutionLength);
    }
    let over = order_paths::governors(head, rows);
    place_all(head.n, &over, order);
    Ok(())
}
