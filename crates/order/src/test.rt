// Whether an order is good: one pass, with the variables that are not placed yet as a word.
ghost use Rattle.std.specs.Prelude.{Bool, true, ◌≡◌, ℕ, pred, ◌≤◌, leb, length};
ghost use Rattle.bounded.specs.Bool.{and};
ghost use Rattle.words.specs.Word.{has};
ghost use Rattle.pairs.specs.Pairs.{variables};
ghost use Rattle.head.specs.Held.{held, sound_in};
ghost use Rattle.order.specs.Orders.{Governed, tested_in, order_tested};

use cause::Cause;
use head::{Head, Rows, VARIABLES};
use words::{WIDTH, both, member, single, without};

// The number `v`, counted from 1, is of one that is `left`.
fn still_left(left: u32, v: usize) -> bool
    ensures { result ≡ and (leb 1 v) (has left (pred v)) }
{
    if v == 0 {
        return false;
    }
    if WIDTH < v {
        return false;
    }
    member(left, v - 1)
}

// Each number is of one that is left, or the order is refused; and whether none that is left governs it.
fn pass(n: usize, over: &[u32; VARIABLES], order: &[u8]) -> Result<bool, Cause>
    requires { (n ≤ variables) × (length order.now ≡ n) }
    ensures { (R : ℕ → ℕ → Bool) → Governed n R over.now → result ≡ tested_in n R order.now }
{
    let mut left = words::full(n);
    let mut good = true;
    for p in 0..n {
        let v = words::wide(order[p]);
        if !still_left(left, v) {
            return Err(Cause::OrderNumbers);
        }
        let i = v - 1;
        good &= both(left, over[i]) == 0;
        left = without(left, single(i));
    }
    Ok(good)
}

// Whether the order, numbers counted from 1, is good. One that does not hold each variable exactly once and nothing else is refused.
pub fn test_order(head: Head, rows: &Rows, order: &[u8]) -> Result<bool, Cause>
    requires { sound_in head rows.now ≡ true }
    ensures { result ≡ order_tested (held head rows.now) order.now }
{
    if order.len() != head.n {
        return Err(Cause::OrderNumbers);
    }
    let over = order_paths::governors(head, rows);
    pass(head.n, &over, order)
}
