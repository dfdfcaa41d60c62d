// Deliveries and call-offs on counts of bins that stand in an array, as a program holds them. The calls on records stand in `state_bins`.
#![tactic(auto)]

ghost use Rattle.std.specs.Prelude.{true, List, ◌≡◌, ℕ, ◌+◌, ◌≤◌, ◌<◌, length, get_or, take};
ghost use Rattle.bins.specs.Bins.{no_bin};
ghost use Rattle.bins_counts.specs.Counts.{spot, bin_of_place};
ghost use Rattle.state.specs.View.{state_of, sound_state};
ghost use Rattle.state_bins.specs.Bins.{has_value};
ghost use Rattle.stock.specs.Stock.{Sized, DeliveredIn, CountsCalledOff};

use answers::test_agrees;
use bins::Bin;
use bins_counts::{BINS, draw, lowest, spot, spot_of};
use head::{Head, Rows, VARIABLES};
use state_solutions::test_parts;

#[derive(Clone, Copy)]
pub struct CalledOff {
    pub number: u8,
    // The bin that 29 names; zero throughout with any other number.
    pub low: Bin,
}

// Neither an option number 0 or above n nor a value at or above the size.
fn has_value(head: Head, variable: usize, value: usize) -> bool
    requires { head.n ≤ 16 }
    ensures { (rows : List ℕ) → result ≡ has_value (state_of head rows) variable value }
{
    if variable < 1 {
        return false;
    }
    if head.n < variable {
        return false;
    }
    let sizes = head.sizes;
    value < sizes[variable - 1] as usize
}

// A delivery adds an amount to the bin of a value: 0, or 28 and nothing is changed.
pub fn deliver_counts(
    head: Head,
    counts: &mut [u32; BINS],
    variable: usize,
    value: usize,
    amount: u32,
) -> u8
    requires { Sized head × (length counts.old ≡ 512) }
    ensures { DeliveredIn head counts.old counts.new variable value amount result }
{
    if !has_value(head, variable, value) {
        return 28;
    }
    let sizes = head.sizes;
    let at = spot(sizes, variable - 1, value);
    let count = counts[at];
    if 4294967295 - amount < count {
        return 28;
    }
    counts[at] = count + amount;
    0
}

pub fn no_bin() -> Bin
    ensures { result ≡ no_bin }
{
    Bin {
        variable: 0,
        value: 0,
        count: 0,
    }
}

// The bin of a variable's value, `o` counted from 0.
fn bin_of(sizes: [u8; VARIABLES], values: [u8; VARIABLES], counts: &[u32; BINS], o: usize) -> Bin
    requires { (o < 16) × (spot sizes o (get_or values o 0) < 512) }
    ensures { result ≡ bin_of_place (o + 1, get_or values o 0) (get_or counts.now (spot sizes o (get_or values o 0)) 0) }
{
    let at = spot_of(sizes, values, o);
    Bin {
        variable: o as u8 + 1,
        value: values[o],
        count: counts[at],
    }
}

// A call-off draws an amount from the bin of each value of a solution, or from none: 0, or 28 or 29 and nothing is changed. The first `n` values count.
pub fn call_off_counts(
    head: Head,
    rows: &Rows,
    counts: &mut [u32; BINS],
    values: [u8; VARIABLES],
    amount: u32,
) -> CalledOff
    requires { (sound_state (state_of head rows.now) ≡ true) × (length counts.old ≡ 512) }
    ensures { CountsCalledOff (state_of head rows.now) counts.old counts.new (take head.n values) amount result.number result.low }
{
    let n = head.n;
    let answer = test_parts(head, rows, &values[..n]);
    if !test_agrees(answer) {
        return CalledOff {
            number: 28,
            low: no_bin(),
        };
    }
    let sizes = head.sizes;
    let o = lowest(n, sizes, values, counts, amount);
    if o < n {
        return CalledOff {
            number: 29,
            low: bin_of(sizes, values, counts, o),
        };
    }
    draw(n, sizes, values, counts, amount);
    CalledOff {
        number: 0,
        low: no_bin(),
    }
}
