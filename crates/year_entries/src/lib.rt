// What an entry of a list does to the counts of bins and to the sums of what was delivered to each and called off from it.
#![tactic(auto)]

ghost use Rattle.std.specs.Prelude.{true, List, ◌≡◌, ℕ, ◌+◌, ◌-◌, ◌≤◌, ◌<◌, ltb, length, get_or, take, drop};
ghost use Rattle.bounded.specs.Fold.{every};
ghost use Rattle.bins.specs.Bins.{no_bin};
ghost use Rattle.state.specs.View.{state_of, sound_state};
ghost use Rattle.state_bins.specs.Year.{delivery, call_off};
ghost use Rattle.year_entries.specs.Year.{entry_of};
ghost use Rattle.year_entries.specs.Entered.{Entered, LineEntered};

use bins::Bin;
use bins_counts::{BINS, add_at, add_each, spot};
use folds::{every, table};
use head::{Head, Rows, VARIABLES};
use scan::{CELLS, Line};
use stock::{CalledOff, call_off_counts, deliver_counts, no_bin};

// The answer to an entry: what is wrong with its text, and where; else the number of the call, and the bin that 29 names.
#[derive(Clone, Copy)]
pub struct Answer {
    pub fault: u8,
    pub place: usize,
    pub number: u8,
    pub low: Bin,
}

// The first entry that met a bin too low: its line, the bin, and what was asked.
#[derive(Clone, Copy)]
pub struct Shortage {
    pub line: usize,
    pub low: Bin,
    pub asked: u32,
}

fn fault_answer(fault: u8, place: usize) -> Answer
    ensures { result ≡ record { fault = fault; place = place; number = 0; low = no_bin } }
{
    Answer {
        fault,
        place,
        number: 0,
        low: no_bin(),
    }
}

// The place of a line without a fault is 0.
fn call_answer(number: u8, place: usize, low: Bin) -> Answer
    ensures { result ≡ record { fault = 0; place = place; number = number; low = low } }
{
    Answer {
        fault: 0,
        place,
        number,
        low,
    }
}

// A delivery, with what it brings added to the sum of its bin.
fn deliver(
    head: Head,
    rows: &Rows,
    counts: &mut [u32; BINS],
    ins: &mut [u64; BINS],
    variable: usize,
    value: usize,
    amount: u32,
) -> u8
    requires { (sound_state (state_of head rows.now) ≡ true) × (length counts.old ≡ 512) × (length ins.old ≡ 512) }
    ensures { (outs : List ℕ) → Entered (state_of head rows.now) (delivery variable value amount) counts.old counts.new ins.old ins.new outs outs result no_bin }
{
    let number = deliver_counts(head, counts, variable, value, amount);
    if number == 0 {
        let sizes = head.sizes;
        add_at(ins, spot(sizes, variable - 1, value), amount);
    }
    number
}

// A call-off, with what it takes added to the sum of each bin.
fn call_off(
    head: Head,
    rows: &Rows,
    counts: &mut [u32; BINS],
    outs: &mut [u64; BINS],
    values: [u8; VARIABLES],
    amount: u32,
) -> CalledOff
    requires { (sound_state (state_of head rows.now) ≡ true) × (length counts.old ≡ 512) × (length outs.old ≡ 512) }
    ensures { (ins : List ℕ) → Entered (state_of head rows.now) (call_off (take head.n values) amount) counts.old counts.new ins ins outs.old outs.new result.number result.low }
{
    let drawn = call_off_counts(head, rows, counts, values, amount);
    if drawn.number == 0 {
        let sizes = head.sizes;
        add_each(head.n, sizes, values, outs, amount);
    }
    drawn
}

// Each value of the line is below its size.
fn values_below(n: usize, sizes: [u8; VARIABLES], cells: [u32; CELLS]) -> bool
    requires { n ≤ 16 }
    ensures { result ≡ every n (λ (o : ℕ). ltb (get_or cells (o + 1) 0) (get_or sizes o 0)) }
{
    every(n, |o| cells[o + 1] < u32::from(sizes[o]))
}

// The values as bytes.
fn value_bytes(n: usize, cells: [u32; CELLS]) -> [u8; VARIABLES]
    requires { (n ≤ 16) × ((o : ℕ) → o < n → get_or cells (o + 1) 0 < 256) }
    ensures { (o : ℕ) → o < n → get_or result o 0 ≡ get_or cells (o + 1) 0 }
{
    table(|o| if o < n { cells[o + 1] as u8 } else { 0 })
}

// How many values the line has.
fn value_count(count: usize, cells: [u32; CELLS]) -> usize
    ensures { result ≡ length (take (count - 1) (drop 1 cells)) }
{
    if count < 1 {
        return 0;
    }
    if 17 < count {
        return 16;
    }
    count - 1
}

// A call-off as it stands on a line: 28 at once for another number of values than n, or for a value that no size has.
fn call_off_line(
    head: Head,
    rows: &Rows,
    counts: &mut [u32; BINS],
    outs: &mut [u64; BINS],
    count: usize,
    cells: [u32; CELLS],
) -> CalledOff
    requires { (sound_state (state_of head rows.now) ≡ true) × (length counts.old ≡ 512) × (length outs.old ≡ 512) }
    ensures { (ins : List ℕ) → Entered (state_of head rows.now) (call_off (take (count - 1) (drop 1 cells)) (get_or cells 0 0)) counts.old counts.new ins ins outs.old outs.new result.number result.low }
{
    let n = head.n;
    if value_count(count, cells) != n {
        return CalledOff {
            number: 28,
            low: no_bin(),
        };
    }
    let sizes = head.sizes;
    if !values_below(n, sizes, cells) {
        return CalledOff {
            number: 28,
            low: no_bin(),
        };
    }
    let values = value_bytes(n, cells);
    call_off(head, rows, counts, outs, values, cells[0])
}

// An entry of the list, on the line of this number, against the counts: what is wrong with its text, or the number of its call.
pub fn enter(
    head: Head,
    rows: &Rows,
    counts: &mut [u32; BINS],
    ins: &mut [u64; BINS],
    outs: &mut [u64; BINS],
    line: usize,
    l: Line,
) -> Answer
    requires { (sound_state (state_of head rows.now) ≡ true) × (length counts.old ≡ 512) × (length ins.old ≡ 512) × (length outs.old ≡ 512) }
    ensures { LineEntered (state_of head rows.now) line l counts.old counts.new ins.old ins.new outs.old outs.new result }
{
    if 4294967295 < line {
        return fault_answer(108, 1);
    }
    if l.fault != 0 {
        return fault_answer(l.fault, l.place);
    }
    let cells = l.cells;
    if l.kind == 1 {
        let number = deliver(
            head,
            rows,
            counts,
            ins,
            cells[0] as usize,
            cells[1] as usize,
            cells[2],
        );
        return call_answer(number, l.place, no_bin());
    }
    let drawn = call_off_line(head, rows, counts, outs, l.count, cells);
    call_answer(drawn.number, l.place, drawn.low)
}
