// The lines of the end of a year, from the arrays that a program keeps; and the refusal of the bins' text. A text is put as far as it has room.
#![tactic(auto)]

ghost use Rattle.std.specs.Prelude.{◌≡◌, ℕ, suc, ◌≤◌, ◌<◌, length, get_or};
ghost use Rattle.bins.specs.Bins.{Place};
ghost use Rattle.bins_counts.specs.Counts.{plus};
ghost use Rattle.stock.specs.Stock.{Sized};
ghost use Rattle.text_put.specs.Put.{Put, each};
ghost use Rattle.year_end.specs.End.{each_bin, first_text, short_text, bins_refusal};
ghost use Rattle.year_end.specs.Arrays.{bin_of, short_of_array, counts_by, rest_by};

use bins_counts::{BINS, spot};
use cause::Cause;
use head::Head;
use text_put::put_titled;
use year_entries::Shortage;
use year_text::{
    Balance, Counted, put_bin, put_end, put_entries, put_fault_end, put_first, put_phrase_end,
    put_short,
};

fn long(x: u32) -> usize
    ensures { result ≡ x }
{
    x as usize
}

fn size(x: u64) -> usize
    ensures { result ≡ x }
{
    x as usize
}

// A sum that stays at its highest number.
fn sum(x: u64, more: u64) -> u64
    ensures { result ≡ plus more x }
{
    x.saturating_add(more)
}

// The line of one bin, of the variable after `o` others.
fn put_one(
    buffer: &mut [u8],
    at: usize,
    head: Head,
    o: usize,
    v: usize,
    opened: &[u32; BINS],
    ins: &[u64; BINS],
    outs: &[u64; BINS],
    counts: &[u32; BINS],
) -> usize
    requires { Sized head × (o < head.n) × (v < get_or head.sizes o 0) }
    ensures { Put buffer.old buffer.new (bin_of head.sizes opened.now ins.now outs.now counts.now (suc o, v)) at result }
{
    let sizes = head.sizes;
    let i = spot(sizes, o, v);
    let balance = Balance {
        opening: long(opened[i]),
        brought: size(ins[i]),
        taken: size(outs[i]),
        hand: long(counts[i]),
    };
    put_bin(buffer, at, o + 1, v, balance)
}

// The lines of one variable's bins.
fn put_variable(
    buffer: &mut [u8],
    at: usize,
    head: Head,
    o: usize,
    opened: &[u32; BINS],
    ins: &[u64; BINS],
    outs: &[u64; BINS],
    counts: &[u32; BINS],
) -> usize
    requires { Sized head × (o < head.n) }
    ensures { Put buffer.old buffer.new (each (λ (v : ℕ). bin_of head.sizes opened.now ins.now outs.now counts.now (suc o, v)) (get_or head.sizes o 0)) at result }
{
    let sizes = head.sizes;
    let most = usize::from(sizes[o]);
    let mut next = at;
    for v in 0..most {
        next = put_one(buffer, next, head, o, v, opened, ins, outs, counts);
    }
    next
}

// The lines of all bins.
pub fn put_bins(
    buffer: &mut [u8],
    at: usize,
    head: Head,
    opened: &[u32; BINS],
    ins: &[u64; BINS],
    outs: &[u64; BINS],
    counts: &[u32; BINS],
) -> usize
    requires { Sized head }
    ensures { Put buffer.old buffer.new (each_bin head.n head.sizes (bin_of head.sizes opened.now ins.now outs.now counts.now)) at result }
{
    let n = head.n;
    let mut next = at;
    for o in 0..n {
        next = put_variable(buffer, next, head, o, opened, ins, outs, counts);
    }
    next
}

// The line of one bin that a 29 named.
fn put_short_one(
    buffer: &mut [u8],
    at: usize,
    head: Head,
    o: usize,
    v: usize,
    shorts: &[u64; BINS],
) -> usize
    requires { Sized head × (o < head.n) × (v < get_or head.sizes o 0) }
    ensures { Put buffer.old buffer.new (short_of_array head.sizes shorts.now (suc o, v)) at result }
{
    let sizes = head.sizes;
    let i = spot(sizes, o, v);
    let entries = size(shorts[i]);
    if entries == 0 {
        return at;
    }
    put_short(buffer, at, o + 1, v, entries)
}

fn put_short_variable(
    buffer: &mut [u8],
    at: usize,
    head: Head,
    o: usize,
    shorts: &[u64; BINS],
) -> usize
    requires { Sized head × (o < head.n) }
    ensures { Put buffer.old buffer.new (each (λ (v : ℕ). short_of_array head.sizes shorts.now (suc o, v)) (get_or head.sizes o 0)) at result }
{
    let sizes = head.sizes;
    let most = usize::from(sizes[o]);
    let mut next = at;
    for v in 0..most {
        next = put_short_one(buffer, next, head, o, v, shorts);
    }
    next
}

fn put_shorts(buffer: &mut [u8], at: usize, head: Head, shorts: &[u64; BINS]) -> usize
    requires { Sized head }
    ensures { Put buffer.old buffer.new (each_bin head.n head.sizes (short_of_array head.sizes shorts.now)) at result }
{
    let n = head.n;
    let mut next = at;
    for o in 0..n {
        next = put_short_variable(buffer, next, head, o, shorts);
    }
    next
}

// The first shortage, if there is one.
fn put_first_text(buffer: &mut [u8], at: usize, r29: u64, first: Shortage) -> usize
    ensures { Put buffer.old buffer.new (first_text r29 first) at result }
{
    if r29 == 0 {
        return at;
    }
    let low = first.low;
    put_first(buffer, at, first.line, low, first.asked)
}

// How many entries there were.
fn put_counts(buffer: &mut [u8], at: usize, ok: u64, r28: u64, r29: u64, text: u64) -> usize
    ensures { Put buffer.old buffer.new (counts_by ok r28 r29 text) at result }
{
    let refused = sum(r28, sum(r29, text));
    let all = sum(ok, refused);
    let counted = Counted {
        ok: size(ok),
        r28: size(r28),
        r29: size(r29),
        text: size(text),
        all: size(all),
    };
    let next = put_entries(buffer, at, counted);
    put_end(buffer, next, size(refused))
}

// All that stands behind the lines of the bins.
pub fn put_rest(
    buffer: &mut [u8],
    at: usize,
    head: Head,
    shorts: &[u64; BINS],
    first: Shortage,
    ok: u64,
    r28: u64,
    r29: u64,
    text: u64,
) -> usize
    requires { Sized head }
    ensures { Put buffer.old buffer.new (rest_by head.n head.sizes shorts.now first ok r28 r29 text) at result }
{
    let firsts = put_first_text(buffer, at, r29, first);
    let short = put_shorts(buffer, firsts, head, shorts);
    put_counts(buffer, short, ok, r28, r29, text)
}

// The refusal of the bins' text.
pub fn put_bins_refusal(
    buffer: &mut [u8],
    at: usize,
    number: u8,
    line: usize,
    place: usize,
) -> usize
    ensures { Put buffer.old buffer.new (bins_refusal number line place) at result }
{
    if number == 27 {
        let numbered = put_titled(buffer, at, b"REFUSED ", 27);
        let lined = put_titled(buffer, numbered, b" BINS LINE ", line);
        return put_phrase_end(buffer, lined, Cause::BinRecords);
    }
    let numbered = put_titled(buffer, at, b"REFUSED ", number as usize);
    let lined = put_titled(buffer, numbered, b" BINS LINE ", line);
    let placed = put_titled(buffer, lined, b" AT ", place);
    put_fault_end(buffer, placed, number)
}
