// What a line of the list does to what a program keeps of a year, and what is printed for it.
#![tactic(auto)]

ghost use Rattle.std.specs.Prelude.{true, ◌≡◌, ◌-◌, ◌≤◌, ◌<◌, ◌^◌, get_or};
ghost use Rattle.bounded.specs.Bool.{if};
ghost use Rattle.bins_counts.specs.Counts.{spot, plus, changed_at};
ghost use Rattle.state.specs.View.{state_of, sound_state};
ghost use Rattle.text_put.specs.Put.{Put};
ghost use Rattle.year_entries.specs.Year.{is_entry, entry_of, amount_of};
ghost use Rattle.year_act.specs.Answers.{answer_text};
ghost use Rattle.year_act.specs.Kept.{new_entries, Whole, answered_by, counted_if, noted_of, passed_of, ShortInside, ShortNoted, ActedAs};

use bins::Bin;
use bins_counts::{BINS, add_at, plus, spot};
use head::{Head, Rows, VARIABLES};
use scan::Line;
use year_entries::{Answer, Shortage, enter};
use year_text::{put_fault, put_not_in_stock, put_ok, put_too_low};

// What is kept beside the arrays: the number of the next line, how many entries were answered OK, with 28, with 29, and with a fault of their text, and
// the first 29.
#[derive(Clone, Copy)]
pub struct Entries {
    pub line: usize,
    pub ok: u64,
    pub r28: u64,
    pub r29: u64,
    pub text: u64,
    pub first: Shortage,
}

// What is kept after a line, and the place past its text.
#[derive(Clone, Copy)]
pub struct Acted {
    pub entries: Entries,
    pub at: usize,
}

fn is_entry(l: Line) -> bool
    ensures { result ≡ is_entry l }
{
    if l.fault != 0 {
        return true;
    }
    l.kind != 0
}

fn amount(l: Line) -> u32
    ensures { result ≡ amount_of (entry_of l) }
{
    if l.kind == 1 {
        return l.cells[2];
    }
    l.cells[0]
}

fn answered(a: Answer, number: u8) -> bool
    ensures { result ≡ answered_by number a }
{
    if a.fault != 0 {
        return false;
    }
    a.number == number
}

fn counted(x: u64, more: bool) -> u64
    ensures { result ≡ counted_if more x }
{
    if more {
        return plus(x, 1);
    }
    x
}

fn first(e: Entries, a: Answer, asked: u32) -> Shortage
    ensures { result ≡ (noted_of e a asked).first }
{
    if !answered(a, 29) {
        return e.first;
    }
    if e.r29 != 0 {
        return e.first;
    }
    Shortage {
        line: e.line,
        low: a.low,
        asked,
    }
}

// One answer more.
fn noted(e: Entries, a: Answer, asked: u32) -> Entries
    requires { e.line ≤ 4294967296 }
    ensures { result ≡ noted_of e a asked }
{
    Entries {
        line: e.line + 1,
        ok: counted(e.ok, answered(a, 0)),
        r28: counted(e.r28, answered(a, 28)),
        r29: counted(e.r29, answered(a, 29)),
        text: counted(e.text, a.fault != 0),
        first: first(e, a, asked),
    }
}

// A blank line is counted.
fn passed(e: Entries) -> Entries
    ensures { result ≡ passed_of e }
{
    if e.line <= 4294967295 {
        return Entries {
            line: e.line + 1,
            ..e
        };
    }
    e
}

// The line of an answer.
fn put_answer(buffer: &mut [u8], at: usize, quiet: bool, line: usize, a: Answer) -> usize
    ensures { Put buffer.old buffer.new (answer_text quiet line a.fault a.place a.number a.low) at result }
{
    if a.fault != 0 {
        return put_fault(buffer, at, a.fault, line, a.place);
    }
    if a.number == 29 {
        return put_too_low(buffer, at, line, a.low);
    }
    if a.number != 0 {
        return put_not_in_stock(buffer, at, line);
    }
    if quiet {
        return at;
    }
    put_ok(buffer, at, line)
}

// The bin that a 29 names is counted.
fn note_short(sizes: [u8; VARIABLES], shorts: &mut [u64; BINS], a: Answer)
    requires { ShortInside sizes a }
    ensures { ShortNoted sizes a shorts.old shorts.new }
{
    if answered(a, 29) {
        let at = spot(
            sizes,
            usize::from(a.low.variable) - 1,
            usize::from(a.low.value),
        );
        add_at(shorts, at, 1);
    }
}

// A line of the list: what it does to what is kept, and its text.
pub fn act(
    head: Head,
    rows: &Rows,
    counts: &mut [u32; BINS],
    ins: &mut [u64; BINS],
    outs: &mut [u64; BINS],
    shorts: &mut [u64; BINS],
    e: Entries,
    l: Line,
    quiet: bool,
    text: &mut [u8],
    at: usize,
) -> Acted
    requires { (sound_state (state_of head rows.now) ≡ true) × Whole counts.old ins.old outs.old shorts.old }
    ensures { ActedAs (state_of head rows.now) quiet l counts.old counts.new ins.old ins.new outs.old outs.new shorts.old shorts.new e text.old text.new at result }
{
    if !is_entry(l) {
        return Acted {
            entries: passed(e),
            at,
        };
    }
    let line = e.line;
    if 4294967296 < line {
        return Acted { entries: e, at };
    }
    let a = enter(head, rows, counts, ins, outs, line, l);
    note_short(head.sizes, shorts, a);
    let next = put_answer(text, at, quiet, line, a);
    Acted {
        entries: noted(e, a, amount(l)),
        at: next,
    }
}

// What is kept before the first line.
pub fn new_entries() -> Entries
    ensures { result ≡ new_entries }
{
    Entries {
        line: 1,
        ok: 0,
        r28: 0,
        r29: 0,
        text: 0,
        first: Shortage {
            line: 0,
            low: Bin {
                variable: 0,
                value: 0,
                count: 0,
            },
            asked: 0,
        },
    }
}
