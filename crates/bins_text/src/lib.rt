// The text of the bins, handed over in any parts: a line `option,value,count` for each bin, in their order. The counts go into a lent array.
#![tactic(auto)]

ghost use Rattle.std.specs.Prelude.{◌≡◌, List, ℕ, ◌<◌};
ghost use Rattle.bins_text.specs.Machine.{place_index, in_order, bins_count, refused_at, passed, taken, read_case, start_reading, judged_end, at_end};
ghost use Rattle.bins_text.specs.Fed.{read, at, program};
ghost use Rattle.stream.specs.Bytes.{start, next, after, last_state};

use bins_counts::{BINS, spot};
use scan::{Line, Scan, finish, opening, step, up};

// How far the text was read.
#[derive(Clone, Copy)]
pub struct Reading {
    // 0, or why it is refused: 101 to 106, or 27; then `line` and `place` say where. A 27 has no place.
    pub number: u8,
    // The line that goes on, counted from 1.
    pub line: usize,
    pub place: usize,
    // How many bins were read.
    pub count: usize,
}

// A text in part.
#[derive(Clone, Copy)]
pub struct BinsRun {
    pub scan: Scan,
    // A byte of the line was seen.
    pub begun: bool,
    pub reading: Reading,
}

// Where the count of a value stands; 512 where there is no such value.
fn place_index(n: usize, sizes: [u8; 16], variable: usize, value: usize) -> usize
    requires { value < 4294967296 }
    ensures { result ≡ place_index n sizes variable value }
{
    if variable == 0 {
        return 512;
    }
    let o = variable - 1;
    if n <= o {
        return 512;
    }
    if 16 <= o {
        return 512;
    }
    if usize::from(sizes[o]) <= value {
        return 512;
    }
    spot(sizes, o, value)
}

// The value's bin comes next.
fn in_order(n: usize, sizes: [u8; 16], count: usize, variable: u32, value: u32) -> bool
    ensures { result ≡ in_order n sizes count variable value }
{
    if count < BINS {
        return place_index(n, sizes, variable as usize, value as usize) == count;
    }
    false
}

// How many bins there are.
fn bins_count(n: usize, sizes: [u8; 16]) -> usize
    ensures { result ≡ bins_count n sizes }
{
    if n < 16 {
        return spot(sizes, n, 0);
    }
    spot(sizes, 16, 0)
}

fn refused_at(r: Reading, number: u8, place: usize) -> Reading
    ensures { result ≡ refused_at number place r }
{
    Reading { number, place, ..r }
}

// A line without a bin.
fn passed(r: Reading) -> Reading
    ensures { result ≡ passed r }
{
    Reading {
        line: up(r.line),
        ..r
    }
}

// Stores the next bin's count.
fn take(r: Reading, count: u32, counts: &mut [u32; BINS]) -> Reading
    requires { r.count < 512 }
    ensures { read result counts.new ≡ taken count (read r counts.old) }
{
    let at = r.count;
    counts[at] = count;
    Reading {
        line: up(r.line),
        count: at + 1,
        ..r
    }
}

// What a finished line does.
fn act(n: usize, sizes: [u8; 16], r: Reading, line: Line, counts: &mut [u32; BINS]) -> Reading
    ensures { read result counts.new ≡ read_case n sizes (read r counts.old) line }
{
    if r.number != 0 {
        return r;
    }
    if line.fault != 0 {
        return refused_at(r, line.fault, line.place);
    }
    if line.count == 0 {
        return passed(r);
    }
    let cells = line.cells;
    if in_order(n, sizes, r.count, cells[0], cells[1]) {
        return take(r, cells[2], counts);
    }
    refused_at(r, 27, 0)
}

// Nothing was read.
pub fn start() -> BinsRun
    ensures { (n : ℕ) (sizes counts : List ℕ) → at result counts ≡ start (program n sizes) (start_reading counts) }
{
    let scan = opening(true);
    let reading = Reading {
        number: 0,
        line: 1,
        place: 0,
        count: 0,
    };
    BinsRun {
        scan,
        begun: false,
        reading,
    }
}

// A byte of the text.
fn take_byte(n: usize, sizes: [u8; 16], run: BinsRun, byte: u8, counts: &mut [u32; BINS]) -> BinsRun
    ensures { at result counts.new ≡ next (program n sizes) (at run counts.old) byte }
{
    let seen = run.scan;
    let before = run.reading;
    if byte != 10 {
        let scan = step(seen, byte);
        return BinsRun {
            scan,
            begun: true,
            reading: before,
        };
    }
    let reading = act(n, sizes, before, finish(seen), counts);
    let scan = opening(true);
    BinsRun {
        scan,
        begun: false,
        reading,
    }
}

// Takes these bytes.
pub fn feed(
    n: usize,
    sizes: [u8; 16],
    run: BinsRun,
    bytes: &[u8],
    counts: &mut [u32; BINS],
) -> BinsRun
    ensures { at result counts.new ≡ after (program n sizes) (at run counts.old) bytes.now }
{
    let mut now = run;
    for &byte in bytes {
        now = take_byte(n, sizes, now, byte, counts);
    }
    now
}

fn judged_end(n: usize, sizes: [u8; 16], r: Reading) -> Reading
    ensures { result ≡ judged_end n sizes r }
{
    if r.number != 0 {
        return r;
    }
    if r.count < bins_count(n, sizes) {
        return refused_at(r, 27, 0);
    }
    r
}

// Where the text ends.
pub fn last(n: usize, sizes: [u8; 16], run: BinsRun, counts: &mut [u32; BINS]) -> Reading
    ensures { read result counts.new ≡ at_end n sizes (last_state (program n sizes) (at run counts.old)) }
{
    let before = run.reading;
    if run.begun {
        let seen = run.scan;
        let after = act(n, sizes, before, finish(seen), counts);
        return judged_end(n, sizes, after);
    }
    judged_end(n, sizes, before)
}
