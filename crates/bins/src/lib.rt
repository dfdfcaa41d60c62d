// A record of stock, and what one entry, a delivery or a call-off, finds in it and makes of it.
#![tactic(auto)]

ghost use Rattle.std.specs.Prelude.{◌≡◌, ◌<◌, get_or};
ghost use Rattle.bins.specs.Bins.{is_of, of_solution};
ghost use Rattle.bins.specs.Plans.{named, is_next, next_variable, next_value, too_high, too_low, looked_of, settled_of, count_of, moved_of};

// A value of a variable, which counts from 1, and how many are on hand.
#[repr(C)]
#[derive(Clone, Copy)]
pub struct Bin {
    pub variable: u8,
    pub value: u8,
    pub count: u32,
}

// What one entry asks, as plain data: what is refused whatever the bins hold, the variables' sizes, and either the one bin of a delivery or the values of the
// solution that is called off.
#[derive(Clone, Copy)]
pub struct Plan {
    pub refusal: u8,
    pub n: usize,
    pub sizes: [u8; 16],
    pub adds: bool,
    pub variable: usize,
    pub value: usize,
    pub values: [u8; 16],
    pub amount: u32,
}

// How far the bins have been looked at: the variable, counted from 0, and the value that come next, and what was found.
#[derive(Clone, Copy)]
pub struct Seen {
    pub variable: usize,
    pub value: usize,
    pub exact: bool,
    pub high: bool,
    pub low: bool,
}

// A byte of sixteen, and 0 past them.
fn byte(bytes: [u8; 16], i: usize) -> u8
    ensures { result ≡ get_or bytes i 0 }
{
    if i < 16 {
        return bytes[i];
    }
    0
}

fn size(p: Plan, o: usize) -> usize
    ensures { result ≡ get_or p.sizes o 0 }
{
    let sizes = p.sizes;
    usize::from(byte(sizes, o))
}

// The bin of one value.
fn is_of(variable: usize, value: usize, b: Bin) -> bool
    ensures { result ≡ is_of variable value b }
{
    (usize::from(b.variable) == variable) & (usize::from(b.value) == value)
}

// The bin of a value of a solution.
fn of_solution(values: [u8; 16], b: Bin) -> bool
    ensures { result ≡ of_solution values b }
{
    let variable = usize::from(b.variable);
    if variable < 1 {
        return false;
    }
    byte(values, variable - 1) == b.value
}

// The bin is one that the entry draws from or adds to.
fn is_named(p: Plan, b: Bin) -> bool
    ensures { result ≡ named p b }
{
    if p.adds {
        return is_of(p.variable, p.value, b);
    }
    let values = p.values;
    of_solution(values, b)
}

// The record is that of the value that comes next.
fn is_next(p: Plan, s: Seen, b: Bin) -> bool
    ensures { result ≡ is_next p s.variable s.value b }
{
    let n = size(p, s.variable);
    if s.value < n {
        if s.variable < 16 {
            return is_of(s.variable + 1, s.value, b);
        }
    }
    false
}

fn next_variable(p: Plan, o: usize, v: usize) -> usize
    requires { v < get_or p.sizes o 0 }
    ensures { result ≡ next_variable p o v }
{
    let n = size(p, o);
    if v + 1 < n {
        return o;
    }
    o + 1
}

fn next_value(p: Plan, o: usize, v: usize) -> usize
    requires { v < get_or p.sizes o 0 }
    ensures { result ≡ next_value p o v }
{
    let n = size(p, o);
    if v + 1 < n {
        return v + 1;
    }
    0
}

fn too_high(p: Plan, b: Bin) -> bool
    ensures { result ≡ too_high p b }
{
    if is_named(p, b) {
        if p.adds {
            return 4294967295 - p.amount < b.count;
        }
    }
    false
}

fn too_low(p: Plan, b: Bin) -> bool
    ensures { result ≡ too_low p b }
{
    if is_named(p, b) {
        if p.adds {
            return false;
        }
        return b.count < p.amount;
    }
    false
}

// One record is looked at.
pub fn looked(p: Plan, s: Seen, b: Bin) -> Seen
    ensures { result ≡ looked_of p s b }
{
    if is_next(p, s, b) {
        let high = too_high(p, b);
        let low = too_low(p, b);
        Seen {
            variable: next_variable(p, s.variable, s.value),
            value: next_value(p, s.variable, s.value),
            high: s.high | high,
            low: s.low | low,
            ..s
        }
    } else {
        Seen { exact: false, ..s }
    }
}

// The number that refuses, or 0, once every record has been looked at.
pub fn settled(p: Plan, s: Seen) -> u8
    ensures { result ≡ settled_of p s }
{
    if p.refusal == 9 {
        return 9;
    }
    if s.exact {
        if s.variable < p.n {
            return 27;
        }
        if p.refusal != 0 {
            return 28;
        }
        if s.high {
            return 28;
        }
        if s.low {
            return 29;
        }
        return 0;
    }
    27
}

// The count of a bin that the entry names.
fn counted(p: Plan, c: u32) -> u32
    ensures { result ≡ count_of p c }
{
    if p.adds {
        if c <= 4294967295 - p.amount {
            return c + p.amount;
        }
        return c;
    }
    if p.amount <= c {
        return c - p.amount;
    }
    c
}

// One bin after an accepted entry.
pub fn moved(p: Plan, b: Bin) -> Bin
    ensures { result ≡ moved_of p b }
{
    if is_named(p, b) {
        return Bin {
            count: counted(p, b.count),
            ..b
        };
    }
    b
}
