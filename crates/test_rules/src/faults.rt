// Sound states with one fault: which field is wrong, where, and by what.
use sheet::State;
use test_inputs::families::low_byte;
use test_inputs::random;
use test_oracle::brute::past;
use test_oracle::fields::{ROWS, bit_if, byte_at, has, lower, place, word_at};

// The number of options becomes `number`.
const N: u8 = 0;
// The size of the option `at` becomes `number`.
const SIZE: u8 = 1;
// The leader of the option `at` becomes `number`.
const LEADER: u8 = 2;
// The options `at` and `number`, counted from 0, become stated on both sides.
const PAIR: u8 = 3;
// The list of the option `at` gets `bit`.
const LIST: u8 = 4;
// `bit` of the row at a place changes.
const ROW: u8 = 5;
// `bit` of what the option `at` is stated with changes. The other option does not change with it.
const STATED: u8 = 6;

// There was no place for the fault that was drawn.
const NONE: u8 = 7;

#[derive(Clone, Copy)]
struct Fault {
    field: u8,
    at: usize,
    number: usize,
    bit: u32,
}

fn numbered(field: u8, at: usize, number: usize) -> Fault {
    Fault {
        field,
        at,
        number,
        bit: 0,
    }
}

// With the bit of a value; none at 32 or above.
fn with_bit(field: u8, at: usize, value: usize) -> Fault {
    Fault {
        field,
        at,
        number: 0,
        bit: bit_if(value < 32, value),
    }
}

// A value at or above the size of an option; 32 where there is none.
fn value_past(sizes: [u8; 16], i: usize, seed: &mut u64) -> usize {
    let size = byte_at(sizes, i);
    if (15 < i) | (31 < size) {
        return 32;
    }
    random::from(seed, size, std::num::wrapping_sub_usize(32, size))
}

// Another number of options.
fn other_n(kind: u64, n: usize, seed: &mut u64) -> usize {
    match kind {
        0 => 0,
        1 => 17,
        2 => usize::MAX - random::index(seed, 1000),
        3 => std::num::wrapping_sub_usize(n, 1),
        _ => past(n, 1),
    }
}

// Options that a fault is put at, `low` below `high` unless they are the same, and a number above n.
#[derive(Clone, Copy)]
struct Places {
    i: usize,
    j: usize,
    any: usize,
    low: usize,
    high: usize,
    above: usize,
}

fn drawn_places(n: usize, seed: &mut u64) -> Places {
    let j = random::index(seed, n);
    let any = random::index(seed, 16);
    let low = lower(j, any);
    Places {
        i: random::index(seed, n),
        j,
        any,
        low,
        high: j ^ any ^ low,
        above: past(n, random::from(seed, 1, 200)),
    }
}

// A size that can not be, or in the list of an option a value that it does not have: the one that its size is just too small for, or any.
fn wrong_size(kind: u64, sizes: [u8; 16], i: usize, any: usize, seed: &mut u64) -> Fault {
    match kind {
        5 => numbered(SIZE, i, 0),
        6 => numbered(SIZE, any, (33 + random::byte(seed) % 200) as usize),
        7 => with_bit(LIST, any, byte_at(sizes, any)),
        _ => with_bit(LIST, any, value_past(sizes, any, seed)),
    }
}

// A leader that can not be, as one that the option is not stated with, or an option stated with the first one past n.
fn wrong_leader(kind: u64, n: usize, are_stated: bool, places: Places) -> Fault {
    let i = places.i;
    if (kind == 11) | ((kind == 10) & are_stated) {
        return numbered(NONE, 0, 0);
    }
    match kind {
        8 => numbered(LEADER, i, past(i, 1)),
        9 => numbered(LEADER, places.any, places.above),
        10 => numbered(LEADER, i, past(places.j, 1)),
        _ => numbered(PAIR, i, n),
    }
}

// A row of two options: its lowest value where they are not stated or past n, a value that `high` does not have, or a row of a value that `low` does not
// have.
fn wrong_row(
    kind: u64,
    sizes: [u8; 16],
    are_stated: bool,
    places: Places,
    seed: &mut u64,
) -> Fault {
    let low = places.low;
    let high = places.high;
    if (kind == 14) & !are_stated {
        return with_bit(ROW, place(low, high, 0), 0);
    }
    if kind == 16 {
        let at = place(low, high, random::index(seed, 32));
        return with_bit(ROW, at, value_past(sizes, high, seed));
    }
    let at = place(low, high, value_past(sizes, low, seed));
    with_bit(ROW, at, (random::byte(seed) % 32) as usize)
}

fn of_kind(
    kind: u64,
    n: usize,
    sizes: [u8; 16],
    stated: [u32; 16],
    places: Places,
    seed: &mut u64,
) -> Fault {
    match kind {
        0 | 1 | 2 | 3 | 4 => numbered(N, 0, other_n(kind, n, seed)),
        5 | 6 | 7 | 15 => wrong_size(kind, sizes, places.i, places.any, seed),
        13 | 14 | 16 => {
            let are_stated = has(word_at(stated, places.low), places.high);
            wrong_row(kind, sizes, are_stated, places, seed)
        }
        _ => {
            let are_stated = has(word_at(stated, places.i), places.j);
            wrong_leader(kind, n, are_stated, places)
        }
    }
}

// There is a place for the fault.
fn is_put(fault: Fault) -> bool {
    let at = fault.at;
    let field = fault.field;
    match field {
        PAIR => (at < 16) & (fault.number < 16),
        LIST => (at < 16) & (fault.bit != 0),
        ROW => (at < ROWS) & (fault.bit != 0),
        NONE => false,
        _ => true,
    }
}

// A fault for a state, whatever is drawn.
fn drawn(state: State, seed: &mut u64) -> Fault {
    let n = state.n;
    let sizes = state.sizes;
    let stated = state.stated;
    let places = drawn_places(n, seed);
    let kind = random::below(seed, 17);
    let fault = of_kind(kind, n, sizes, stated, places, seed);
    if is_put(fault) {
        return fault;
    }
    let i = random::index(seed, 16);
    with_bit(STATED, i, (random::byte(seed) % 32) as usize)
}

// With another number of options, or another size or leader of an option.
fn with_number(state: State, field: u8, at: usize, number: usize) -> State {
    let i = at % 16;
    let mut other = state;
    match field {
        N => other.n = number,
        SIZE => other.sizes[i] = low_byte(number),
        _ => other.leaders[i] = low_byte(number),
    }
    other
}

// With two options stated together, or apart where they were stated.
fn with_pair(state: State, at: usize, number: usize) -> State {
    let i = at % 16;
    let k = number % 16;
    let mut other = state;
    other.stated[i] = other.stated[i] ^ bit_if(true, k);
    other.stated[k] = other.stated[k] ^ bit_if(true, i);
    other
}

// With a bit of a list, of a row or of what an option is stated with.
fn with_word(state: State, field: u8, at: usize, bit: u32) -> State {
    let i = at % 16;
    let k = at % ROWS;
    let mut other = state;
    match field {
        LIST => other.domains[i] = other.domains[i] | bit,
        ROW => other.rows[k] = other.rows[k] ^ bit,
        _ => other.stated[i] = other.stated[i] ^ bit,
    }
    other
}

// A sound state with one fault, whatever is drawn.
pub fn damaged(state: State, seed: &mut u64) -> State {
    let fault = drawn(state, seed);
    let field = fault.field;
    match field {
        N | SIZE | LEADER => with_number(state, field, fault.at, fault.number),
        PAIR => with_pair(state, fault.at, fault.number),
        _ => with_word(state, field, fault.at, fault.bit),
    }
}
