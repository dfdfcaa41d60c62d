// Lists of options for the test of orders, most of them with each option once.
use crate::families::low_byte;
use crate::random;

// Numbers, of which the first `length` are given.
#[derive(Clone, Copy)]
pub struct List {
    pub numbers: [u8; 16],
    pub length: usize,
}

fn with_number(numbers: [u8; 16], at: usize, number: u8) -> [u8; 16] {
    let mut after = numbers;
    if at < 16 {
        after[at] = number;
    }
    after
}

fn number_at(numbers: [u8; 16], at: usize) -> u8 {
    if 15 < at {
        return 0;
    }
    numbers[at]
}

fn with_two_exchanged(numbers: [u8; 16], at: usize, other: usize) -> [u8; 16] {
    let first = number_at(numbers, at);
    let second = number_at(numbers, other);
    with_number(with_number(numbers, at, second), other, first)
}

// Each of `n` options once, in any order.
fn shuffled(n: usize, seed: &mut u64) -> [u8; 16] {
    let mut numbers = [0u8; 16];
    for p in 0..n {
        let number = low_byte(std::num::wrapping_add_usize(p, 1));
        let at = random::index(seed, std::num::wrapping_add_usize(p, 1));
        numbers = with_two_exchanged(with_number(numbers, p, number), at, p);
    }
    numbers
}

// A number above `n`.
fn above(n: usize, seed: &mut u64) -> u8 {
    let most = std::num::wrapping_sub_usize(255, n);
    low_byte(std::num::wrapping_add_usize(n, random::from(seed, 1, most)))
}

// The list with 0, a number above `n`, or the number at another place, or the same, in the place of one.
fn with_fault(n: usize, numbers: [u8; 16], seed: &mut u64) -> [u8; 16] {
    let at = random::index(seed, n);
    match random::below(seed, 3) {
        0 => with_number(numbers, at, 0),
        1 => with_number(numbers, at, above(n, seed)),
        _ => {
            let other = random::index(seed, n);
            with_number(numbers, at, number_at(numbers, other))
        }
    }
}

// A list for a state of `n` options: once in six of any length, once in three with a fault where there is one.
pub fn drawn(n: usize, seed: &mut u64) -> List {
    let numbers = shuffled(n, seed);
    match random::below(seed, 6) {
        0 => List {
            numbers,
            length: random::index(seed, 17),
        },
        1 | 2 => List {
            numbers: with_fault(n, numbers, seed),
            length: n,
        },
        _ => List { numbers, length: n },
    }
}
