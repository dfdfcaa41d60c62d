// Orders of options, counted from 1: which lists are one, and the lists of a few numbers one after the other.
use crate::brute::divided;

// The options by their numbers.
pub fn numbers() -> [u8; 16] {
    [1, 2, 3, 4, 5, 6, 7, 8, 9, 10, 11, 12, 13, 14, 15, 16]
}

// How often a number stands in a list.
fn times_in(list: &[u8], number: usize) -> usize {
    list.iter().filter(|b| usize::from(**b) == number).count()
}

// The list holds "each option exactly once and nothing else".
pub fn is_order(list: &[u8], n: usize) -> bool {
    list.len() == n && (1..=n).all(|number| times_in(list, number) == 1)
}

// The list number `k` of `n` numbers from 1 to `n`: the lower the number, the earlier by the first number that differs. Zero past n.
pub fn numbered(n: usize, k: usize) -> [u8; 16] {
    let mut list = [0u8; 16];
    let mut rest = k;
    for last in (0..n).rev() {
        let next = divided(rest, n);
        if last < 16 {
            list[last] = std::num::wrapping_add_u8(next.value, 1);
        }
        rest = next.rest;
    }
    list
}

// One more than the greatest number of such a list of five.
pub const LISTS: usize = 3125;
