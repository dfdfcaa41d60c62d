// Tuples drawn at random: as the tester and the completer take them, or to be refused.
use std::array;
use test_inputs::random;
use test_oracle::brute;
use test_oracle::fields::{has, wide};

// A tuple with each value below its size.
pub fn drawn(bytes: &[u8], seed: &mut u64) -> [u8; 16] {
    let n = brute::options(bytes);
    array::from_fn(|i| {
        if i < n {
            (random::index(seed, brute::size(bytes, i)) % 256) as u8
        } else {
            0
        }
    })
}

fn with_value(tuple: [u8; 16], i: usize, value: u8) -> [u8; 16] {
    let mut values = tuple;
    if i < 16 {
        values[i] = value;
    }
    values
}

// A value at or above the size, often just above.
fn above(size: usize, seed: &mut u64) -> usize {
    if random::once_in(seed, 8) {
        return 255;
    }
    brute::past(size, random::index(seed, 3))
}

// A tuple with a value at or above its size.
pub fn drawn_above(bytes: &[u8], seed: &mut u64) -> [u8; 16] {
    let tuple = drawn(bytes, seed);
    let i = random::index(seed, brute::options(bytes));
    let value = above(brute::size(bytes, i), seed);
    with_value(tuple, i, (value % 256) as u8)
}

// A tuple with a live value that no list has, at the lowest of the live options.
pub fn drawn_unlisted(bytes: &[u8], free: u32, seed: &mut u64) -> [u8; 16] {
    let i = wide(u32::trailing_zeros(free));
    with_value(drawn(bytes, seed), i, 32 + random::byte(seed) % 224)
}

// The tuple with any bytes at the followers and past n.
pub fn with_garbage(free: u32, tuple: [u8; 16], seed: &mut u64) -> [u8; 16] {
    let mut made = tuple;
    for (i, byte) in made.iter_mut().enumerate() {
        let garbage = random::byte(seed);
        if !has(free, i) {
            *byte = garbage;
        }
    }
    made
}
