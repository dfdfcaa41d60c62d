// A fixed stream of numbers, so that every run tries the same inputs.

// Marsaglia's xorshift.
fn draw(seed: &mut u64) -> u64 {
    let s = *seed;
    let a = s ^ (s << 13);
    let b = a ^ (a >> 7);
    let next = b ^ (b << 17);
    *seed = next;
    next >> 16
}

// A number below `n`, or 0 where there is none.
pub fn below(seed: &mut u64, n: u64) -> u64 {
    let drawn = draw(seed);
    if n == 0 {
        return 0;
    }
    drawn % n
}

// An index below `n`, or 0 where there is none.
pub fn index(seed: &mut u64, n: usize) -> usize {
    let drawn = (draw(seed) % 65536) as usize;
    if n == 0 {
        return 0;
    }
    drawn % n
}

// One of the `n` numbers from `least` on.
pub fn from(seed: &mut u64, least: usize, n: usize) -> usize {
    std::num::wrapping_add_usize(least, index(seed, n))
}

// A number from 1 to `most`.
pub fn from_one(seed: &mut u64, most: u8) -> u8 {
    let drawn = byte(seed);
    if most == 0 {
        return 1;
    }
    let low = drawn % most;
    if low < most {
        return low + 1;
    }
    1
}

pub fn byte(seed: &mut u64) -> u8 {
    (draw(seed) % 256) as u8
}

pub fn word(seed: &mut u64) -> u32 {
    (draw(seed) % 4294967296) as u32
}

// Once in `n` draws, on average.
pub fn once_in(seed: &mut u64, n: u64) -> bool {
    below(seed, n) == 0
}
