// Parts of a line of examples: a part is a byte that counts its bytes, and these.
use test_oracle::brute::{byte, past};

// The place after the part that begins at `at`.
pub fn end_of(list: &[u8], at: usize) -> usize {
    past(at, past(1, byte(list, at) as usize))
}

// The bytes of the part that begins at `at`, none where the list ends before it does.
pub fn part(list: &[u8], at: usize) -> &[u8] {
    let end = end_of(list, at);
    if end <= at {
        return &list[..0];
    }
    if list.len() < end {
        return &list[..0];
    }
    &list[at + 1..end]
}
