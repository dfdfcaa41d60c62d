// 14 options of 16 values, any two of which differ, and two of one value that do not go together.
use state::State;
use std::array;
use test_calls::calls;

// The options that each is stated with: the first 14 with each other, and the last two.
const STATED: [u32; 16] = [
    16382, 16381, 16379, 16375, 16367, 16351, 16319, 16255, 16127, 15871, 15359, 14335, 12287,
    8191, 32768, 16384,
];

// A row of a table by which two options of 16 values differ.
fn other_than(a: usize) -> u32 {
    if 15 < a {
        return 0;
    }
    65535 ^ (1u32 << a)
}

// The rows of the first 14 options: the 91 pairs of these come first.
fn all_differ() -> [u32; 3840] {
    array::from_fn(|at| if at < 2912 { other_than(at % 32) } else { 0 })
}

// The sheet with the last table alone, and then the others.
pub(crate) fn state() -> State {
    let reading = calls::read(
        b"\x01\x00\x16\x10\x10\x10\x10\x10\x10\x10\x10\x10\x10\x10\x10\x10\x10\x10\x01\x01\x01\x0f\x10\x00\x00",
    );
    State {
        stated: STATED,
        rows: all_differ(),
        ..reading.state
    }
}
