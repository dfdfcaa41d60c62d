// Whole states: compared, and their live options.
use state::State;
use test_oracle::brute::past;
use test_oracle::fields;
use test_oracle::fields::wide;

// The two states are the same in every field.
pub fn same(a: State, b: State) -> bool {
    (a.n == b.n)
        & (a.sizes == b.sizes)
        & (a.leaders == b.leaders)
        & (a.domains == b.domains)
        & (a.stated == b.stated)
        & (a.rows == b.rows)
}

// The state that a refused reading hands back.
pub fn zero() -> State {
    State {
        n: 0,
        sizes: [0; 16],
        domains: [0; 16],
        leaders: [0; 16],
        stated: [0; 16],
        rows: [0; 3840],
    }
}

// The live options, as bits.
pub fn free(state: State) -> u32 {
    let leaders = state.leaders;
    fields::free(state.n, leaders)
}

// As many steps were taken as live options went.
pub fn is_counted(before: State, after: State, steps: usize) -> bool {
    let left = wide(u32::count_ones(free(after)));
    wide(u32::count_ones(free(before))) == past(left, steps)
}
