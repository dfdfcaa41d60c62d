// The tester, the completer, the verdict and the search against the builds of the sheet together with the tables added, read off its bytes and these alone.
use state::State;
use test_calls::calls::{BUILT, NO, OPEN, YES};
use test_calls::tally::Tally;
use test_calls::{calls, draws, states, tally};
use test_inputs::random;
use test_oracle::counts::Counts;
use test_oracle::tables::{Tables, is_build};
use test_oracle::{brute, choices, counts, verdicts};

// The tester says yes exactly to the builds.
fn check_test(bytes: &[u8], tables: &Tables, state: State, tuple: [u8; 16], tally: Tally) -> Tally {
    let is_build = is_build(bytes, tables, tuple);
    let answer = calls::test(state, tuple, state.n);
    let is_right = (is_build & (answer == YES)) | (!is_build & (answer == NO));
    tally::expect(tally, tally::TESTS, is_right)
}

// An allowed choice becomes a build that keeps it.
fn check_completed(
    bytes: &[u8],
    tables: &Tables,
    state: State,
    buffer: [u8; 16],
    tally: Tally,
) -> Tally {
    let done = calls::complete(state, buffer, state.n);
    let after = done.buffer;
    let is_kept = choices::are_kept(state.n, states::free(state), buffer, after);
    let is_right = (done.number == 0) & is_kept & is_build(bytes, tables, after);
    tally::expect(tally, tally::COMPLETIONS, is_right)
}

// Refused with the number, and the buffer as it was.
fn check_left(state: State, buffer: [u8; 16], length: usize, number: u8, tally: Tally) -> Tally {
    let is_left = calls::is_completed(state, buffer, length, number, buffer);
    tally::expect(tally, tally::COMPLETIONS_REFUSED, is_left)
}

// The completer, with any bytes at the followers: a choice that is allowed becomes a build, any other is refused.
fn check_choice(
    bytes: &[u8],
    tables: &Tables,
    state: State,
    tuple: [u8; 16],
    tally: Tally,
) -> Tally {
    let free = states::free(state);
    let domains = state.domains;
    let stated = state.stated;
    let mut seed = tally.seed;
    let buffer = draws::with_garbage(free, tuple, &mut seed);
    let number = choices::refusal(free, domains, stated, &state.rows, buffer);
    let drawn = tally::with_seed(tally, seed);
    if number == 0 {
        return check_completed(bytes, tables, state, buffer, drawn);
    }
    check_left(state, buffer, state.n, number, drawn)
}

// One tuple. Of those that agree at the live options, one is completed.
fn check_tuple(
    bytes: &[u8],
    tables: &Tables,
    state: State,
    tuple: [u8; 16],
    tally: Tally,
) -> Tally {
    let tested = check_test(bytes, tables, state, tuple, tally);
    if choices::is_choice(states::free(state), tuple) {
        return check_choice(bytes, tables, state, tuple, tested);
    }
    tested
}

// Every tuple of a sheet that has at most 1,024.
fn check_tuples(bytes: &[u8], tables: &Tables, state: State, tally: Tally) -> Tally {
    let mut after = tally;
    for k in 0..1024 {
        let tuple = brute::numbered(bytes, k);
        if tuple.rest != 0 {
            return after;
        }
        let values = tuple.values;
        after = check_tuple(bytes, tables, state, values, after);
    }
    after
}

// The verdict. It is counted how often a build is shown with two or more live options.
pub fn check_verdict(bytes: &[u8], tables: &Tables, state: State, tally: Tally) -> Tally {
    let free = states::free(state);
    let domains = state.domains;
    let stated = state.stated;
    let expected = verdicts::expected(free, domains, stated);
    let answer = calls::verdict(state);
    let solution = answer.solution;
    let is_shown = verdicts::is_shown(bytes, tables, free, domains, expected, solution);
    let is_right = (answer.verdict == expected) & is_shown;
    let is_apart = (expected == BUILT) & (1 < u32::count_ones(free));
    let judged = tally::expect(tally, tally::VERDICTS, is_right);
    tally::add(judged, tally::APART, is_apart as u64)
}

// The search always settles it: it finds the first build of the sheet, or says that there is none.
fn check_search(state: State, counts: Counts, tally: Tally) -> Tally {
    let answer = calls::search(state);
    let is_first = answer.solution == counts.first;
    let is_settled = verdicts::is_settled(answer.verdict, counts.builds);
    tally::expect(tally, tally::SEARCHES, is_first & is_settled)
}

// The search of a sheet that has too many tuples to try all.
pub fn check_large_search(bytes: &[u8], tables: &Tables, state: State, tally: Tally) -> Tally {
    let free = states::free(state);
    let domains = state.domains;
    let stated = state.stated;
    let answer = calls::search(state);
    let solution = answer.solution;
    let verdict = answer.verdict;
    let is_right = verdicts::is_sought(bytes, tables, free, domains, stated, verdict, solution);
    tally::expect(tally, tally::SEARCHES, is_right)
}

// There are as many allowed choices as builds, and the verdict is NONE only where there is no build, BUILT only where there is one.
fn check_counts(bytes: &[u8], tables: &Tables, state: State, tally: Tally) -> Tally {
    let free = states::free(state);
    let domains = state.domains;
    let stated = state.stated;
    let counts = counts::counted(bytes, tables, free, domains, stated, &state.rows);
    let verdict = verdicts::expected(free, domains, stated);
    let is_borne_out = (verdict == OPEN) | verdicts::is_settled(verdict, counts.builds);
    let mut after = tally::expect(tally, tally::COUNTED, counts.builds == counts.choices);
    after = tally::add(after, tally::BUILDS, counts.builds);
    after = tally::hold(after, is_borne_out);
    check_search(state, counts, after)
}

// All that is claimed of the builds of a sheet and the tables added, for the state that a list of calls came to.
pub fn check_all(bytes: &[u8], tables: &Tables, state: State, tally: Tally) -> Tally {
    let tried = check_tuples(bytes, tables, state, tally);
    let counted = check_counts(bytes, tables, state, tried);
    check_verdict(bytes, tables, state, counted)
}

// The tester, with a value at or above its size, and with a buffer of another length.
fn check_refused_tests(state: State, wrong: [u8; 16], length: usize, tally: Tally) -> Tally {
    let answer = calls::test(state, wrong, state.n);
    let refused = tally::expect(tally, tally::TESTS_REFUSED, answer == 15);
    if length == state.n {
        return refused;
    }
    let other = calls::test(state, wrong, length);
    tally::expect(refused, tally::TESTS_REFUSED, other == 14)
}

// The completer, with a live value that no list has, and with a buffer of another length: refused, with the buffer as it was.
fn check_refused_completions(state: State, wrong: [u8; 16], length: usize, tally: Tally) -> Tally {
    let refused = check_left(state, wrong, state.n, 15, tally);
    if length == state.n {
        return refused;
    }
    check_left(state, wrong, length, 14, refused)
}

// The tester and the completer, refused.
pub fn check_refusals(bytes: &[u8], state: State, tally: Tally) -> Tally {
    let mut seed = tally.seed;
    let above = draws::drawn_above(bytes, &mut seed);
    let tested = check_refused_tests(state, above, random::index(&mut seed, 17), tally);
    let unlisted = draws::drawn_unlisted(bytes, states::free(state), &mut seed);
    let length = random::index(&mut seed, 17);
    check_refused_completions(state, unlisted, length, tally::with_seed(tested, seed))
}

fn check_drawn(bytes: &[u8], tables: &Tables, state: State, tally: Tally) -> Tally {
    let mut seed = tally.seed;
    let tuple = draws::drawn(bytes, &mut seed);
    let drawn = tally::with_seed(tally, seed);
    let tested = check_test(bytes, tables, state, tuple, drawn);
    check_choice(bytes, tables, state, tuple, tested)
}

// Some tuples of a sheet that has too many to try all.
pub fn check_some(
    bytes: &[u8],
    tables: &Tables,
    state: State,
    times: usize,
    tally: Tally,
) -> Tally {
    let mut after = tally;
    for _ in 0..times {
        after = check_drawn(bytes, tables, state, after);
    }
    after
}
