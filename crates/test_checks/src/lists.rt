// Lists of calls: follow steps with any two option numbers, full reductions, tables added for any two options, and trimmings.
use state::State;
use test_calls::calls::{Stepping, is_refused};
use test_calls::tally::Tally;
use test_calls::{calls, states, tally};
use test_inputs::tables::{Table, first_words};
use test_inputs::{random, tables};
use test_oracle::tables::{Tables, none, with};
use test_rules::added::Sides;
use test_rules::{added, followers, live, refusals, rules, unions};

// The state handed back last, how many steps were taken, the tables that calls not refused added, and what was counted.
#[derive(Clone, Copy)]
pub struct Run {
    pub state: State,
    pub steps: usize,
    pub tables: Tables,
    pub added: usize,
    pub tally: Tally,
}

// Before the first call.
pub fn start(state: State, tally: Tally) -> Run {
    Run {
        state,
        steps: 0,
        tables: none(),
        added: 0,
        tally,
    }
}

// With what was counted since.
pub fn counted(run: Run, tally: Tally) -> Run {
    let mut after = run;
    after.tally = tally;
    after
}

// After each call a list of a follower holds partners of values in its leader's list alone. It is counted how often a call changed one.
fn check_lists(before: State, after: State, tally: Tally) -> Tally {
    let are_trimmed = followers::are_trimmed(after);
    let is_changed = followers::is_other_list(before, after);
    let tried = tally::expect(tally, tally::LISTS, are_trimmed);
    tally::add(tried, tally::LISTS_CHANGED, is_changed as u64)
}

// After a call that answered this, counted as `k`.
pub(crate) fn later(run: Run, k: usize, answer: Stepping, is_right: bool) -> Run {
    let state = answer.state;
    let mut after = run;
    after.state = state;
    after.steps = std::num::wrapping_add_usize(run.steps, answer.steps);
    let tally = tally::expect(run.tally, k, is_right);
    counted(after, check_lists(run.state, state, tally))
}

// After a call that is not refused and must come to `expected`, which is sound.
pub(crate) fn done(run: Run, k: usize, answer: Stepping, is_counted: bool, expected: State) -> Run {
    let is_same = states::same(answer.state, expected);
    let is_sound = calls::is_sound(answer.state);
    let sound = counted(run, tally::expect(run.tally, tally::SOUND, is_sound));
    later(
        sound,
        k,
        answer,
        (answer.number == 0) & is_counted & is_same,
    )
}

// One follow step, whose refusal is decided here by the fields alone.
pub fn check_step(run: Run, leader: usize, follower: usize) -> Run {
    let state = run.state;
    let expected = refusals::refusal(state, leader, follower);
    let answer = calls::eliminate(state, leader, follower);
    if expected != 0 {
        let is_refused = is_refused(state, answer, expected);
        return later(run, tally::STEPS_REFUSED, answer, is_refused);
    }
    let stepped = rules::step(state, leader, follower);
    done(run, tally::STEPS, answer, answer.steps == 1, stepped)
}

// A reduction that must come to `expected`.
fn check_reduction_to(run: Run, expected: State) -> Run {
    let answer = calls::reduce(run.state);
    let is_counted = states::is_counted(run.state, answer.state, answer.steps);
    done(run, tally::REDUCTIONS, answer, is_counted, expected)
}

// A full reduction, and a second one, which takes no step.
pub fn check_reduction(run: Run) -> Run {
    let first = check_reduction_to(run, rules::reduced(run.state));
    check_reduction_to(first, first.state)
}

// A trimming that must come to `expected`.
fn check_trim_to(run: Run, expected: State) -> Run {
    let answer = calls::trim(run.state);
    let is_counted = states::is_counted(run.state, answer.state, answer.steps);
    let is_stepped = answer.steps != 0;
    let after = done(run, tally::TRIMS, answer, is_counted, expected);
    counted(
        after,
        tally::add(after.tally, tally::TRIMS_STEPPED, is_stepped as u64),
    )
}

// Counts whether the trimming of `before` makes a list shorter at once, and whether a round of trimming and full reduction is not all.
fn count_rounds(before: State, once: State, last: State, tally: Tally) -> Tally {
    let is_shorter = live::are_other_lists(before, live::trimmed(before));
    let is_again = !states::same(once, last);
    let shorter = tally::add(tally, tally::TRIMS_SHORTER, is_shorter as u64);
    tally::add(shorter, tally::TRIMS_AGAIN, is_again as u64)
}

// Where all choices of live lists can be gone through, trimming leaves the union of those in which every value has its partners.
fn check_union(before: State, tally: Tally) -> Tally {
    if !unions::is_small(before) {
        return tally;
    }
    tally::hold(tally, unions::is_union(before, live::trimmed(before)))
}

// The live lists trimmed against each other, in turn with the full reduction; and again, which changes nothing and takes no step.
pub fn check_trim(run: Run) -> Run {
    let once = live::round(run.state);
    let last = live::alternated(once);
    let first = check_trim_to(run, last);
    let tally = count_rounds(run.state, once, last, first.tally);
    check_trim_to(counted(first, check_union(run.state, tally)), last)
}

// A table for a follower is counted by the leaders of its two options.
fn count_sides(sides: Sides, tally: Tally) -> Tally {
    let is_first_led = sides.first != sides.first_leader;
    let is_second_led = sides.second != sides.second_leader;
    if !(is_first_led | is_second_led) {
        return tally;
    }
    if sides.first_leader != sides.second_leader {
        return tally::count(tally, tally::TABLES_LED);
    }
    if is_first_led & is_second_led {
        return tally::count(tally, tally::TABLES_OF_FOLLOWERS);
    }
    tally::count(tally, tally::TABLES_WITH_LEADER)
}

// What a refused table counts as.
fn kind_of_refusal(number: u8) -> usize {
    match number {
        10 => tally::TABLES_NUMBER,
        21 => tally::TABLES_SAME,
        _ => tally::TABLES_ROWS,
    }
}

// With a table that is not refused.
fn with_added(run: Run, table: Table) -> Run {
    let rows = table.rows;
    let given = first_words(&rows, table.count);
    let before = run.tables;
    let tables = with(before, run.added, table.first, table.second, given);
    let mut after = run;
    after.tables = tables;
    after.added = std::num::wrapping_add_usize(run.added, 1);
    counted(
        after,
        count_sides(added::sides_of(run.state, table), run.tally),
    )
}

// One added table, whose refusal is decided here by the fields alone.
pub fn check_table(run: Run, table: Table) -> Run {
    let state = run.state;
    let expected = added::refusal(state, table);
    let answer = calls::add_table(state, table);
    if expected != 0 {
        let is_refused = is_refused(state, answer, expected);
        return later(run, kind_of_refusal(expected), answer, is_refused);
    }
    let with_table = added::with_table(state, table);
    let added = with_added(run, table);
    done(added, tally::TABLES, answer, answer.steps == 0, with_table)
}

// A table for any two options.
fn check_any_table(run: Run, seed: u64) -> Run {
    let state = run.state;
    let sizes = state.sizes;
    let mut next = seed;
    let table = tables::drawn(state.n, sizes, &mut next);
    check_table(with_seed(run, next), table)
}

pub(crate) fn with_seed(run: Run, seed: u64) -> Run {
    counted(run, tally::with_seed(run.tally, seed))
}

// A legal step, where there is one from a pair drawn on, or else one of no options.
fn check_legal_step(run: Run, seed: u64) -> Run {
    let mut next = seed;
    match refusals::legal_from(run.state, random::index(&mut next, 256)) {
        Some(pair) => check_step(with_seed(run, next), pair.leader, pair.follower),
        None => check_step(with_seed(run, next), 0, 0),
    }
}

// A step with any two numbers.
fn check_any_step(run: Run, seed: u64) -> Run {
    let state = run.state;
    let mut next = seed;
    let leader = tables::option_number(state.n, &mut next);
    let follower = tables::option_number(state.n, &mut next);
    check_step(with_seed(run, next), leader, follower)
}

pub(crate) fn check_call(run: Run) -> Run {
    let tally = run.tally;
    let mut seed = tally.seed;
    match random::below(&mut seed, 12) {
        0 => check_reduction(with_seed(run, seed)),
        1 | 2 | 3 => check_legal_step(run, seed),
        4 | 5 | 6 | 7 => check_any_table(run, seed),
        _ => check_any_step(run, seed),
    }
}

// So many calls, each on the state that the one before it handed back.
pub fn check_list(state: State, calls: usize, tally: Tally) -> Run {
    let mut run = start(state, tally);
    for _ in 0..calls {
        run = check_call(run);
    }
    run
}

// A call of a list that has trimmings among the others: one in three.
fn check_call_or_trim(run: Run) -> Run {
    let tally = run.tally;
    let mut seed = tally.seed;
    if random::once_in(&mut seed, 3) {
        return check_trim(with_seed(run, seed));
    }
    check_call(with_seed(run, seed))
}

// So many calls, some of them trimmings, and a trimming at the end.
pub fn check_trims(state: State, calls: usize, tally: Tally) -> Run {
    let mut run = start(state, tally);
    for _ in 0..calls {
        run = check_call_or_trim(run);
    }
    check_trim(run)
}
