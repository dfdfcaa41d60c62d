// Runs that a named option leads, any number named, and lists of calls that have such runs among the others.
use crate::lists::{Run, check_call, counted, done, later, start, with_seed};
use state::State;
use test_calls::tally::Tally;
use test_calls::{calls, states, tally};
use test_inputs::{random, tables};
use test_oracle::brute::past;
use test_rules::leads;
use test_rules::leads::Taken;

// What a refused run counts as.
fn kind_of_refusal(number: u8) -> usize {
    match number {
        10 => tally::LEADS_NUMBER,
        _ => tally::LEADS_FOLLOWER,
    }
}

// Counts whether a run took a step, took an option after a higher one, and has more new followers than steps.
fn count_led(before: State, led: Taken, leader: usize, steps: usize, tally: Tally) -> Tally {
    let followers = past(leads::followers_of(before, leader), steps);
    let is_brought = leads::followers_of(led.state, leader) != followers;
    let stepped = tally::add(tally, tally::LEADS_STEPPED, (steps != 0) as u64);
    let again = tally::add(stepped, tally::LEADS_AGAIN, led.is_again as u64);
    tally::add(again, tally::LEADS_BROUGHT, is_brought as u64)
}

// One run, whose refusal is decided here by the fields alone.
pub fn check_lead(run: Run, leader: usize) -> Run {
    let state = run.state;
    let expected = leads::refusal(state, leader);
    let answer = calls::lead(state, leader);
    if expected != 0 {
        let is_refused = calls::is_refused(state, answer, expected);
        return later(run, kind_of_refusal(expected), answer, is_refused);
    }
    let led = leads::led(state, leader);
    let is_counted = states::is_counted(state, answer.state, answer.steps);
    let after = done(run, tally::LEADS, answer, is_counted, led.state);
    let steps = answer.steps;
    counted(after, count_led(state, led, leader, steps, after.tally))
}

// A run that any number names, from 0 to one above n, and now and then far above.
fn check_any_lead(run: Run, seed: u64) -> Run {
    let state = run.state;
    let mut next = seed;
    let leader = tables::option_number(state.n, &mut next);
    check_lead(with_seed(run, next), leader)
}

// A call of a list that has such runs among the others: one in two.
fn check_call_or_lead(run: Run) -> Run {
    let tally = run.tally;
    let mut seed = tally.seed;
    if random::once_in(&mut seed, 2) {
        return check_any_lead(run, seed);
    }
    check_call(with_seed(run, seed))
}

// So many calls, some of them such runs.
pub fn check_leads(state: State, calls: usize, tally: Tally) -> Run {
    let mut run = start(state, tally);
    for _ in 0..calls {
        run = check_call_or_lead(run);
    }
    run
}
