// The run that a named option leads, by the words of document 02. Options are counted from 1.
use crate::refusals;
use crate::refusals::is_option;
use crate::rules::step;
use sheet::State;
use test_oracle::brute::index_of;
use test_oracle::fields;
use test_oracle::fields::has;

// "9, then 10, then 11 when the named option is not live", of a sound state: 0 where none refuses.
pub fn refusal(state: State, leader: usize) -> u8 {
    let leaders = state.leaders;
    if !is_option(state.n, leader) {
        return 10;
    }
    if !has(fields::free(state.n, leaders), index_of(leader)) {
        return 11;
    }
    0
}

// "the lowest possible one each time": none where none can follow.
fn lowest_follower(state: State, leader: usize) -> Option<usize> {
    (1..=16).find(|&follower| refusals::refusal(state, leader, follower) == 0)
}

// What a run comes to, the follower that was taken last, 0 before the first, and whether one was taken after a higher one.
#[derive(Clone, Copy)]
pub struct Taken {
    pub state: State,
    pub last: usize,
    pub is_again: bool,
}

fn with_follower(led: Taken, leader: usize, follower: usize) -> Taken {
    let state = step(led.state, leader, follower);
    Taken {
        state,
        last: follower,
        is_again: led.is_again | (follower < led.last),
    }
}

// "Only it takes followers, the lowest possible one each time, until none can follow.": sixteen options allow fifteen steps.
pub fn led(state: State, leader: usize) -> Taken {
    let mut after = Taken {
        state,
        last: 0,
        is_again: false,
    };
    for _ in 0..16usize {
        match lowest_follower(after.state, leader) {
            Some(follower) => after = with_follower(after, leader, follower),
            None => return after,
        }
    }
    after
}

// How many options follow it.
pub fn followers_of(state: State, leader: usize) -> usize {
    state
        .leaders
        .iter()
        .filter(|x| usize::from(**x) == leader)
        .count()
}
