// The library's calls, with answers as plain numbers and buffers by value.
use crate::states;
pub use sheet::is_sound;
use sheet::{Answer, Cause, ReadAnswer, Verdict};
use state::State;
use test_inputs::families::{ROOM, first, first_room};
use test_inputs::tables::{Table, first_words};
pub use test_oracle::verdicts::{BUILT, NONE, OPEN};

// What the tester says, past the numbers of the causes.
pub const YES: u8 = 100;

pub const NO: u8 = 101;

#[derive(Clone, Copy)]
pub struct Reading {
    pub number: u8,
    pub place: usize,
    pub state: State,
}

// What a step, a reduction, a trimming, a run that a named option leads or an added table answers.
#[derive(Clone, Copy)]
pub struct Stepping {
    pub number: u8,
    pub steps: usize,
    pub state: State,
}

// What the completer or the finding of an order answers.
#[derive(Clone, Copy)]
pub struct Completion {
    pub number: u8,
    pub buffer: [u8; 16],
}

#[derive(Clone, Copy)]
pub struct Writing {
    pub number: u8,
    pub length: usize,
    pub buffer: [u8; ROOM],
}

#[derive(Clone, Copy)]
pub struct Judgement {
    pub verdict: u8,
    pub solution: [u8; 16],
}

// What the reader, the full reduction and the verdict answer in one call.
#[derive(Clone, Copy)]
pub struct Cutting {
    pub number: u8,
    pub place: usize,
    pub steps: usize,
    pub state: State,
    pub verdict: u8,
    pub solution: [u8; 16],
}

fn stepped(answer: Answer) -> Stepping {
    Stepping {
        number: answers::outcome_number(answer.outcome),
        steps: answer.steps,
        state: answer.state,
    }
}

// A follow step, options counted from 1.
pub fn eliminate(state: State, leader: usize, follower: usize) -> Stepping {
    stepped(state.eliminate(leader, follower))
}

// A table added for two options, counted from 1: the first `count` of the rows.
pub fn add_table(state: State, table: Table) -> Stepping {
    let rows = table.rows;
    let given = first_words(&rows, table.count);
    stepped(state.add_table(table.first, table.second, given))
}

// A refusal with this number, which hands back the state given and took no step.
pub fn is_refused(state: State, answer: Stepping, number: u8) -> bool {
    (answer.number == number) & (answer.steps == 0) & states::same(state, answer.state)
}

// The full reduction.
pub fn reduce(state: State) -> Stepping {
    stepped(state.reduce())
}

// The live lists trimmed against each other, in turn with the full reduction.
pub fn trim(state: State) -> Stepping {
    stepped(state.trim())
}

// The run that a named option leads, counted from 1.
pub fn lead(state: State, leader: usize) -> Stepping {
    stepped(state.lead(leader))
}

fn answered(answer: ReadAnswer) -> Reading {
    Reading {
        number: answers::read_number(answer.outcome),
        place: answers::read_place(answer.outcome),
        state: answer.state,
    }
}

// The reader, on all the bytes.
pub fn read(bytes: &[u8]) -> Reading {
    answered(sheet::read(bytes))
}

// The reader for the paired profile, on all the bytes.
pub fn read_paired(bytes: &[u8]) -> Reading {
    answered(sheet::read_paired(bytes))
}

fn test_number(answer: Result<bool, Cause>) -> u8 {
    match answer {
        Ok(true) => YES,
        Ok(false) => NO,
        Err(cause) => cause::number(cause),
    }
}

// The tester, on the first `n` bytes.
pub fn test(state: State, tuple: [u8; 16], n: usize) -> u8 {
    test_number(sheet::test(state, first(&tuple, n)))
}

// The completer, on the first `n` bytes.
pub fn complete(state: State, given: [u8; 16], n: usize) -> Completion {
    let mut buffer = given;
    let outcome = sheet::complete(state, first_room(&mut buffer, n));
    Completion {
        number: answers::outcome_number(outcome),
        buffer,
    }
}

// The completer, on the first `n` bytes, answers the number and leaves the bytes `after`.
pub fn is_completed(state: State, before: [u8; 16], n: usize, number: u8, after: [u8; 16]) -> bool {
    let done = complete(state, before, n);
    (done.number == number) & (done.buffer == after)
}

// The test of an order: the first `n` bytes, options counted from 1.
pub fn test_order(state: State, order: [u8; 16], n: usize) -> u8 {
    test_number(sheet::test_order(state, first(&order, n)))
}

// The order that is found, in the first `n` bytes.
pub fn find_order(state: State, given: [u8; 16], n: usize) -> Completion {
    let mut buffer = given;
    let outcome = sheet::find_order(state, first_room(&mut buffer, n));
    Completion {
        number: answers::outcome_number(outcome),
        buffer,
    }
}

// No order is found in the first `n` bytes: refused with the number, and the bytes as they were.
pub fn is_unordered(state: State, given: [u8; 16], n: usize, number: u8) -> bool {
    let found = find_order(state, given, n);
    (found.number == number) & (found.buffer == given)
}

// The writer in a version, on the first `room` bytes.
pub fn write(state: State, version: usize, given: [u8; ROOM], room: usize) -> Writing {
    let mut buffer = given;
    let answer = sheet::write(state, version, first_room(&mut buffer, room));
    Writing {
        number: answers::write_number(answer),
        length: answers::write_length(answer),
        buffer,
    }
}

fn verdict_number(verdict: Result<Verdict, Cause>) -> u8 {
    match verdict {
        Ok(Verdict::None) => NONE,
        Ok(Verdict::Built(_)) => BUILT,
        Ok(Verdict::Open) => OPEN,
        Err(cause) => cause::number(cause),
    }
}

fn judged(verdict: Result<Verdict, Cause>) -> Judgement {
    Judgement {
        verdict: verdict_number(verdict),
        solution: answers::verdict_solution(verdict),
    }
}

// The verdict, with the build beside it.
pub fn verdict(state: State) -> Judgement {
    judged(sheet::verdict(state))
}

// The reader, the full reduction and the verdict in one call, on all the bytes.
pub fn cut(bytes: &[u8]) -> Cutting {
    let answer = sheet::cut(bytes);
    Cutting {
        number: answers::read_number(answer.outcome),
        place: answers::read_place(answer.outcome),
        steps: answer.steps,
        state: answer.state,
        verdict: verdict_number(answer.verdict),
        solution: answers::verdict_solution(answer.verdict),
    }
}

// The search, with the build beside what it says.
pub fn search(state: State) -> Judgement {
    judged(sheet::search(state))
}
