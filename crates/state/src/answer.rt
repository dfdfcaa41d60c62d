// The answers that hold a state. The definitions in specs/ say what each call answers.
use crate::state::State;
use answers::Verdict;
use cause::{Cause, Refusal};

#[derive(Clone, Copy)]
pub struct ReadAnswer {
    pub outcome: Result<(), Refusal>,
    pub state: State,
}

// A step or a reduction: the state handed back and how many steps were taken.
#[derive(Clone, Copy)]
pub struct Answer {
    pub outcome: Result<(), Cause>,
    pub state: State,
    pub steps: usize,
}

// Reading, the full reduction and the verdict, one after the other.
#[derive(Clone, Copy)]
pub struct CutAnswer {
    pub outcome: Result<(), Refusal>,
    pub state: State,
    pub steps: usize,
    pub verdict: Result<Verdict, Cause>,
}
