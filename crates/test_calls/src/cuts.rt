// Reading, the full reduction and the verdict in one call, against the three calls.
use crate::calls::{Cutting, Reading};
use crate::tally::Tally;
use crate::{calls, states, tally};
use state::State;
use test_oracle::fields;

// The state that was read comes to the state, the steps and the verdict of the one call.
fn is_cut(read: State, cut: Cutting) -> bool {
    let answer = calls::reduce(read);
    let judged = calls::verdict(answer.state);
    let is_same = (answer.steps == cut.steps) & states::same(answer.state, cut.state);
    is_same & (judged.verdict == cut.verdict) & (judged.solution == cut.solution)
}

// A refusal shows nothing: the zero state, no step and no build; and no verdict, which has the number of the refusal.
fn is_nothing(cut: Cutting) -> bool {
    let solution = cut.solution;
    let is_zero = fields::is_zero_from(solution, 0) & (cut.steps == 0);
    is_zero & (cut.verdict == cut.number) & states::same(cut.state, states::zero())
}

// The one call answers what was read before.
pub fn check(bytes: &[u8], reading: Reading, tally: Tally) -> Tally {
    let cut = calls::cut(bytes);
    let is_same = (cut.number == reading.number) & (cut.place == reading.place);
    if reading.number != 0 {
        return tally::expect(tally, tally::CUTS, is_same & is_nothing(cut));
    }
    tally::expect(tally, tally::CUTS, is_same & is_cut(reading.state, cut))
}
