// The flat meter: page nine as a layer above the sheets. It calls the public calls of `sheet`, and its proofs cite the laws of `promise`.
#![tactic(auto)]

ghost use Rattle.std.specs.Prelude.{◌≡◌};
ghost use Rattle.answers.specs.Answers.{outcome_number};
ghost use Rattle.meter.specs.Fitted.{meter_told, flat_meter, fit_refusal, fitted};

pub use meter_rule::{fits, page_nine};
use sheet::{Cause, State, Verdict};

// The state handed back, and its verdict: what refuses the call refuses the verdict.
#[derive(Clone, Copy)]
pub struct MeterAnswer {
    pub outcome: Result<(), Cause>,
    pub state: State,
    pub verdict: Result<Verdict, Cause>,
}

// Two variables or more, the first two of size four.
pub fn is_flat_meter(n: usize, sizes: [u8; 16]) -> bool
    ensures { result ≡ flat_meter n sizes }
{
    if n < 2 {
        return false;
    }
    if sizes[0] != 4 {
        return false;
    }
    sizes[1] == 4
}

// Why page nine is refused, or `Ok`: soundness is tested first.
fn refuse_fit(state: State) -> Result<(), Cause>
    ensures { outcome_number result ≡ fit_refusal state }
{
    if !sheet::is_sound(state) {
        return Err(Cause::Unsound);
    }
    if !is_flat_meter(state.n, state.sizes) {
        return Err(Cause::NotFlatMeter);
    }
    Ok(())
}

// Adds page nine, reduces fully, and hands back the state and its verdict. A refusal hands back the state given.
pub fn fit(state: State) -> MeterAnswer
    ensures { meter_told result ≡ fitted state }
{
    if let Err(cause) = refuse_fit(state) {
        return MeterAnswer {
            outcome: Err(cause),
            state,
            verdict: Err(cause),
        };
    }
    let limited = state.add_table(1, 2, &page_nine()).state;
    let left = limited.reduce().state;
    MeterAnswer {
        outcome: Ok(()),
        state: left,
        verdict: sheet::verdict(left),
    }
}
