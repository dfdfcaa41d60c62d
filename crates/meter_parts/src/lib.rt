// Page nine of the flat meter on a head by value and lent rows.
#![tactic(auto)]

ghost use Rattle.std.specs.Prelude.{true, ◌≡◌};
ghost use Rattle.head.specs.Held.{RowsShaped};
ghost use Rattle.state.specs.View.{state_of};
ghost use Rattle.meter.specs.Fitted.{flat_meter, fitted};
ghost use Rattle.meter_parts.specs.Parts.{fit_told};

use answers::Verdict;
use cause::Cause;
use head::{Head, Rows, whole};
use meter::{is_flat_meter, page_nine};
use soundness::sound_parts;
use state::add_parts;
use state_verdict::verdict_of;
use step_reduce::reduce_sound;

// What page nine makes of a head, and the verdict.
#[derive(Clone, Copy)]
pub struct Fit {
    pub head: Head,
    pub verdict: Verdict,
}

// Adds page nine, reduces fully and gives the verdict. Soundness is tested once: adding tests it, and keeps it.
fn fit_flat(head: Head, rows: &mut Rows) -> Result<Fit, Cause>
    requires { RowsShaped rows.old × (flat_meter head.n head.sizes ≡ true) }
    ensures { fit_told head result rows.new ≡ fitted (state_of head rows.old) }
{
    let table = page_nine();
    let added = add_parts(head, rows, 1, 2, &table)?;
    let cut = reduce_sound(added.head, rows);
    let verdict = verdict_of(cut.head, rows);
    Ok(Fit {
        head: cut.head,
        verdict,
    })
}

// Page nine: what refuses it, or the head that is left and its verdict.
pub fn fit_parts(head: Head, rows: &mut Rows) -> Result<Fit, Cause>
    ensures { fit_told head result rows.new ≡ fitted (state_of head rows.old) }
{
    if is_flat_meter(head.n, head.sizes) {
        whole(*rows);
        return fit_flat(head, rows);
    }
    if sound_parts(head, rows) {
        return Err(Cause::NotFlatMeter);
    }
    Err(Cause::Unsound)
}
