// Page nine of the flat meter on a state where it is. A refused call leaves it equal, as those of `change` do.
ghost use Rattle.std.specs.Prelude.{◌≡◌};
ghost use Rattle.meter.specs.Fitted.{fitted};
ghost use Rattle.capi_lent.specs.Lent.{state_with};
ghost use Rattle.capi_answers.specs.Answers.{verdict_out};

use capi_answers::{SheetVerdict, verdict_told};
use capi_lent::{head_of, put_made};
use head::{Rows, VARIABLES};
use meter_parts::fit_parts;

// Page nine in place: the number that refuses, the kind of the verdict, and the build shown.
#[unsafe(no_mangle)]
pub extern "C" fn meter_fit_parts(
    n: usize,
    sizes: &[u8; VARIABLES],
    lists: &mut [u32; VARIABLES],
    leaders: &mut [u8; VARIABLES],
    stated: &mut [u32; VARIABLES],
    rows: &mut Rows,
) -> SheetVerdict
    ensures { (result ≡ verdict_out (fitted (state_with n sizes.now lists.old leaders.old stated.old rows.old)).verdict)
        × (state_with n sizes.now lists.new leaders.new stated.new rows.new
        ≡ (fitted (state_with n sizes.now lists.old leaders.old stated.old rows.old)).state) }
{
    match fit_parts(head_of(n, sizes, lists, leaders, stated), rows) {
        Ok(fit) => {
            put_made(Ok(fit.head), lists, leaders, stated);
            verdict_told(Ok(fit.verdict))
        }
        Err(cause) => {
            put_made(Err(cause), lists, leaders, stated);
            verdict_told(Err(cause))
        }
    }
}
