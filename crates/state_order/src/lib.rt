// In which order to plan, on a head and lent rows: an order is tested, or the first good one is found. Nothing is reduced.
#![tactic(auto)]

ghost use Rattle.std.specs.Prelude.{◌≡◌};
ghost use Rattle.answers.specs.Answers.{test_told, outcome_number};
ghost use Rattle.state.specs.View.{state_of};
ghost use Rattle.state_order.specs.Orders.{order_told, find_number, order_buffer};

use cause::Cause;
use head::{Head, Rows};
use order::{find_order, test_order};
use soundness::sound_parts;

// "One call tests a given order". The numbers count from 1.
pub fn test_order_parts(head: Head, rows: &Rows, numbers: &[u8]) -> Result<bool, Cause>
    ensures { test_told result ≡ order_told (state_of head rows.now) numbers.now }
{
    if !sound_parts(head, rows) {
        return Err(Cause::Unsound);
    }
    test_order(head, rows, numbers)
}

// "and another produces one". A refusal changes no byte.
pub fn find_order_parts(head: Head, rows: &Rows, numbers: &mut [u8]) -> Result<(), Cause>
    ensures { (outcome_number result ≡ find_number (state_of head rows.now) numbers.old)
        × (numbers.new ≡ order_buffer (state_of head rows.now) numbers.old) }
{
    if !sound_parts(head, rows) {
        return Err(Cause::Unsound);
    }
    find_order(head, rows, numbers)
}
