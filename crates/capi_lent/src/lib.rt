// The arrays of a state that C and Rust lend one by one: its head read off them, and what a call stores in them.
#![tactic(auto)]

ghost use Rattle.std.specs.Prelude.{◌≡◌};
ghost use Rattle.head.specs.Held.{zero_rows};
ghost use Rattle.capi_lent.specs.Lent.{head_with, Stored, Made, Left};

use answers::outcome_number;
use cause::Cause;
use head::{Head, Rows, VARIABLES};
use step_reduce::Reduction;

// A step, a reduction or a table added: the number that refuses, and how many steps were taken.
#[repr(C)]
#[derive(Clone, Copy)]
pub struct SheetStepped {
    pub number: u8,
    pub steps: usize,
}

// Its head, by value.
pub fn head_of<'a>(
    n: usize,
    sizes: &'a [u8; VARIABLES],
    lists: &'a [u32; VARIABLES],
    leaders: &'a [u8; VARIABLES],
    stated: &'a [u32; VARIABLES],
) -> Head
    ensures { result ≡ head_with n sizes.now lists.now leaders.now stated.now }
{
    let own_sizes = *sizes;
    let own_lists = *lists;
    let own_leaders = *leaders;
    let own_stated = *stated;
    Head {
        n,
        sizes: own_sizes,
        domains: own_lists,
        leaders: own_leaders,
        stated: own_stated,
    }
}

pub fn zero_rows(rows: &mut Rows)
    ensures { rows.new ≡ zero_rows }
{
    *rows = [0; 3840];
}

// Stores all that a call may change of a head.
fn put_changed(
    head: Head,
    lists: &mut [u32; VARIABLES],
    leaders: &mut [u8; VARIABLES],
    stated: &mut [u32; VARIABLES],
)
    ensures { Stored head lists.new leaders.new stated.new }
{
    let new_lists = head.domains;
    let new_leaders = head.leaders;
    let new_stated = head.stated;
    *lists = new_lists;
    *leaders = new_leaders;
    *stated = new_stated;
}

// Stores what a call has made of a head where it is not refused, and tells the number.
#[tactic(auto, unfolding(crate::specs::Lent::Made))]
pub fn put_made(
    made: Result<Head, Cause>,
    lists: &mut [u32; VARIABLES],
    leaders: &mut [u8; VARIABLES],
    stated: &mut [u32; VARIABLES],
) -> u8
    ensures { Made made result lists.old leaders.old stated.old lists.new leaders.new stated.new }
{
    match made {
        Ok(head) => {
            put_changed(head, lists, leaders, stated);
            0
        }
        Err(cause) => outcome_number(Err(cause)),
    }
}

// Stores what a step, a run of steps or a table added has made, and tells the number and the count of steps.
#[tactic(auto, unfolding(crate::specs::Lent::Made, crate::specs::Lent::Left, answers::specs::Answers::outcome_number))]
pub fn left(
    worked: Result<Reduction, Cause>,
    lists: &mut [u32; VARIABLES],
    leaders: &mut [u8; VARIABLES],
    stated: &mut [u32; VARIABLES],
) -> SheetStepped
    ensures { Left worked result lists.old leaders.old stated.old lists.new leaders.new stated.new }
{
    match worked {
        Ok(run) => SheetStepped {
            number: put_made(Ok(run.head), lists, leaders, stated),
            steps: run.steps,
        },
        Err(cause) => SheetStepped {
            number: put_made(Err(cause), lists, leaders, stated),
            steps: 0,
        },
    }
}

// Stores a whole head.
#[tactic(auto, using(crate::proofs::Laws::head_stored))]
pub fn put_head(
    head: Head,
    n: &mut usize,
    sizes: &mut [u8; VARIABLES],
    lists: &mut [u32; VARIABLES],
    leaders: &mut [u8; VARIABLES],
    stated: &mut [u32; VARIABLES],
)
    ensures { head_with n.new sizes.new lists.new leaders.new stated.new ≡ head }
{
    *n = head.n;
    let new_sizes = head.sizes;
    *sizes = new_sizes;
    put_changed(head, lists, leaders, stated);
}
