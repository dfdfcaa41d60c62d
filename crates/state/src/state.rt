// The state of a sheet.
ghost use Rattle.std.specs.Prelude.{◌≡◌};
ghost use Rattle.state.specs.View.{head_in, state_of};

use head::{Head, Rows, VARIABLES};

// Variables count from 0 here. Any contents are possible: calls test soundness before anything else.
#[repr(C)]
#[derive(Clone, Copy)]
pub struct State {
    // How many variables.
    pub n: usize,
    // How many values each has.
    pub sizes: [u8; VARIABLES],
    // The values still open for each, as bits ("list").
    pub domains: [u32; VARIABLES],
    // 0 for a free variable, else the number of its leader, counted from 1.
    pub leaders: [u8; VARIABLES],
    // Bit j of stated[i]: the pair i, j has a constraint.
    pub stated: [u32; VARIABLES],
    // Each pair once, from its lower variable: the row of value a of i against a higher j stands at (j * (j - 1) / 2 + i) * 32 + a.
    pub rows: Rows,
}

// A state but for its rows.
pub fn head_in(state: State) -> Head
    ensures { result ≡ head_in state }
{
    // An array of a struct goes into another by way of a variable: the check asks for it.
    let sizes = state.sizes;
    let domains = state.domains;
    let leaders = state.leaders;
    let stated = state.stated;
    Head {
        n: state.n,
        sizes,
        domains,
        leaders,
        stated,
    }
}

// The state of a head and rows.
pub fn state_of(head: Head, rows: Rows) -> State
    ensures { result ≡ state_of head rows }
{
    let sizes = head.sizes;
    let domains = head.domains;
    let leaders = head.leaders;
    let stated = head.stated;
    State {
        n: head.n,
        sizes,
        domains,
        leaders,
        stated,
        rows,
    }
}
