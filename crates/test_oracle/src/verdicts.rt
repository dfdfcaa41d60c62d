// What the verdict and the search are to say of a state, and the build that they show. `free` has the live options as bits.
use crate::brute::options;
use crate::choices::{are_apart, are_lowest, are_many, has_empty_list};
use crate::fields::is_zero_from;
use crate::tables::{Tables, is_build};

// Past the numbers of the causes.
pub const NONE: u8 = 102;

pub const BUILT: u8 = 103;

pub const OPEN: u8 = 104;

// A verdict by the fields alone.
pub fn expected(free: u32, domains: [u32; 16], stated: [u32; 16]) -> u8 {
    if has_empty_list(free, domains) {
        return NONE;
    }
    if are_apart(free, stated) {
        return BUILT;
    }
    OPEN
}

// NONE where there is no build, BUILT where there is one.
pub fn is_settled(verdict: u8, builds: u64) -> bool {
    match verdict {
        NONE => builds == 0,
        BUILT => builds != 0,
        _ => false,
    }
}

// A build of the sheet and the tables, zero past n.
fn is_found(bytes: &[u8], tables: &Tables, solution: [u8; 16]) -> bool {
    is_build(bytes, tables, solution) & is_zero_from(solution, options(bytes))
}

// The build that the verdict shows is a build, each live option at its lowest value; with NONE or OPEN it is all zero.
pub fn is_shown(
    bytes: &[u8],
    tables: &Tables,
    free: u32,
    domains: [u32; 16],
    verdict: u8,
    solution: [u8; 16],
) -> bool {
    if verdict == BUILT {
        return is_found(bytes, tables, solution) & are_lowest(free, domains, solution);
    }
    is_zero_from(solution, 0)
}

// What a search of many choices says: it is refused, or shows a build, or says none, which the verdict does not contradict.
pub fn is_sought(
    bytes: &[u8],
    tables: &Tables,
    free: u32,
    domains: [u32; 16],
    stated: [u32; 16],
    verdict: u8,
    solution: [u8; 16],
) -> bool {
    let are_many = are_many(free, domains);
    let is_zero = is_zero_from(solution, 0);
    match verdict {
        BUILT => !are_many & is_found(bytes, tables, solution),
        NONE => !are_many & is_zero & (expected(free, domains, stated) != BUILT),
        _ => are_many & is_zero & (verdict == 23),
    }
}
