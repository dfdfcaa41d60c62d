// What a version fixes for the writer, and which states it takes.
ghost use Rattle.std.specs.Prelude.{◌≡◌, ◌≤◌};
ghost use Rattle.pairs.specs.Pairs.{variables};
ghost use Rattle.format.specs.Layout.{layout_of};
ghost use Rattle.write_version.specs.Version.{Fixes, FitsIs};

use folds::every;
use pairs::VARIABLES;

// How many bytes a row has, the largest size, and whether an all-zero row is banned: 0, 0 and not in an unknown version.
#[derive(Clone, Copy)]
pub struct Fixed {
    pub bytes: usize,
    pub most: u8,
    pub filled: bool,
}

// No `Option`: who writes has asked `fits_version` before, and would have an arm for an unknown version that is never reached.
pub fn fixed_by(version: usize) -> Fixed
    ensures { Fixes (layout_of version) result }
{
    match version {
        1 => Fixed {
            bytes: 2,
            most: 16,
            filled: false,
        },
        2 | 3 => Fixed {
            bytes: 4,
            most: 32,
            filled: version == 3,
        },
        _ => Fixed {
            bytes: 0,
            most: 0,
            filled: false,
        },
    }
}

// Whether there is such a version and no size is above its limit.
pub fn fits_version(version: usize, n: usize, sizes: &[u8; VARIABLES]) -> bool
    requires { n ≤ variables }
    ensures { FitsIs version n sizes.now result }
{
    let most = fixed_by(version).most;
    if most == 0 {
        return false;
    }
    every(n, |i| sizes[i] <= most)
}
