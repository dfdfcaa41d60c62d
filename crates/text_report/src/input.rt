// The text for what was read of an input, in an array that is long enough to tell a sheet from a longer input.
ghost use Rattle.text_report.specs.Text.{limit, text_of};
ghost use Rattle.text_report.specs.Printed.{Printed};
ghost use Rattle.std.specs.Prelude.{◌≡◌, length, take};

use crate::text::{Text, report};

// One byte more than the largest sheet has: what an input has past these is not read.
pub const INPUT: usize = 15622;

pub type Input = [u8; INPUT];

// What sheetcut prints where the first `count` bytes of the array are its input. A larger count stands for all of them, which are too many for a sheet.
pub fn report_input(input: Input, count: usize) -> Text
    ensures limit { length input ≡ limit }
    ensures text { Printed 512 (text_of (take count input)) result.bytes result.length }
{
    if count < INPUT {
        return report(&input[..count]);
    }
    report(&input)
}
