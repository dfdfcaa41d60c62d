// The whole text of an answer, by value.
ghost use Rattle.std.specs.Prelude.{List, ◌≡◌, ℕ, replicate};
ghost use Rattle.state_cut.specs.Parts.{cut_parts_told};
ghost use Rattle.text_report.specs.Text.{text_as, text_of};
ghost use Rattle.text_report.specs.Printed.{Printed, Narrow};

use crate::cut::put_cut;
use answers::{read_number, read_place, verdict_solution};
use state_cut::{CutParts, cut_parts};
use text_lines::put_refusal;

// Room for every text.
pub const LONGEST: usize = 512;

#[derive(Clone, Copy)]
pub struct Text {
    // The text, and zeros past it.
    pub bytes: [u8; LONGEST],
    pub length: usize,
}

// "Another refusal prints its number and place": what is accepted is printed as it was cut. The rows do not show. How many bytes it has.
pub(crate) fn written(cut: CutParts, text: &mut [u8; LONGEST]) -> usize
    requires { (text.old ≡ replicate 512 0) × ((rows : List ℕ) → Narrow (cut_parts_told cut rows)) }
    ensures { (rows : List ℕ) → Printed 512 (text_as (cut_parts_told cut rows)) text.new result }
{
    let outcome = cut.outcome;
    let Ok(()) = outcome else {
        return put_refusal(text, 0, read_number(outcome), read_place(outcome));
    };
    // That a build has bytes is learnt from a copy, which the compiler drops.
    let _ = verdict_solution(cut.verdict);
    let head = cut.head;
    put_cut(
        text,
        0,
        head.n,
        &head.leaders,
        &head.domains,
        cut.steps,
        cut.verdict,
    )
}

// What sheetcut prints for the bytes on its standard input, of any length and contents, into an array, whatever that held: how many bytes it has.
pub fn report_into(bytes: &[u8], text: &mut [u8; LONGEST]) -> usize
    ensures { Printed 512 (text_of bytes.now) text.new result }
{
    *text = [0; LONGEST];
    let mut rows = [0u32; 3840];
    written(cut_parts(bytes, &mut rows), text)
}

// What sheetcut prints, by value.
pub fn report(bytes: &[u8]) -> Text
    ensures { Printed 512 (text_of bytes.now) result.bytes result.length }
{
    let mut text = [0u8; LONGEST];
    let length = report_into(bytes, &mut text);
    Text {
        bytes: text,
        length,
    }
}
