// The calls on the bytes of a sheet. Those that give a state store one whatever they answer: the zero state where the sheet is refused.
ghost use Rattle.std.specs.Prelude.{List, ◌≡◌, ℕ};
ghost use Rattle.answers.specs.Answers.{number_read, read_place};
ghost use Rattle.state.specs.Read.{read_sheet, read_paired};
ghost use Rattle.state_read.specs.Parts.{read_parts_told};
ghost use Rattle.state.specs.Cut.{cut_sheet};
ghost use Rattle.text_report.specs.Text.{text_of};
ghost use Rattle.text_report.specs.Printed.{Printed};
ghost use Rattle.capi_lent.specs.Lent.{state_with};
ghost use Rattle.capi_answers.specs.Answers.{read_out, cut_out};

use capi_answers::{SheetCut, SheetRead, cut_told, read_told};
use capi_lent::{put_head, zero_rows};
use cause::Refusal;
use head::{Head, Rows, VARIABLES};
use state_cut::cut_parts;
use state_paired::read_paired_parts;
use state_read::{head_read, read_parts};
use text_report::{LONGEST, report_into};

// What was read, without the head.
#[tactic(auto, unfolding(answers::specs::Answers::number_read, answers::specs::Answers::read_place, state_read::specs::Parts::read_parts_told))]
fn outcome_of(read: Result<Head, Refusal>) -> Result<(), Refusal>
    ensures { (rows : List ℕ) → (number_read result ≡ (read_parts_told read rows).number) × (read_place result ≡ (read_parts_told read rows).place) }
{
    match read {
        Ok(_) => Ok(()),
        Err(refusal) => Err(refusal),
    }
}

// Reads a sheet's bytes into a state, whatever that held.
#[unsafe(no_mangle)]
pub extern "C" fn sheet_read_parts(
    bytes: &[u8],
    n: &mut usize,
    sizes: &mut [u8; VARIABLES],
    lists: &mut [u32; VARIABLES],
    leaders: &mut [u8; VARIABLES],
    stated: &mut [u32; VARIABLES],
    rows: &mut Rows,
) -> SheetRead
    ensures { (result ≡ read_out (read_sheet bytes.now))
        × (state_with n.new sizes.new lists.new leaders.new stated.new rows.new
        ≡ (read_sheet bytes.now).state) }
{
    zero_rows(rows);
    let read = read_parts(bytes, rows);
    put_head(head_read(read), n, sizes, lists, leaders, stated);
    read_told(outcome_of(read))
}

// Reads the bytes of a sheet of the paired profile into a state, whatever that held.
#[unsafe(no_mangle)]
pub extern "C" fn sheet_read_paired_parts(
    bytes: &[u8],
    n: &mut usize,
    sizes: &mut [u8; VARIABLES],
    lists: &mut [u32; VARIABLES],
    leaders: &mut [u8; VARIABLES],
    stated: &mut [u32; VARIABLES],
    rows: &mut Rows,
) -> SheetRead
    ensures { (result ≡ read_out (read_paired bytes.now))
        × (state_with n.new sizes.new lists.new leaders.new stated.new rows.new
        ≡ (read_paired bytes.now).state) }
{
    zero_rows(rows);
    let read = read_paired_parts(bytes, rows);
    put_head(head_read(read), n, sizes, lists, leaders, stated);
    read_told(outcome_of(read))
}

// Reads into a state, reduces it and gives the verdict.
#[unsafe(no_mangle)]
pub extern "C" fn sheet_cut_parts(
    bytes: &[u8],
    n: &mut usize,
    sizes: &mut [u8; VARIABLES],
    lists: &mut [u32; VARIABLES],
    leaders: &mut [u8; VARIABLES],
    stated: &mut [u32; VARIABLES],
    rows: &mut Rows,
) -> SheetCut
    ensures { (result ≡ cut_out (cut_sheet bytes.now))
        × (state_with n.new sizes.new lists.new leaders.new stated.new rows.new
        ≡ (cut_sheet bytes.now).state) }
{
    zero_rows(rows);
    let cut = cut_parts(bytes, rows);
    put_head(cut.head, n, sizes, lists, leaders, stated);
    cut_told(cut.outcome, cut.steps, cut.verdict)
}

// The text of sheetcut for a sheet's bytes, into an array, whatever that held: how many bytes it has, zeros past them.
#[unsafe(no_mangle)]
pub extern "C" fn sheet_text(bytes: &[u8], text: &mut [u8; LONGEST]) -> usize
    ensures { Printed 512 (text_of bytes.now) text.new result }
{
    report_into(bytes, text)
}
