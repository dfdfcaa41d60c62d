// The calls that take and give the bytes of a sheet: reading, writing, and reading with the reduction and the verdict.
ghost use Rattle.std.specs.Prelude.{◌≡◌};
ghost use Rattle.answers.specs.Answers.{write_told};
ghost use Rattle.state.specs.Answers.{read_told};
ghost use Rattle.state.specs.Read.{read_sheet, read_paired};
ghost use Rattle.state.specs.Write.{write_sheet};
ghost use Rattle.state_read.specs.Parts.{read_parts_told};
ghost use Rattle.state.specs.Cut.{cut_told, cut_sheet};

use cause::{Cause, Refusal};
use head::{Head, Rows};
use pairs::PLACES;
use state::{CutAnswer, ReadAnswer, State, head_in, state_of};
use state_cut::cut_parts;
use state_paired::read_paired_parts;
use state_read::{read_parts, zero_head};
use state_write::write_parts;

// What was read, and the state: "a refusal gives the zero state".
#[tactic(auto, unfolding(state::specs::Answers::read_told, state_read::specs::Parts::read_parts_told, answers::specs::Answers::number_read, answers::specs::Answers::read_place))]
fn read_answer(read: Result<Head, Refusal>, rows: Rows) -> ReadAnswer
    ensures { read_told result ≡ read_parts_told read rows }
{
    match read {
        Ok(head) => ReadAnswer {
            outcome: Ok(()),
            state: state_of(head, rows),
        },
        Err(refusal) => ReadAnswer {
            outcome: Err(refusal),
            state: state_of(zero_head(), rows),
        },
    }
}

// The state of a sheet's bytes, of any length and contents, or why and where they are refused.
pub fn read(bytes: &[u8]) -> ReadAnswer
    ensures { read_told result ≡ read_sheet bytes.now }
{
    let mut rows = [0u32; PLACES];
    let read = read_parts(bytes, &mut rows);
    read_answer(read, rows)
}

// Reading for the paired profile: "refuses with 31 and the zero state a sheet that has another kind of table, naming the place of the first such pair, after
// all other tests of reading".
pub fn read_paired(bytes: &[u8]) -> ReadAnswer
    ensures { read_told result ≡ read_paired bytes.now }
{
    let mut rows = [0u32; PLACES];
    let read = read_paired_parts(bytes, &mut rows);
    read_answer(read, rows)
}

// Writes the sheet of a state as just read into a lent buffer, in the version that it is told: "the writer tests 9, 18, 17", 24 "after 18 and before 17", and
// 26 "after 24 and before 17". A refusal writes nothing.
pub fn write(state: State, version: usize, buffer: &mut [u8]) -> Result<usize, Cause>
    ensures { (write_told result ≡ (write_sheet version state buffer.old).answer)
        × (buffer.new ≡ (write_sheet version state buffer.old).buffer) }
{
    write_parts(head_in(state), &state.rows, version, buffer)
}

// Reading, the full reduction and the verdict in one call: what the three give one after the other. What refuses the sheet refuses the verdict too.
#[tactic(auto, unfolding(state::specs::Cut::cut_told, state_cut::specs::Parts::cut_parts_told))]
pub fn cut(bytes: &[u8]) -> CutAnswer
    ensures { cut_told result ≡ cut_sheet bytes.now }
{
    let mut rows = [0u32; PLACES];
    let cut = cut_parts(bytes, &mut rows);
    CutAnswer {
        outcome: cut.outcome,
        state: state_of(cut.head, rows),
        steps: cut.steps,
        verdict: cut.verdict,
    }
}
