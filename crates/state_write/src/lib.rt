// Writing a sheet from a head and lent rows.
#![tactic(auto)]

ghost use Rattle.std.specs.Prelude.{◌≡◌};
ghost use Rattle.answers.specs.Answers.{write_told};
ghost use Rattle.state.specs.View.{state_of};
ghost use Rattle.state.specs.Write.{write_sheet};

use cause::Cause;
use head::{Head, Rows};
use solutions_head::fresh_parts;
use soundness::sound_parts;
use write_sheet::{extent_of, write_into};
use write_version::{fits_version, fixed_by, rows_pass};

// Writes the sheet of a state as just read into a lent buffer, in the version that it is told: "the writer tests 9, 18, 17", 24 "after 18 and before 17", and
// 26 "after 24 and before 17". A refusal writes nothing.
pub fn write_parts(
    head: Head,
    rows: &Rows,
    version: usize,
    buffer: &mut [u8],
) -> Result<usize, Cause>
    ensures { (write_told result ≡ (write_sheet version (state_of head rows.now) buffer.old).answer)
        × (buffer.new ≡ (write_sheet version (state_of head rows.now) buffer.old).buffer) }
{
    if !sound_parts(head, rows) {
        return Err(Cause::Unsound);
    }
    let n = head.n;
    let fresh = fresh_parts(head);
    let fits = fits_version(version, n, &head.sizes);
    let passes = rows_pass(head, rows, version);
    let bytes = fixed_by(version).bytes;
    let extent = extent_of(bytes, n, &head.sizes, &head.stated);
    let length = extent.length;
    if !fresh {
        return Err(Cause::NotFresh);
    }
    if !fits {
        return Err(Cause::NotInVersion);
    }
    if !passes {
        return Err(Cause::BlankRow);
    }
    if buffer.len() < length {
        return Err(Cause::BufferLength);
    }
    Ok(write_into(head, rows, version, extent, buffer))
}
