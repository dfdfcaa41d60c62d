// Reading a sheet of the paired profile, its rows into a lent array.
#![tactic(auto)]

ghost use Rattle.std.specs.Prelude.{◌≡◌};
ghost use Rattle.head.specs.Held.{zero_rows};
ghost use Rattle.state.specs.Read.{read_paired};
ghost use Rattle.state_read.specs.Parts.{read_parts_told};

use cause::{Cause, Refusal};
use head::{Head, Rows};
use read_paired::unpaired_place;
use state_read::{read_parts, refused};

// What reading gives, "after all other tests" of which a table that is not functional both ways is refused: 31, and the place of the first such pair. The
// rows are then zero again.
pub fn read_paired_parts(bytes: &[u8], rows: &mut Rows) -> Result<Head, Refusal>
    requires { rows.old ≡ zero_rows }
    ensures { read_parts_told result rows.new ≡ read_paired bytes.now }
{
    let head = read_parts(bytes, rows)?;
    let Some(place) = unpaired_place(bytes) else {
        return Ok(head);
    };
    let cause = Cause::NotPaired;
    refused(Refusal { cause, place }, rows)
}
