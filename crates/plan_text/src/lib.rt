// The text that sheetplan prints for the bytes of a sheet.
#![tactic(auto)]

ghost use Rattle.std.specs.Prelude.{true, ◌≡◌, ◌<◌, length};
ghost use Rattle.cause.specs.Number.{number_of};
ghost use Rattle.head.specs.Held.{RowsShaped, sound_in, zero_rows};
ghost use Rattle.state.specs.View.{state_of};
ghost use Rattle.text_put.specs.Put.{Put};
ghost use Rattle.text_report.specs.Printed.{Printed};
ghost use Rattle.plan_state.specs.Plan.{state_text};
ghost use Rattle.plan_text.specs.Text.{refused_text, last_of, fitted_text, led_text, plan_text};

use cause::Cause;
use head::{Head, Rows};
use meter_parts::fit_parts;
use plan_state::put_plan;
use state::lead_parts;
use state_read::read_parts;
use step_alternate::alternate_sound;
use step_reduce::reduce_sound;
use text_phrase::{put_refusal, put_refusal_at};
use text_put::put_text;

// Room for every text.
pub const ROOM: usize = 65536;

// What is asked of a sheet: page nine, and that an option, counted from 1, leads first.
#[derive(Clone, Copy)]
pub struct Ask {
    pub page9: bool,
    pub lead: Option<usize>,
}

fn put_refused(buffer: &mut [u8], cause: Cause) -> usize
    ensures { Put buffer.old buffer.new (refused_text (number_of cause)) 0 result
        × (length (refused_text (number_of cause)) < 65536) }
{
    let said = put_refusal(buffer, 0, cause);
    put_text(buffer, said, b"END 1 REFUSED\n")
}

// The table of the state that is left after reducing and trimming: a sound state is refused neither.
fn put_last(buffer: &mut [u8], head: Head, rows: &mut Rows) -> usize
    requires { RowsShaped rows.old × (sound_in head rows.old ≡ true) }
    ensures { Put buffer.old buffer.new (state_text (last_of (state_of head rows.old))) 0 result
        × (length (state_text (last_of (state_of head rows.old))) < 65536) }
{
    let reduced = reduce_sound(head, rows);
    let trimmed = alternate_sound(reduced.head, rows);
    put_plan(buffer, 0, trimmed.head, rows)
}

// With page nine, if it is asked for.
fn put_fitted(buffer: &mut [u8], head: Head, rows: &mut Rows, page9: bool) -> usize
    requires { RowsShaped rows.old × (sound_in head rows.old ≡ true) }
    ensures { Put buffer.old buffer.new (fitted_text page9 (state_of head rows.old)) 0 result
        × (length (fitted_text page9 (state_of head rows.old)) < 65536) }
{
    if !page9 {
        return put_last(buffer, head, rows);
    }
    match fit_parts(head, rows) {
        Ok(fit) => put_last(buffer, fit.head, rows),
        Err(cause) => put_refused(buffer, cause),
    }
}

// After the option that is to lead first, if one is.
fn put_led(buffer: &mut [u8], head: Head, rows: &mut Rows, ask: Ask) -> usize
    requires { RowsShaped rows.old × (sound_in head rows.old ≡ true) }
    ensures { Put buffer.old buffer.new (led_text ask (state_of head rows.old)) 0 result
        × (length (led_text ask (state_of head rows.old)) < 65536) }
{
    let Some(leader) = ask.lead else {
        return put_fitted(buffer, head, rows, ask.page9);
    };
    match lead_parts(head, rows, leader) {
        Ok(led) => put_fitted(buffer, led.head, rows, ask.page9),
        Err(cause) => put_refused(buffer, cause),
    }
}

// What sheetplan prints for the bytes of a sheet, at the start of a buffer.
fn put_text_of(buffer: &mut [u8], bytes: &[u8], rows: &mut Rows, ask: Ask) -> usize
    requires { rows.old ≡ zero_rows }
    ensures { Put buffer.old buffer.new (plan_text ask bytes.now) 0 result
        × (length (plan_text ask bytes.now) < 65536) }
{
    match read_parts(bytes, rows) {
        Ok(head) => put_led(buffer, head, rows, ask),
        Err(refusal) => {
            let said = put_refusal_at(buffer, 0, refusal.cause, refusal.place);
            put_text(buffer, said, b"END 1 REFUSED\n")
        }
    }
}

// What sheetplan prints for the bytes of a sheet, of any length and contents, into an array, whatever that held: how many bytes it has.
pub fn plan_into(bytes: &[u8], ask: Ask, text: &mut [u8; ROOM]) -> usize
    ensures { Printed 65536 (plan_text ask bytes.now) text.new result }
{
    *text = [0; ROOM];
    let mut rows = [0u32; 3840];
    put_text_of(text, bytes, &mut rows, ask)
}
