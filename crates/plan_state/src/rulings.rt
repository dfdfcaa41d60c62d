// The options, the verdict, and the search after OPEN.
ghost use Rattle.std.specs.Prelude.{true, ◌≡◌, ◌≤◌, length, Ok};
ghost use Rattle.head.specs.Held.{sound_in};
ghost use Rattle.answers.specs.Answers.{verdict_told};
ghost use Rattle.state.specs.View.{state_of};
ghost use Rattle.state.specs.Solutions.{search_of};
ghost use Rattle.text_put.specs.Put.{Put};
ghost use Rattle.plan_state.specs.Plan.{options_text, found_line, search_line, ruling_lines};

use answers::{Verdict, verdict_solution};
use head::{Head, Rows};
use plan_lines::{put_options, put_ruling, steps};
use state_search::search_parts;
use state_verdict::verdict_of;
use text_put::{put_text, put_titled};

pub(crate) fn put_begin(
    buffer: &mut [u8],
    at: usize,
    n: usize,
    leaders: &[u8; 16],
    lists: &[u32; 16],
) -> usize
    requires { n ≤ 16 }
    ensures { Put buffer.old buffer.new (options_text n leaders.now lists.now) at result }
{
    let counted = put_titled(buffer, at, b"OPTIONS ", n);
    let begun = put_text(buffer, counted, b"\n");
    let listed = put_options(buffer, begun, n, leaders, lists);
    let stepped = put_titled(buffer, listed, b"STEPS ", steps(n, leaders));
    put_text(buffer, stepped, b"\n")
}

// What the search says.
fn put_found(buffer: &mut [u8], at: usize, head: Head, rows: &Rows) -> usize
    requires { head.n ≤ 16 }
    ensures { Put buffer.old buffer.new (found_line (search_of (state_of head rows.now)) head.n) at result
        × (length (found_line (search_of (state_of head rows.now)) head.n) ≤ 160) }
{
    let found = search_parts(head, rows);
    // That a build has bytes is learnt from a copy, which the compiler drops.
    let _ = verdict_solution(found);
    let titled = put_text(buffer, at, b"SEARCH");
    put_ruling(buffer, titled, head.n, found)
}

// After OPEN alone.
#[tactic(auto, unfolding(answers::specs::Answers::verdict_told, crate::specs::Plan::search_line))]
fn put_search(buffer: &mut [u8], at: usize, head: Head, rows: &Rows, verdict: Verdict) -> usize
    requires { head.n ≤ 16 }
    ensures { Put buffer.old buffer.new (search_line (verdict_told (Ok verdict)) (search_of (state_of head rows.now)) head.n) at result
        × (length (search_line (verdict_told (Ok verdict)) (search_of (state_of head rows.now)) head.n) ≤ 160) }
{
    match verdict {
        Verdict::None => at,
        Verdict::Built(_) => at,
        Verdict::Open => put_found(buffer, at, head, rows),
    }
}

pub(crate) fn put_rulings(buffer: &mut [u8], at: usize, head: Head, rows: &Rows) -> usize
    requires { sound_in head rows.now ≡ true }
    ensures { Put buffer.old buffer.new (ruling_lines (state_of head rows.now)) at result
        × (length (ruling_lines (state_of head rows.now)) ≤ 321) }
{
    let verdict = verdict_of(head, rows);
    // That a build has bytes is learnt from a copy, which the compiler drops.
    let _ = verdict_solution(Ok(verdict));
    let titled = put_text(buffer, at, b"VERDICT");
    let ruled = put_ruling(buffer, titled, head.n, Ok(verdict));
    put_search(buffer, ruled, head, rows, verdict)
}
