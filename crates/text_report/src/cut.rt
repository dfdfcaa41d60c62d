// The text of a sheet that is accepted, written at a place of a lent buffer that has room for it.
ghost use Rattle.std.specs.Prelude.{◌+◌, ◌≤◌, length};
ghost use Rattle.buffers.specs.Wrote.{Wrote};
ghost use Rattle.answers.specs.Answers.{verdict_told};
ghost use Rattle.text_report.specs.Text.{cut_text};

use answers::Verdict;
use buffers::{put_text, put_titled};
use cause::Cause;
use text_lines::put_options;
use text_verdict::put_verdict;

// The number of options, their lines, the steps and the verdict.
pub(crate) fn put_cut(
    buffer: &mut [u8],
    at: usize,
    n: usize,
    leaders: &[u8; 16],
    lists: &[u32; 16],
    steps: usize,
    verdict: Result<Verdict, Cause>,
) -> usize
    requires { (n ≤ 16) × (at + length (cut_text n leaders.now lists.now steps (verdict_told verdict)) ≤ length buffer.old) }
    ensures { Wrote buffer.old buffer.new
        (cut_text n leaders.now lists.now steps (verdict_told verdict)) at result }
{
    let counted = put_titled(buffer, at, b"OPTIONS ", n);
    let begun = put_text(buffer, counted, b"\n");
    let listed = put_options(buffer, begun, n, leaders, lists);
    let stepped = put_titled(buffer, listed, b"STEPS ", steps);
    let ended = put_text(buffer, stepped, b"\n");
    put_verdict(buffer, ended, n, verdict)
}
