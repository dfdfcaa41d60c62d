// What the verdict or the search says, and how many builds there are.
ghost use Rattle.std.specs.Prelude.{◌≤◌, length};
ghost use Rattle.cause.specs.Number.{number_of};
ghost use Rattle.answers.specs.Answers.{verdict_told};
ghost use Rattle.text_put.specs.Put.{Put};
ghost use Rattle.plan_lines.specs.Lines.{built_text, ruling_text, builds_line, build_texts, refused_text};

use crate::values::put_spaced;
use answers::Verdict;
use cause::Cause;
use text_phrase::put_refusal;
use text_put::{put_each, put_text, put_titled};

// The first `n` values of a build.
fn put_build(buffer: &mut [u8], at: usize, n: usize, build: &[u8; 16]) -> usize
    requires { n ≤ 16 }
    ensures { Put buffer.old buffer.new (build_texts build.now n) at result }
{
    put_each(buffer, at, n, |buffer, next, i| {
        put_spaced(buffer, next, usize::from(build[i]))
    })
}

fn put_built(buffer: &mut [u8], at: usize, n: usize, build: &[u8; 16]) -> usize
    requires { n ≤ 16 }
    ensures { Put buffer.old buffer.new (built_text build.now n) at result }
{
    let titled = put_text(buffer, at, b" BUILT");
    let built = put_build(buffer, titled, n, build);
    put_text(buffer, built, b"\n")
}

fn put_refused(buffer: &mut [u8], at: usize, cause: Cause) -> usize
    ensures { Put buffer.old buffer.new (refused_text (number_of cause)) at result }
{
    let spaced = put_text(buffer, at, b" ");
    put_refusal(buffer, spaced, cause)
}

#[tactic(auto, unfolding(answers::specs::Answers::verdict_told, crate::specs::Lines::ruling_text, text_lines::specs::Text::ascii))]
pub fn put_ruling(buffer: &mut [u8], at: usize, n: usize, verdict: Result<Verdict, Cause>) -> usize
    requires { n ≤ 16 }
    ensures { Put buffer.old buffer.new (ruling_text (verdict_told verdict) n) at result }
{
    match verdict {
        Ok(Verdict::None) => put_text(buffer, at, b" NONE\n"),
        Ok(Verdict::Built(build)) => put_built(buffer, at, n, &build),
        Ok(Verdict::Open) => put_text(buffer, at, b" OPEN\n"),
        Err(cause) => put_refused(buffer, at, cause),
    }
}

pub fn put_builds(buffer: &mut [u8], at: usize, builds: u64, more: bool) -> usize
    ensures { Put buffer.old buffer.new (builds_line more builds) at result }
{
    if more {
        return put_text(buffer, at, b"BUILDS OVER 18446744073709551615\n");
    }
    let counted = put_titled(buffer, at, b"BUILDS ", builds as usize);
    put_text(buffer, counted, b"\n")
}
