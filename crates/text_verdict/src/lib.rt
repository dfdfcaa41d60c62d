// The lines of a verdict and of its build, each written at a place of a lent buffer that has room for it; each function returns the place past its part.
#![tactic(auto)]

ghost use Rattle.std.specs.Prelude.{◌+◌, ◌≤◌, length};
ghost use Rattle.buffers.specs.Wrote.{Wrote};
ghost use Rattle.answers.specs.Answers.{verdict_told};
ghost use Rattle.text_verdict.specs.Text.{value_texts, verdict_text, value_text, built_text};

use answers::Verdict;
use buffers::{put_text, put_titled};
use cause::Cause;

fn put_value(buffer: &mut [u8], at: usize, value: u8) -> usize
    requires { at + length (value_text value) ≤ length buffer.old }
    ensures { Wrote buffer.old buffer.new (value_text value) at result }
{
    put_titled(buffer, at, b" ", value as usize)
}

// The values of the first `n` options.
fn put_values(buffer: &mut [u8], at: usize, n: usize, solution: &[u8; 16]) -> usize
    requires { (n ≤ 16) × (at + length (value_texts solution.now n) ≤ length buffer.old) }
    ensures { Wrote buffer.old buffer.new (value_texts solution.now n) at result }
{
    let mut next = at;
    for i in 0..n {
        next = put_value(buffer, next, solution[i]);
    }
    next
}

// BUILT, and the build.
fn put_built(buffer: &mut [u8], at: usize, n: usize, solution: &[u8; 16]) -> usize
    requires { (n ≤ 16) × (at + length (built_text solution.now n) ≤ length buffer.old) }
    ensures { Wrote buffer.old buffer.new (built_text solution.now n) at result }
{
    let titled = put_text(buffer, at, b"VERDICT BUILT\nBUILD");
    let built = put_values(buffer, titled, n, solution);
    put_text(buffer, built, b"\n")
}

#[tactic(auto, using(buffers::proofs::Laws::wrote_none), unfolding(answers::specs::Answers::verdict_told, crate::specs::Text::verdict_text, crate::specs::Text::ruled_text, crate::specs::Text::built_text, text_lines::specs::Text::ascii))]
pub fn put_verdict(buffer: &mut [u8], at: usize, n: usize, verdict: Result<Verdict, Cause>) -> usize
    requires { (n ≤ 16) × (at + length (verdict_text (verdict_told verdict) n) ≤ length buffer.old) }
    ensures { Wrote buffer.old buffer.new (verdict_text (verdict_told verdict) n) at result }
{
    match verdict {
        Ok(Verdict::None) => put_text(buffer, at, b"VERDICT NONE\n"),
        Ok(Verdict::Built(solution)) => put_built(buffer, at, n, &solution),
        Ok(Verdict::Open) => put_text(buffer, at, b"VERDICT OPEN\n"),
        Err(_) => at,
    }
}
