// What refuses a step of two variables, by the words of the pair.
#![tactic(auto)]

ghost use Rattle.std.specs.Prelude.{◌≡◌, true, ◌<◌, eqb};
ghost use Rattle.words.specs.Word.{width, has};
ghost use Rattle.pairs.specs.Pairs.{variables, partners_within};
ghost use Rattle.answers.specs.Answers.{outcome_number};
ghost use Rattle.step_judge.specs.Judging.{pair_number};

use cause::Cause;
use pairs::Rows;

// What refuses a step of two variables that differ, counted from 0: one is not free, their pair is not stated, or it is not functional. The ones of row AND
// domain decide whether it is. `leader` and `other` are the leaders of `i` and `j`, `di` and `dj` their domains; `stated` is what `i` is stated with.
pub fn judge_pair(
    leader: u8,
    other: u8,
    stated: u32,
    di: u32,
    dj: u32,
    rows: &Rows,
    i: usize,
    j: usize,
) -> Result<(), Cause>
    requires { (i < variables) × (j < variables) × (has stated j ≡ true → i ≡ j → ⊥) }
    ensures { outcome_number result ≡ pair_number (eqb leader 0) (eqb other 0) (has stated j) (partners_within width rows.now i j di dj 0 1) }
{
    if leader != 0 {
        return Err(Cause::NotTwoFree);
    }
    if other != 0 {
        return Err(Cause::NotTwoFree);
    }
    if !words::member(stated, j) {
        return Err(Cause::NotStated);
    }
    if !pairs_read::partners_within(rows, i, j, di, dj, 0, 1) {
        return Err(Cause::NotFunctional);
    }
    Ok(())
}
