// Lists of sheets. A line is a letter and two parts, as in `test_examples`.
// S: a sheet; what it comes to. It is then tried as the random ones are.
// K: a sheet; the lines of examples that are played on it.
// p: bytes; the text that is printed for them.
use crate::sheets::check_sheet;
use test_calls::tally;
use test_calls::tally::Tally;
use test_checks::builds;
use test_examples::lines::expect_text;
use test_examples::parts::{end_of, part};
use test_examples::{lines, outcomes};
use test_inputs::families;
use test_oracle::brute::{byte, past};

// A sheet that comes to what is expected, and is tried as the random ones are.
fn expect_cut(bytes: &[u8], expected: &[u8], tally: Tally) -> Tally {
    let is_cut = outcomes::is_cut(bytes, expected);
    check_sheet(
        families::MIXED,
        bytes,
        tally::expect(tally, tally::EXAMPLES, is_cut),
    )
}

// The lines played on a sheet, and then all that is claimed of the builds of the sheet and the tables added.
fn check_played(bytes: &[u8], list: &[u8], tally: Tally) -> Tally {
    let run = lines::play(lines::read(bytes, 0, 0, tally), list);
    let tables = run.tables;
    builds::check_all(bytes, &tables, run.state, run.tally)
}

// A line. Where there is no letter, the list has ended, and another letter than these is none of a line.
fn check_line(letter: u8, given: &[u8], answer: &[u8], tally: Tally) -> Tally {
    match letter {
        b'S' => expect_cut(given, answer, tally),
        b'K' => check_played(given, answer, tally),
        b'p' => expect_text(given, answer, tally),
        _ => tally::hold(tally, letter == 0),
    }
}

// Every line of the list: it has no more of them than bytes.
pub(crate) fn run(list: &[u8], tally: Tally) -> Tally {
    let length = list.len();
    let mut after = tally;
    let mut at = 0;
    for _ in 0..length {
        let given = past(at, 1);
        let answer = end_of(list, given);
        after = check_line(byte(list, at), part(list, given), part(list, answer), after);
        at = end_of(list, answer);
    }
    after
}
