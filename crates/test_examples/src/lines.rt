// Lists of examples. A line of a list is a letter and two parts, what is given and what it must come to; a part is a byte that counts its bytes, and these.
// R: bytes; the number and the place that they are refused with, or 0 and 0. A run starts on the state handed back, and the lines after it act on that.
// k: bytes; the number and the place that the reader for the paired profile refuses them with, or 0 and 0.
// a: two options and the rows of a table; the number that it is refused with, or 0.
// e: a leader and a follower; the number that the step is refused with, or 0.
// r: a full reduction.
// m: the live lists trimmed against each other, in turn with the full reduction.
// g: an option; the number that the run that it leads is refused with, or 0, and the steps.
// f: nothing; the number that page nine answers, the kind of its verdict, and the build. A run starts on the state handed back.
// d: an option and its list. A run starts on the state with this list.
// p: bytes; the text that is printed for them.
// v: nothing; the bytes that the state is written as, in their version.
// n: a version and the room of a buffer, two bytes each; the number that the writer refuses with.
// t: values; what the tester answers.
// c: values; the number that the completer answers, and the values that it leaves.
// s: nothing; what the search says, and the build.
// q: a list; what the test of an order answers.
// x: the bytes of a buffer; the number that the finding of an order answers, and the bytes that it leaves.
// w: two options that are stated together, and a value of the first; its row.
// o: nothing; what the state comes to.
// l: nothing; the lists of all options, a byte for each.
// u: two options and the rows of a table; the number that it is refused with by a state that is not sound.
// b: two options; the number that a step of these, the full reduction, trimming, the run that the first leads and the verdict are refused with by a state
// that is not sound.
use crate::parts::{end_of, part};
use crate::replies::is_answered;
use crate::steps;
use state::State;
use test_calls::tally::Tally;
use test_calls::{calls, tally};
use test_checks::lists::Run;
use test_checks::{lists, reads};
use test_oracle::brute::{byte, number, past};
use test_oracle::fields::is_filled;

// The bytes are refused with this number at this place, or accepted where both are 0. Starts a run on the state handed back.
pub fn read(bytes: &[u8], number: u8, place: usize, tally: Tally) -> Run {
    let reading = calls::read(bytes);
    let is_same = (reading.number == number) & (reading.place == place);
    let checked = reads::check(bytes, reading, tally);
    lists::start(
        reading.state,
        tally::expect(checked, tally::EXAMPLES, is_same),
    )
}

// The program prints the text for the bytes.
pub fn expect_text(bytes: &[u8], text: &[u8], tally: Tally) -> Tally {
    let printed = text_report::report(bytes);
    let is_same = (printed.length == text.len()) & is_filled(&printed.bytes, text, 0);
    tally::expect(tally, tally::TEXTS, is_same)
}

// The reader for the paired profile refuses the bytes with a number at a place, or accepts them.
fn expect_paired(bytes: &[u8], answer: &[u8], tally: Tally) -> Tally {
    let paired = calls::read_paired(bytes);
    let is_refused = paired.number == byte(answer, 0);
    let is_placed = paired.place == byte(answer, 1) as usize;
    let is_read = reads::is_paired_reading(bytes, calls::read(bytes));
    tally::expect(tally, tally::EXAMPLES, is_refused & is_placed & is_read)
}

// The writer, in a version and on a buffer of so much room.
fn check_unwritten(state: State, given: &[u8], answer: &[u8], tally: Tally) -> Tally {
    let version = number(given, 0);
    let room = number(given, 2);
    reads::check_unwritten(state, version, room, byte(answer, 0), tally)
}

// A line that leaves the state as it is.
fn check(run: Run, letter: u8, given: &[u8], answer: &[u8]) -> Tally {
    let tally = run.tally;
    match letter {
        b'p' => expect_text(given, answer, tally),
        b'k' => expect_paired(given, answer, tally),
        b'v' => reads::check_written(answer, run.state, tally),
        b'n' => check_unwritten(run.state, given, answer, tally),
        _ => {
            let is_right = is_answered(run, letter, given, answer);
            tally::expect(tally, tally::EXAMPLES, is_right)
        }
    }
}

// A line. Where there is no letter, the list has ended.
fn tried(run: Run, letter: u8, given: &[u8], answer: &[u8]) -> Run {
    match letter {
        b'R' => read(given, byte(answer, 0), byte(answer, 1) as usize, run.tally),
        b'a' => steps::add(run, given, answer),
        b'e' => steps::follow(run, given, answer),
        b'r' => lists::check_reduction(run),
        b'm' => lists::check_trim(run),
        b'g' => steps::lead(run, given, answer),
        b'f' => steps::fit(run, answer),
        b'd' => steps::relist(run, given),
        0 => run,
        _ => lists::counted(run, check(run, letter, given, answer)),
    }
}

// Every line of the list: it has no more of them than bytes.
pub fn play(run: Run, list: &[u8]) -> Run {
    let length = list.len();
    let mut after = run;
    let mut at = 0;
    for _ in 0..length {
        let given = past(at, 1);
        let answer = end_of(list, given);
        after = tried(after, byte(list, at), part(list, given), part(list, answer));
        at = end_of(list, answer);
    }
    after
}
