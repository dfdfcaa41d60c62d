// A refusal in words: its number and the phrase of its cause.
#![tactic(auto)]

ghost use Rattle.std.specs.Prelude.{◌≡◌};
ghost use Rattle.cause.specs.Number.{number_of};
ghost use Rattle.text_put.specs.Put.{Put};
ghost use Rattle.text_phrase.specs.Phrase.{phrase, ending, phrase_end, refused_number, refusal_line, refusal_at_line};

use cause::Cause;
use text_put::{put_text, put_titled};

// The words of a cause.
#[tactic(auto, unfolding(crate::specs::Phrase::phrase, crate::specs::Phrase::phrases, text_lines::specs::Text::ascii))]
fn phrase(cause: Cause) -> &'static [u8]
    ensures { result.now ≡ phrase (number_of cause) }
{
    match cause {
        Cause::Length =>
            b"the sheet is under 3 bytes or over 15,621, or its count of bytes is wrong",
        Cause::Version => b"the version is none of 1, 2 and 3",
        Cause::VariableCount => b"the number of options is 0 or above 16",
        Cause::Size => b"the size of an option is 0, above 32, or above 16 in version 1",
        Cause::ConstraintCount => b"there are more tables than pairs of options",
        Cause::Extent => b"a field is cut off, or bytes are left over",
        Cause::PairRange => b"a table names an option 0 or above the number of options",
        Cause::PairOrder => b"the first option of a table is not below its second",
        Cause::PairRepeated => b"a table's pair is not after the one before",
        Cause::RowRange => b"a row allows a value at or above the size of its option",
        Cause::Unsound => b"the state is not sound",
        Cause::VariableNumber => b"an option number is 0 or above the number of options",
        Cause::NotTwoFree =>
            b"the two options are equal, an option named is not live, or one named as a follower is live",
        Cause::NotStated => b"the two options have no table",
        Cause::NotFunctional => b"the table is not functional from leader to follower",
        Cause::SolutionLength => b"the buffer does not have one byte for each option",
        Cause::ValueRange =>
            b"a value is not in the list of its live option, or at or above the size of its option",
        Cause::ValuesForbidden => b"a table forbids the values of two live options",
        Cause::BufferLength => b"the sheet is longer than the buffer",
        Cause::NotFresh => b"an option follows another, or a list is not full",
        Cause::SameVariables => b"the table is for one option and itself",
        Cause::TableRows =>
            b"the table does not have a row for each value of its first option, or a row allows a value at or above the size of its second",
        Cause::TooManyChoices => b"the lists of the live options have more than 1,000,000 choices",
        Cause::NotInVersion =>
            b"the version to write is unknown, or a size is above what it can hold",
        Cause::NotFlatMeter =>
            b"there are fewer than two options, or option 1 or 2 does not have four values",
        Cause::BlankRow => b"a row is all-zero, which version 3 forbids",
        Cause::BinRecords => b"the bins are not one for each value of each option, in their order",
        Cause::NotInStock => b"there is no such build or value, or a count would exceed 32 bits",
        Cause::BinTooLow => b"a bin holds too few",
        Cause::OrderNumbers => b"the order does not hold each option exactly once and nothing else",
        Cause::NotPaired => b"a table is not functional both ways",
    }
}

// The words of a cause alone.
pub fn put_phrase(buffer: &mut [u8], at: usize, cause: Cause) -> usize
    ensures { Put buffer.old buffer.new (phrase (number_of cause)) at result }
{
    put_text(buffer, at, phrase(cause))
}

// A colon, the words and the end of the line.
pub fn put_ending(buffer: &mut [u8], at: usize, words: &[u8]) -> usize
    ensures { Put buffer.old buffer.new (ending words.now) at result }
{
    let begun = put_text(buffer, at, b": ");
    let said = put_text(buffer, begun, words);
    put_text(buffer, said, b"\n")
}

// The ending in the words of a cause.
pub fn put_phrase_end(buffer: &mut [u8], at: usize, cause: Cause) -> usize
    ensures { Put buffer.old buffer.new (phrase_end (number_of cause)) at result }
{
    put_ending(buffer, at, phrase(cause))
}

// "REFUSED" and the number.
fn put_refused(buffer: &mut [u8], at: usize, cause: Cause) -> usize
    ensures { Put buffer.old buffer.new (refused_number (number_of cause)) at result }
{
    put_titled(buffer, at, b"REFUSED ", usize::from(cause::number(cause)))
}

// The line of a refusal that has no place.
pub fn put_refusal(buffer: &mut [u8], at: usize, cause: Cause) -> usize
    ensures { Put buffer.old buffer.new (refusal_line (number_of cause)) at result }
{
    let numbered = put_refused(buffer, at, cause);
    put_phrase_end(buffer, numbered, cause)
}

// The line of a refused sheet, with the place of the byte.
pub fn put_refusal_at(buffer: &mut [u8], at: usize, cause: Cause, place: usize) -> usize
    ensures { Put buffer.old buffer.new (refusal_at_line (number_of cause) place) at result }
{
    let numbered = put_refused(buffer, at, cause);
    let placed = put_titled(buffer, numbered, b" AT ", place);
    put_phrase_end(buffer, placed, cause)
}
