// The causes of a refusal, and the number that documents 01 and 02 give each.
#![tactic(auto)]

ghost use Rattle.std.specs.Prelude.{◌≡◌};
ghost use Rattle.cause.specs.Number.{number_of};

// One cause for each number.
#[derive(Clone, Copy, Debug, PartialEq, Eq)]
pub enum Cause {
    // Reading: the length, the version, then the fields in file order.
    Length,
    Version,
    VariableCount,
    Size,
    ConstraintCount,
    // The fields end past the bytes, or before them.
    Extent,
    PairRange,
    // a is not below b.
    PairOrder,
    // The pair is not after the one before.
    PairRepeated,
    RowRange,
    // Calls on a state.
    Unsound,
    VariableNumber,
    // Not two variables, each of them free.
    NotTwoFree,
    NotStated,
    NotFunctional,
    SolutionLength,
    ValueRange,
    ValuesForbidden,
    BufferLength,
    NotFresh,
    // A table to be added: of one variable, or rows that do not fit the two.
    SameVariables,
    TableRows,
    // A search over more choices than are tried.
    TooManyChoices,
    // The version to write is unknown, or a size is above its limit.
    NotInVersion,
    // Page nine: fewer than two variables, or variable 1 or 2 not of size four.
    NotFlatMeter,
    // Version 3: a row of no values, read or to be written.
    BlankRow,
    // Stock: the records are not those of the options and values in order; no build, no such value, or a count past 32 bits; a bin too low.
    BinRecords,
    NotInStock,
    BinTooLow,
    // An order to plan in that does not hold each option exactly once and nothing else.
    OrderNumbers,
    // The paired profile: a table that is not functional both ways.
    NotPaired,
}

// Why the bytes of a sheet are refused, and at which of them.
#[derive(Clone, Copy, Debug, PartialEq, Eq)]
pub struct Refusal {
    pub cause: Cause,
    pub place: usize,
}

// The number of the table of causes.
pub fn number(cause: Cause) -> u8
    ensures { result ≡ number_of cause }
{
    match cause {
        Cause::Length => 1,
        Cause::Version => 2,
        Cause::VariableCount => 3,
        Cause::Size => 4,
        Cause::ConstraintCount => 5,
        Cause::Extent => 6,
        Cause::PairRange => 7,
        Cause::PairOrder => 19,
        Cause::PairRepeated => 20,
        Cause::RowRange => 8,
        Cause::Unsound => 9,
        Cause::VariableNumber => 10,
        Cause::NotTwoFree => 11,
        Cause::NotStated => 12,
        Cause::NotFunctional => 13,
        Cause::SolutionLength => 14,
        Cause::ValueRange => 15,
        Cause::ValuesForbidden => 16,
        Cause::BufferLength => 17,
        Cause::NotFresh => 18,
        Cause::SameVariables => 21,
        Cause::TableRows => 22,
        Cause::TooManyChoices => 23,
        Cause::NotInVersion => 24,
        Cause::NotFlatMeter => 25,
        Cause::BlankRow => 26,
        Cause::BinRecords => 27,
        Cause::NotInStock => 28,
        Cause::BinTooLow => 29,
        Cause::OrderNumbers => 30,
        Cause::NotPaired => 31,
    }
}
