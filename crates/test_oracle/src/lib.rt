// What a sheet means, by code of its own. No crate of the library is known here, so that what it says is judged by other code.
#![tactic(auto)]

// The builds of a sheet, read off its bytes.
pub mod brute;
// Choices of values for the live options.
pub mod choices;
// Every tuple of a small sheet: how many are builds, and how many a state allows as choices.
pub mod counts;
// The arrays of a state, compared and looked up.
pub mod fields;
// What the reader is to say of some bytes, and what it is to make of a sheet.
pub mod judge;
// Orders of options, and lists of numbers.
pub mod orders;
// What the reading for the paired profile is to say of some bytes.
pub mod paired;
// Tables that calls added to a sheet, and the builds that keep to them.
pub mod tables;
// What the verdict and the search are to say.
pub mod verdicts;
