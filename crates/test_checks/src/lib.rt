// What is claimed of each call, checked and counted.
#![tactic(auto)]

// The tester, the completer, the verdict and the search, on every tuple of a small sheet and on some of a large one.
pub mod builds;
// Runs that a named option leads, and lists of calls that have such runs among them.
pub mod leads;
// Lists of calls: follow steps with any two option numbers, full reductions, added tables, and trimmings.
pub mod lists;
// Orders that are found, and lists that are tested.
pub mod orders;
// What was read is written in every version and read again.
pub mod reads;
