// The library's calls and what they are compared by.
#![tactic(auto)]

// The calls, with answers as plain numbers and buffers by value.
pub mod calls;
// Reading, the full reduction and the verdict in one call, against the three calls.
pub mod cuts;
// Tuples for the tester and the completer.
pub mod draws;
// Reading against the judge of bytes, and writing against bytes that are known.
pub mod reads;
// Whole states: compared, and their live options.
pub mod states;
// How often each thing was tried, and how often it came out wrong.
pub mod tally;
// A sheet in another version, and numbers that are no version.
pub mod versions;
