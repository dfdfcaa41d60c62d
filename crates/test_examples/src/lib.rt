// Fixed examples, each with what it must come to.
#![tactic(auto)]

// A state that no sheet of a list has.
mod contrary;
// Lists of examples.
pub mod fixed;
// Lists of followers.
mod followers;
// Lines of a list.
pub mod lines;
// Orders of options.
mod orders;
// What a sheet comes to, against a text.
pub mod outcomes;
// Parts of a line.
pub mod parts;
// Bytes for the paired profile.
mod profile;
// What a state answers.
mod replies;
// Calls that lead from a state to another.
mod steps;
// What the bytes of a line stand for.
mod values;
