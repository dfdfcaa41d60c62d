// Inputs for the tests. No crate of the library is known here.
#![tactic(auto)]

// Sheets with a fault, and bytes of any kind.
pub mod damage;
// Sheets of random contents, by family.
pub mod families;
// Lists of options.
pub mod orders;
// A fixed stream of numbers.
pub mod random;
// Tables for calls to add.
pub mod tables;
