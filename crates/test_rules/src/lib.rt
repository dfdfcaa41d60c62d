// What a follow step, an added table, trimming and a run that a named option leads make of a state, and states with a fault, by code of its own. Of the
// library only the type of a state is known here.
#![tactic(auto)]

// What an added table is to be refused with, and what it makes of a state.
pub mod added;
// Sound states with one fault.
pub mod faults;
// The lists of followers.
pub mod followers;
// The run that a named option leads.
pub mod leads;
// Trimming the live lists against each other, in turn with the full reduction.
pub mod live;
// Paths through functional tables, and good orders.
pub mod paths;
// What a follow step is to be refused with.
pub mod refusals;
// The rules of a legal follow step, and the full reduction by them.
pub mod rules;
// The largest live lists, as the union of all that are partnered.
pub mod unions;
