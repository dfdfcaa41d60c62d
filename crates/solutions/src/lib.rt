// What the tester and the completer ask of lent arrays, and write.
#![tactic(auto)]

mod values;

pub use values::{
    complete_values, free_variables, has_number, lowest_value, pairs_kept, partner_of,
    values_below, values_kept,
};
