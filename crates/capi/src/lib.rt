// The calls of the library for C and Rust. Enums do not cross, so an answer is a struct of document 01's numbers; 0 stands for "not refused".
// A state is lent as its arrays, of which any contents are taken, and no state is copied. `include/sheet.h` declares all of this in C, with a call on a
// pointer to a state over each of these functions.
#![tactic(auto)]

mod change;
mod fit;
mod look;
mod sheets;
mod stock;
mod version;

pub use bins::Bin;
pub use capi_answers::{
    SheetCut, SheetRead, SheetSurvey, SheetTested, SheetValue, SheetVerdict, SheetWritten,
};
pub use capi_lent::SheetStepped;
pub use change::{
    sheet_add_table_parts, sheet_eliminate_parts, sheet_lead_parts, sheet_reduce_parts,
    sheet_trim_parts,
};
pub use fit::meter_fit_parts;
pub use look::{
    sheet_complete_parts, sheet_find_order_parts, sheet_follower_value_parts, sheet_is_sound_parts,
    sheet_search_parts, sheet_survey_parts, sheet_test_order_parts, sheet_test_parts,
    sheet_verdict_parts, sheet_write_parts,
};
pub use sheets::{sheet_cut_parts, sheet_read_paired_parts, sheet_read_parts, sheet_text};
pub use stock::{sheet_call_off_parts, sheet_deliver_parts};
pub use version::sheet_version;
