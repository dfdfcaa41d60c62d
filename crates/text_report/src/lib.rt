// The text that sheetcut prints.
#![tactic(auto)]

mod cut;
mod input;
mod text;

pub use input::{INPUT, Input, report_input};
pub use text::{LONGEST, Text, report, report_into};
