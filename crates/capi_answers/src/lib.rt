// What the calls for C and Rust tell. Enums do not cross, so an answer is a struct of document 01's numbers; 0 stands for "not refused".
#![tactic(auto)]

mod told;
mod version;

pub use told::{
    SheetCut, SheetRead, SheetSurvey, SheetTested, SheetValue, SheetVerdict, SheetWritten,
    cut_told, read_told, survey_told, tested, value_told, verdict_told, written,
};
pub use version::version_built;
