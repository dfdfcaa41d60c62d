// Option sheets: the public calls, and the types of what they answer. What they promise together stands in the crate `promise`.
#![tactic(auto)]

mod sheets;
mod states;

pub use answers::Verdict;
pub use bins::Bin;
pub use cause::{Cause, Refusal, number as cause_number};
pub use sheets::{cut, read, read_paired, write};
pub use state::{Answer, CutAnswer, ReadAnswer, State};
pub use state_bins::{call_off, deliver};
pub use state_survey::Surveyed;
pub use states::{
    complete, find_order, follower_value, is_sound, search, survey, test, test_order, verdict,
};
