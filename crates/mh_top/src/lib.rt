//! The top call: the whole tool as one function, over any shelf, input and outputs.
#![tactic(auto)]

mod exit;
mod following;
mod modes;
mod top;

pub use exit::run;
pub use mh_top_claims::{
    lines_are_answered, runs_are_equal, some_work_is_asked, unwarned_is_conflict_free,
    work_is_unique,
};
pub use mh_top_drive::{Cause, status};
pub use top::menhir;
