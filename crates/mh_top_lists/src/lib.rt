//! The modes that search the table for first sentences: the list of errors, a rebased messages file, what is wrong with
//! a messages file, the counts of a sample, and the explanations of conflicts.
#![tactic(auto)]

mod checking;
mod conflicts;
mod entries;
mod listing;
mod rebasing;
mod refusing;
mod sampling;

pub use checking::check_errors;
pub use conflicts::ConflictExplanations;
pub use listing::ErrorList;
pub use rebasing::rebase_errors;
pub use sampling::SampleCounts;
