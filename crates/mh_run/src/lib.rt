//! Verdicts of sentences on a table, and the reductions that a run made since its last shift.
#![tactic(auto)]

mod observer;
mod outcome;
mod reductions;
mod runs;
mod tracing;

pub use outcome::Verdict;
pub use runs::verdict;
pub use tracing::trace;
