//! Rebases a messages file onto another grammar: keeps each message with a sentence that still fails, adds an entry for
//! each state that has none, and reports which lines were dropped and why. Also the definition of the lines on what is
//! wrong with a messages file, since these report the same reasons.
#![tactic(auto)]

mod dropping;
mod entries;
mod keeping;
mod laws;
mod reason;
mod rebasing;

pub use dropping::write_reason;
pub use keeping::{line_kept_in, reason_of_fault, state_to_keep};
pub use laws::{complete_is_kept, empty_is_list, rebased_again, rebased_once};
pub use reason::DropReason;
pub use rebasing::{RebaseFault, no_lines, rebase};
