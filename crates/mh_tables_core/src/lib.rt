//! Tables of LR(1) parsers with their invariant, their runs, and tables on which every run ends.
#![tactic(auto)]

mod halting;
mod laws;
mod moves;
mod parts;
mod table;

pub use halting::{Halting, MAX_REDUCTIONS, halting_of};
pub use moves::{NextAction, choose};
pub use parts::{Action, Fallback, Place, StateParts};
pub use table::{Table, table_of};
