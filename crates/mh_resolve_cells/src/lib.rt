//! Types, definitions and laws for the actions of states, for the resolution of conflicts by precedence, and for the
//! table of an automaton.
#![tactic(auto)]

mod cells;
mod conflicts;
mod kinds;
mod levels;

pub use cells::{BestCandidate, Cell, Tallies, Tally};
pub use conflicts::Conflict;
pub use kinds::{ConflictKind, Mode};
pub use levels::Comparison;
