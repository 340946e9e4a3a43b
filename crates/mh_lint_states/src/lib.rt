//! What the states of an automaton and of its table show: the levels that are compared, the productions that are
//! reduced, and the lines for productions that no state reduces and for conflicts.
#![tactic(auto)]

mod all_states;
mod comparisons;
mod conflicts;
mod laws;
mod lines;
mod reductions;
mod states;

pub use all_states::{ShownByStates, shown_by_states};
pub use comparisons::ComparedLevels;
pub use laws::automaton_lines_are_unique;
pub use lines::automaton_findings;
